// Line codes: groups of bits to chips and back.
#![tactic(auto)]

pub mod checks;
pub mod lines;
pub mod straight;
