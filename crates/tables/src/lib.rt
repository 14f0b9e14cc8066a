// Line codes that are given by tables of words: one piece of code, and the tables as data.
#![tactic(auto)]

mod code;
pub mod facts;
mod rows;
mod search;

pub use code::TableCode;
