// A capture: sections in a fixed order, each after its count in four octets, least first. What it means, and the lines that are printed of it.
#![tactic(auto)]

mod cost;
mod decoding;
mod lines;
mod outcome;
mod reports;
mod sections;
mod settings;

pub use cost::Cost;
pub use lines::{frame_lines, refused_line};
pub use reports::report;
pub use sections::{section, section_start};
pub use settings::{CostChoice, Settings, settings_section};
