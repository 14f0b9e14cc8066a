// The bands and their rate modes, and the line code of each.
#![tactic(auto)]

mod band;
pub mod laws;
mod line;
mod modes;

pub use band::{Band, RateMode, UnknownBand, UnknownMode};
pub use line::BandLine;
pub use modes::{header_line, is_differential, psdu_line};
