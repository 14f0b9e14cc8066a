// Headers both ways: the chips of a header from band, mode and length, and the header from its chips.
#![tactic(auto)]

mod bits;
mod fields;
mod laws;
mod model;
mod writing;

pub use fields::has_mode;
pub use laws::headers_are_read_back;
pub use model::{Header, read_header};
pub use writing::{header_chips, write_header};
