// The sending end: a check of a PSDU, and a cursor over it that writes one block's chips after the other.
#![tactic(auto)]

mod check;
mod coding;
mod cursor;
mod runs;
mod whole;

pub use check::check_psdu;
pub use cursor::Cursor;
pub use runs::blocks_come_in_order;
pub use whole::{block_chips, send_frame};
