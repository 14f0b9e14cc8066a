// A header that exists: it has a mode of its band, and a length that a PSDU can have.
ghost use Rattle.std.specs.Prelude.{◌≡◌, ◌≤◌, true};
ghost use Rattle.header.specs.Phr.{has_mode};

use bands::{Band, RateMode};

mod calls;
mod reading;
mod setting;

pub use reading::read_header;

// No model: theorems range over the headers that exist, which bring these facts; over the plain values of a model each would need them as premises.
#[derive(Clone, Copy)]
pub struct Header {
    band: Band,
    mode: RateMode,
    length: u16,
    // the last encoded bit, after which the PSDU's bits are coded
    last: bool,
    ghost known: { has_mode band mode ≡ true },
    ghost least: { 4 ≤ length },
    ghost most: { length ≤ 2047 },
}
