// What a header says.
ghost use Rattle.std.specs.Prelude.{◌≡◌, ◌≤◌, true};
ghost use Rattle.header.specs.Phr.{has_mode};
ghost use Rattle.header.specs.View.{view};

use super::Header;
use bands::{Band, RateMode};

impl Header {
    pub fn band(&self) -> Band
        ensures answer { result ≡ (view self.now).band }
    {
        self.band
    }

    pub fn mode(&self) -> RateMode
        ensures answer { result ≡ (view self.now).mode }
        ensures known { has_mode (view self.now).band result ≡ true }
    {
        self.mode
    }

    // The octets of the PSDU.
    pub fn length(&self) -> u16
        ensures answer { result ≡ (view self.now).length }
        ensures within { (4 ≤ result) × (result ≤ 2047) }
    {
        self.length
    }

    // The last encoded bit, after which the PSDU's bits are coded.
    pub fn last_bit(&self) -> bool
        ensures answer { result ≡ (view self.now).last }
    {
        self.last
    }
}
