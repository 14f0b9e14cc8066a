// The fields of a header: the modes that a band has, and the two octets of the PHR.
ghost use Rattle.std.specs.Prelude.{◌≡◌, ◌+◌, ◌*◌, ◌/◌, ◌%◌, ◌≤◌, [], ◌∷◌, get_or};
ghost use Rattle.codebits.specs.Bits.{bit_at};
ghost use Rattle.header.specs.Phr.{has_mode, sum_from, mode_of, length_of, phr};

use bands::{Band, RateMode, psdu_line};

// Where the seven bits begin whose sum is p0, and those whose sum is p1.
pub const LOW_BITS: u32 = 2;

pub const HIGH_BITS: u32 = 9;

// Whether a band has a mode.
pub fn has_mode(band: Band, mode: RateMode) -> bool
    ensures answer { result ≡ has_mode band mode }
{
    psdu_line(band, mode).is_some()
}

// The PHR: two parities, the mode, an ignored bit and the length, from the least bit on.
#[derive(Clone, Copy)]
pub struct Phr {
    bits: u16,
}

impl Phr {
    // The PHR of a mode and a length.
    pub fn new(mode: RateMode, length: u16) -> Phr
        requires { length ≤ 2047 }
        ensures { result.bits ≡ phr mode length }
    {
        let body = Phr {
            bits: 4 * mode.number() as u16 + 32 * length,
        };
        Phr {
            bits: body.bits
                + 2 * u16::from(body.parity(HIGH_BITS))
                + u16::from(body.parity(LOW_BITS)),
        }
    }

    // The PHR of two octets, the least first.
    pub fn from_octets(octets: [u8; 2]) -> Phr
        ensures { result.bits ≡ get_or octets 0 0 + get_or octets 1 0 * 256 }
    {
        Phr {
            bits: u16::from_le_bytes(octets),
        }
    }

    pub fn octets(self) -> [u8; 2]
        ensures { result ≡ self.bits % 256 ∷ self.bits / 256 ∷ [] }
    {
        self.bits.to_le_bytes()
    }

    pub fn bit(self, place: u32) -> bool
        requires { place ≤ 15 }
        ensures { result ≡ bit_at self.bits place }
    {
        (self.bits >> place) % 2 == 1
    }

    // The sum modulo 2 of the seven bits from a place on.
    pub fn parity(self, place: u32) -> bool
        requires { place ≤ 9 }
        ensures { result ≡ sum_from self.bits place 7 }
    {
        ((self.bits >> place) % 128).count_ones() % 2 == 1
    }

    // Two bits, each number of which is a mode's.
    pub fn mode(self) -> RateMode
        ensures { result ≡ mode_of self.bits }
    {
        let number = (self.bits >> 2) % 4;
        RateMode::try_from(number as u8).unwrap()
    }

    pub fn length(self) -> u16
        ensures value { result ≡ length_of self.bits }
        ensures most { result ≤ 2047 }
    {
        self.bits >> 5
    }
}
