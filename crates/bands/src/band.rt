// The four bands, by their frequency in MHz, and the rate modes.
ghost use Rattle.std.specs.Prelude.{◌≡◌, Some};
ghost use Rattle.bands.specs.Numbers.{mode_number, band_number, ReadsBand, ReadsMode, unknown_band, unknown_mode};

use std::error::Error;
use std::fmt;

// A band's number is its frequency.
#[derive(Clone, Copy, PartialEq, Eq, Debug)]
pub enum Band {
    Mhz780 = 780,
    Mhz868 = 868,
    Mhz915 = 915,
    Mhz2450 = 2450,
}

#[derive(Clone, Copy, PartialEq, Eq, Debug)]
pub enum RateMode {
    Mode0,
    Mode1,
    Mode2,
    Mode3,
}

// A number that is no band's frequency. Bands and modes have an error each, which tells what was read.
#[derive(Clone, Copy, PartialEq, Eq, Debug)]
pub struct UnknownBand(pub u16);

// A number that no rate mode has.
#[derive(Clone, Copy, PartialEq, Eq, Debug)]
pub struct UnknownMode(pub u8);

impl Band {
    // The band's frequency in MHz, which is its name. A call and no `From`, as the rules speak of a number.
    pub fn number(self) -> u16
        ensures { result ≡ band_number self }
    {
        self as u16
    }
}

impl TryFrom<u16> for Band {
    type Error = UnknownBand;

    ghost try_from_gives = { ReadsBand };

    fn try_from(number: u16) -> Result<Self, UnknownBand> {
        match number {
            780 => Ok(Band::Mhz780),
            868 => Ok(Band::Mhz868),
            915 => Ok(Band::Mhz915),
            2450 => Ok(Band::Mhz2450),
            _ => Err(UnknownBand(number)),
        }
    }
}

impl RateMode {
    // The mode's number, by a call as for a band.
    pub fn number(self) -> u8
        ensures { result ≡ mode_number self }
    {
        self as u8
    }
}

impl TryFrom<u8> for RateMode {
    type Error = UnknownMode;

    ghost try_from_gives = { ReadsMode };

    fn try_from(number: u8) -> Result<Self, UnknownMode> {
        match number {
            0 => Ok(RateMode::Mode0),
            1 => Ok(RateMode::Mode1),
            2 => Ok(RateMode::Mode2),
            3 => Ok(RateMode::Mode3),
            _ => Err(UnknownMode(number)),
        }
    }
}

impl fmt::Display for UnknownBand {
    ghost output = { λ e. Some (unknown_band e) };

    fn fmt<W: fmt::Write>(&self, f: &mut fmt::Formatter<W>) -> fmt::Result {
        write!(f, "no band is at {} MHz", self.0)
    }
}

impl fmt::Display for UnknownMode {
    ghost output = { λ e. Some (unknown_mode e) };

    fn fmt<W: fmt::Write>(&self, f: &mut fmt::Formatter<W>) -> fmt::Result {
        write!(f, "no rate mode has the number {}", self.0)
    }
}

impl Error for UnknownBand {}

impl Error for UnknownMode {}
