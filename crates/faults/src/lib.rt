// What a call of the chain refuses by: which rule was broken, the place where it was found, and the layer that found it.
#![tactic(auto)]

ghost use Rattle.std.specs.Prelude.{◌≡◌, Some};
ghost use Rattle.faults.specs.Refusals.{numbered, sentence, named, fault, described};

use std::error::Error;
use std::fmt;

// The refusals, numbered from 1 in the order in which a call checks.
#[derive(Clone, Copy, PartialEq, Eq, Debug)]
pub enum FaultKind {
    // The costs or the survivor words are too few.
    ShortMemory = 1,
    // A block comes to a full frame.
    FullFrame,
    // A close comes before the last block.
    EarlyClose,
    // A PSDU to be sent has fewer than 4 or more than 2047 octets.
    PsduLength,
    // The PSDU buffer is shorter than the frame's PSDU.
    ShortBuffer,
    // A slice of chips has the wrong length.
    ChipCount,
    // A chip is neither 0 nor 1.
    ChipValue,
    // A value to be spread has more bits than a group.
    GroupValue,
    // The SFD is that of multiplexed DSSS.
    MultiplexedSfd,
    // The SFD is neither of the two.
    UnknownSfd,
    // A parity bit of the PHR is wrong.
    Parity,
    // The band lacks the rate mode.
    RateMode,
    // The header's length is out of range.
    FrameLength,
    // The settings of a capture are wrong.
    Settings,
    // A section of a capture has the wrong size, or the capture ends inside it.
    Section,
    // The frame is longer than the bench takes.
    BenchLength,
}

// Who found a fault.
#[derive(Clone, Copy, PartialEq, Eq, Debug)]
pub enum Layer {
    Line,
    Header,
    Frame,
    Bench,
}

// A refusal: which, where, and by whom. An upper layer passes it on whole.
#[derive(Clone, Copy, PartialEq, Eq, Debug)]
pub struct Fault {
    pub kind: FaultKind,
    pub place: usize,
    pub layer: Layer,
}

impl FaultKind {
    // The number of the refusal, from 1 to 16. A call and no `From`, as the rules speak of a number.
    pub fn number(self) -> u8
        ensures { result ≡ numbered self }
    {
        self as u8
    }

    // What is wrong, in words. By a match, as a derived `Display` would print the same and promise nothing of it.
    fn text(self) -> &'static str
        ensures { result.now ≡ sentence self }
    {
        match self {
            FaultKind::ShortMemory => "too few costs or survivor words",
            FaultKind::FullFrame => "the frame has all its blocks",
            FaultKind::EarlyClose => "the frame still lacks blocks",
            FaultKind::PsduLength => "a PSDU has 4 to 2047 octets",
            FaultKind::ShortBuffer => "the PSDU does not fit the buffer",
            FaultKind::ChipCount => "wrong number of chips",
            FaultKind::ChipValue => "a chip is neither 0 nor 1",
            FaultKind::GroupValue => "the value has more bits than a group",
            FaultKind::MultiplexedSfd => "the SFD announces M-DSSS",
            FaultKind::UnknownSfd => "the octet is no SFD",
            FaultKind::Parity => "a parity bit of the PHR is wrong",
            FaultKind::RateMode => "the band lacks the rate mode",
            FaultKind::FrameLength => "the header's length is out of range",
            FaultKind::Settings => "the capture's settings are wrong",
            FaultKind::Section => "a section of the capture has the wrong size",
            FaultKind::BenchLength => "the bench takes at most 255 octets",
        }
    }
}

impl Layer {
    // A refusal that this layer found.
    pub fn refusal(self, kind: FaultKind, place: usize) -> Fault
        ensures answer { result ≡ fault kind place self }
    {
        Fault {
            kind,
            place,
            layer: self,
        }
    }

    // By a match too: a `Display` would be this match with a formatter around it.
    pub fn name(self) -> &'static str
        ensures { result.now ≡ named self }
    {
        match self {
            Layer::Line => "line",
            Layer::Header => "header",
            Layer::Frame => "frame",
            Layer::Bench => "bench",
        }
    }
}

// One sentence, as "refusal 7 at 12 (line): a chip is neither 0 nor 1".
impl fmt::Display for Fault {
    ghost output = { λ x. Some (described x) };

    fn fmt<W: fmt::Write>(&self, f: &mut fmt::Formatter<W>) -> fmt::Result {
        let number = self.kind.number();
        let place = self.place;
        let layer = self.layer.name();
        let text = self.kind.text();
        write!(f, "refusal {number} at {place} ({layer}): {text}")
    }
}

impl Error for Fault {}
