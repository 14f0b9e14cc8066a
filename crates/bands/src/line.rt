// A line code that is chosen at run time: any of those that the bands use.
ghost use Rattle.bands.specs.Lines.{line_code, line_lawful};

use faults::Fault;
use layers::{Alternating, Whitened};
use linecode::lines::LineCode;
use linecode::straight::Straight;
use tables::TableCode;

// It means what the code that it holds means.
#[derive(Clone, Copy)]
pub enum BandLine {
    Table(TableCode),
    WhitenedTable(Whitened<TableCode>),
    AlternatingTables(Alternating<TableCode>),
    WhitenedStraight(Whitened<Straight>),
}

// The call, made of the code that is held. By a rule of the project no function hands that code out as a `dyn`.
macro_rules! dispatch {
    ($self:ident, $line:ident => $call:expr) => {
        match $self {
            BandLine::Table($line) => $call,
            BandLine::WhitenedTable($line) => $call,
            BandLine::AlternatingTables($line) => $call,
            BandLine::WhitenedStraight($line) => $call,
        }
    };
}

impl LineCode for BandLine {
    ghost code = { line_code };

    ghost lawful = { line_lawful };

    fn bits_per_group(&self) -> u32 {
        dispatch!(self, line => line.bits_per_group())
    }

    fn chips_per_group(&self) -> usize {
        dispatch!(self, line => line.chips_per_group())
    }

    fn spread(&self, position: u32, value: u32, chips: &mut [u8]) -> Result<(), Fault> {
        dispatch!(self, line => line.spread(position, value, chips))
    }

    fn despread(&self, position: u32, chips: &[u8]) -> Result<(u32, bool), Fault> {
        dispatch!(self, line => line.despread(position, chips))
    }
}
