// What is told of an accepted capture beside its PSDU, and how long that can be.
ghost use Rattle.std.specs.Prelude.{◌≤◌};
ghost use Rattle.captures.specs.declared.outcome.TheConstants.{LONGEST};

use crate::cost::Cost;
use bands::RateMode;

// The most octets of a PSDU that the bench takes.
pub(crate) const LONGEST: usize = 255;

#[derive(Clone, Copy, PartialEq, Eq, Debug)]
pub struct Outcome {
    pub mode: RateMode,
    pub length: u16,
    pub cost: Cost,
    ghost short: { length ≤ LONGEST },
}
