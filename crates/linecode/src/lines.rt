// A line code turns groups of bits into chips.
ghost use Rattle.std.specs.Prelude.{◌≡◌, length};
ghost use Rattle.faults.specs.declared.Layer.TheVariants.{Line};
ghost use Rattle.linecode.specs.Chips.{judged};
ghost use Rattle.linecode.specs.Codes.{Code, Lawful, spread_answer, spread_chips, despread_answer};
ghost use Rattle.linecode.specs.Promises.{HeardUnlessRefused, LeastDistance};

use crate::checks::judge;
use faults::{Fault, FaultKind, Layer};

pub trait LineCode {
    // What the line code means: bits per group, chips per group, and the word for a value at a position.
    ghost code: { Self → Code };

    // Words have their length, and two values never share a word at one position.
    ghost lawful: { (x : Self) → Lawful (code x) };

    fn bits_per_group(&self) -> u32
        ensures { result ≡ (code self.now).bits };

    fn chips_per_group(&self) -> usize
        ensures { result ≡ (code self.now).chips };

    // Chips of one group are judged: their number first, then the first that is neither 0 nor 1.
    fn judge_chips(&self, chips: &[u8]) -> Result<(), Fault>
        ensures { result ≡ judged Line (code self.now).chips chips.now }
    {
        judge(Layer::Line, self.chips_per_group(), chips)
    }

    // The room for a word, in chips, is judged first, then the value that is to be spread.
    // Refusals are made here and in `judge`, and not by `Layer::refusal`, whose answer would be copied on its way out, also where nothing is refused: sending would take up to 1.4 times as long.
    fn judge_value(&self, value: u32, room: usize) -> Result<(), Fault>
        ensures { result ≡ spread_answer (code self.now) value room }
    {
        if room != self.chips_per_group() {
            return Err(Fault {
                kind: FaultKind::ChipCount,
                place: room,
                layer: Layer::Line,
            });
        }
        if value >= 1 << self.bits_per_group() {
            return Err(Fault {
                kind: FaultKind::GroupValue,
                place: value as usize,
                layer: Layer::Line,
            });
        }
        Ok(())
    }

    // Writes the word for a value at a position; a refusal leaves the slice as it was.
    fn spread(&self, position: u32, value: u32, chips: &mut [u8]) -> Result<(), Fault>
        ensures answer { result ≡ spread_answer (code self.now) value (length chips.old) }
        ensures memory { chips.new ≡ spread_chips (code self.now) position value chips.old };

    // The value whose word differs in the fewest chips, the lowest if several do, and whether another ties with it.
    // By a rule of the project a pair: the flag says nothing of whether there is a value.
    fn despread(&self, position: u32, chips: &[u8]) -> Result<(u32, bool), Fault>
        ensures answer { result ≡ despread_answer (code self.now) position chips.now }
        ensures promise { HeardUnlessRefused (code self.now) position chips.now result };
}

// The least distance at a position is the smallest number of chips in which two of its words differ.
pub fn least_distance_is_least()
    ensures { LeastDistance }
{}
