// The straight code: one bit to a group, and the chip is the bit.
ghost use Rattle.linecode.specs.Straight.{straight, straight_lawful};

use crate::lines::LineCode;
use faults::Fault;

#[derive(Clone, Copy)]
pub struct Straight;

impl LineCode for Straight {
    ghost code = { λ _. straight };

    ghost lawful = { λ _. straight_lawful };

    fn bits_per_group(&self) -> u32 {
        1
    }

    fn chips_per_group(&self) -> usize {
        1
    }

    fn spread(&self, position: u32, value: u32, chips: &mut [u8]) -> Result<(), Fault> {
        // Handed on as it is, by the same measure as in `judge_value`.
        let judged = self.judge_value(value, chips.len());
        if judged.is_ok() {
            chips[0] = value as u8;
        }
        judged
    }

    fn despread(&self, position: u32, chips: &[u8]) -> Result<(u32, bool), Fault> {
        self.judge_chips(chips)?;
        Ok((u32::from(chips[0]), false))
    }
}
