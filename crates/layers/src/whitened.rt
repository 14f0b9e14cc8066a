// Whitening over any line code: chip c of position p is added modulo 2 to element (p × n + c) modulo 511 of the sequence.
ghost use Rattle.layers.specs.Whitening.{whitened};
ghost use Rattle.layers.specs.WhiteningLaws.{whitened_lawful};

use crate::whitening::whiten_group;
use faults::Fault;
use linecode::lines::LineCode;

#[derive(Clone, Copy)]
pub struct Whitened<L> {
    pub line: L,
}

impl<L: LineCode> LineCode for Whitened<L> {
    ghost code = { λ s. whitened (L.LineCode.code s.line) };

    ghost lawful = { λ s. whitened_lawful _ (L.LineCode.lawful s.line) };

    fn bits_per_group(&self) -> u32 {
        self.line.bits_per_group()
    }

    fn chips_per_group(&self) -> usize {
        self.line.chips_per_group()
    }

    fn spread(&self, position: u32, value: u32, chips: &mut [u8]) -> Result<(), Fault> {
        self.line.spread(position, value, chips)?;
        whiten_group(position, chips);
        Ok(())
    }

    fn despread(&self, position: u32, chips: &[u8]) -> Result<(u32, bool), Fault> {
        self.judge_chips(chips)?;
        // No heap, so the plain chips take a part of the longest group that there is: of the line code's own number, which the compiler knows where it is one.
        let mut longest = [0; 128];
        let plain = &mut longest[..self.chips_per_group()];
        plain.copy_from_slice(chips);
        whiten_group(position, plain);
        self.line.despread(position, plain)
    }
}
