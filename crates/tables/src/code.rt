// The line codes that are given by tables.
ghost use Rattle.tables.specs.Codes.{code_of};
ghost use Rattle.tables.specs.CodeLaws.{code_lawful};

use faults::Fault;
use linecode::lines::LineCode;

// An (N,g) code spreads g bits over N chips; of (16,1) and (32,1) there are two, codes 0 and 1.
#[derive(Clone, Copy, PartialEq, Eq, Debug)]
pub enum TableCode {
    // (4,1)
    Dsss4x1,
    // (16,1), code 0
    Dsss16x1k0,
    // (16,1), code 1
    Dsss16x1k1,
    // (32,1), code 0
    Dsss32x1k0,
    // (32,1), code 1
    Dsss32x1k1,
    // (64,1)
    Dsss64x1,
    // (128,1)
    Dsss128x1,
    // (8,4)
    Dsss8x4,
    // (16,4)
    Dsss16x4,
    // (32,4)
    Dsss32x4,
}

impl LineCode for TableCode {
    ghost code = { code_of };

    ghost lawful = { code_lawful };

    fn bits_per_group(&self) -> u32 {
        match self {
            TableCode::Dsss8x4 | TableCode::Dsss16x4 | TableCode::Dsss32x4 => 4,
            _ => 1,
        }
    }

    fn chips_per_group(&self) -> usize {
        match self {
            TableCode::Dsss4x1 => 4,
            TableCode::Dsss8x4 => 8,
            TableCode::Dsss16x1k0 | TableCode::Dsss16x1k1 | TableCode::Dsss16x4 => 16,
            TableCode::Dsss32x1k0 | TableCode::Dsss32x1k1 | TableCode::Dsss32x4 => 32,
            TableCode::Dsss64x1 => 64,
            TableCode::Dsss128x1 => 128,
        }
    }

    fn spread(&self, _position: u32, value: u32, chips: &mut [u8]) -> Result<(), Fault> {
        // Handed on as it is, by the same measure as in `judge_value`.
        let judged = self.judge_value(value, chips.len());
        if judged.is_ok() {
            self.write_word(value as usize, chips);
        }
        judged
    }

    fn despread(&self, _position: u32, chips: &[u8]) -> Result<(u32, bool), Fault> {
        self.judge_chips(chips)?;
        Ok(self.nearest_value(chips))
    }
}
