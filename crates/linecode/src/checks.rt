// How a slice of chips is judged.
ghost use Rattle.std.specs.Prelude.{◌≡◌};
ghost use Rattle.linecode.specs.Chips.{judged};

use faults::{Fault, FaultKind, Layer};

// The length is judged first, then the first chip that is neither 0 nor 1.
pub fn judge(layer: Layer, count: usize, chips: &[u8]) -> Result<(), Fault>
    ensures { result ≡ judged layer count chips.now }
{
    if chips.len() != count {
        return Err(Fault {
            kind: FaultKind::ChipCount,
            place: chips.len(),
            layer,
        });
    }
    for (i, c) in chips.iter().enumerate() {
        if *c > 1 {
            return Err(Fault {
                kind: FaultKind::ChipValue,
                place: i,
                layer,
            });
        }
    }
    Ok(())
}
