// Sections after the first.
ghost use Rattle.std.specs.Prelude.{◌≡◌};
ghost use Rattle.captures.specs.Sections.{seen_rest, seen_both, section_start, section_of};

use faults::{Fault, FaultKind, Layer};

// What follows the count of a section that needs `count` octets.
pub fn section_start(input: &[u8], number: usize, count: u32) -> Result<&[u8], Fault>
    ensures answer { seen_rest result ≡ section_start number count input.now }
{
    let refused = Layer::Bench.refusal(FaultKind::Section, number);
    let [a, b, c, d, rest @ ..] = input else {
        return Err(refused);
    };
    if u32::from_le_bytes([*a, *b, *c, *d]) != count {
        return Err(refused);
    }
    Ok(rest)
}

// The octets of a section that needs `count` of them, and what follows it.
pub fn section(input: &[u8], number: usize, count: u32) -> Result<(&[u8], &[u8]), Fault>
    ensures answer { seen_both result ≡ section_of number count input.now }
{
    let rest = section_start(input, number, count)?;
    let needed = count as usize;
    if rest.len() < needed {
        return Err(Layer::Bench.refusal(FaultKind::Section, number));
    }
    Ok(rest.split_at(needed))
}
