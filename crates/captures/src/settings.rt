// Section 1: the letters of the band and of the cost.
ghost use Rattle.std.specs.Prelude.{◌≡◌, ℕ, Option};
ghost use Rattle.captures.specs.Letters.{band_of, choice_of};
ghost use Rattle.captures.specs.Sections.{exactly, octet_by, count_two, settings_of, seen_rest, seen};

use bands::Band;
use faults::{Fault, FaultKind, Layer};

// Which cost the PSDU is decoded by.
#[derive(Clone, Copy, PartialEq, Eq, Debug)]
pub enum CostChoice {
    Count,
    Graded,
}

#[derive(Clone, Copy, PartialEq, Eq, Debug)]
pub struct Settings {
    pub band: Band,
    pub cost: CostChoice,
}

// What a letter of section 1 stands for.
// By a rule of the project letters are matched as such. A trait and no `TryFrom`, as bands are another crate's, which knows no letters, and both are read by one call.
trait Lettered: Copy {
    ghost meant: { ℕ → Option Self };

    fn by_letter(octet: u8) -> Option<Self>
        ensures { result ≡ meant octet };
}

impl Lettered for Band {
    ghost meant = { band_of };

    fn by_letter(octet: u8) -> Option<Band> {
        match char::from(octet) {
            'A' => Some(Band::Mhz780),
            'B' => Some(Band::Mhz868),
            'C' => Some(Band::Mhz915),
            'D' => Some(Band::Mhz2450),
            _ => None,
        }
    }
}

impl Lettered for CostChoice {
    ghost meant = { choice_of };

    fn by_letter(octet: u8) -> Option<CostChoice> {
        match char::from(octet) {
            'p' => Some(CostChoice::Count),
            'g' => Some(CostChoice::Graded),
            _ => None,
        }
    }
}

// What follows the octet `value` at a place of section 1.
fn exact(input: &[u8], value: u8, place: usize) -> Result<&[u8], Fault>
    ensures { seen_rest result ≡ exactly value place input.now }
{
    let Some((first, rest)) = input.split_first() else {
        return Err(Layer::Bench.refusal(FaultKind::Section, 1));
    };
    if *first != value {
        return Err(Layer::Bench.refusal(FaultKind::Settings, place));
    }
    Ok(rest)
}

// What the letter at a place of section 1 stands for, and what follows it. That there is an octet is asked here and above: a call for it would be as long.
fn letter<T: Lettered>(input: &[u8], place: usize) -> Result<(T, &[u8]), Fault>
    ensures { seen result ≡ octet_by T.Lettered.meant place input.now }
{
    let Some((first, rest)) = input.split_first() else {
        return Err(Layer::Bench.refusal(FaultKind::Section, 1));
    };
    match T::by_letter(*first) {
        Some(meant) => Ok((meant, rest)),
        None => Err(Layer::Bench.refusal(FaultKind::Settings, place)),
    }
}

// What follows the count of section 1, which is 2.
// Four calls are as short as a loop over the octets and their places, and show both.
fn count_two(input: &[u8]) -> Result<&[u8], Fault>
    ensures { seen_rest result ≡ count_two input.now }
{
    let rest = exact(input, 2, 0)?;
    let rest = exact(rest, 0, 1)?;
    let rest = exact(rest, 0, 2)?;
    exact(rest, 0, 3)
}

// The settings in section 1, and what follows it.
pub fn settings_section(input: &[u8]) -> Result<(Settings, &[u8]), Fault>
    ensures answer { seen result ≡ settings_of input.now }
{
    let rest = count_two(input)?;
    let (band, rest) = letter(rest, 4)?;
    let (cost, rest) = letter(rest, 5)?;
    Ok((Settings { band, cost }, rest))
}
