// Headers written as chips.
ghost use Rattle.std.specs.Prelude.{◌≡◌, length};
ghost use Rattle.header.specs.Headers.{preamble_octets, header_length};
ghost use Rattle.header.specs.Writing.{write_answer, written_chips};

use crate::bits::write_octets;
use crate::fields::{Phr, has_mode};
use bands::{Band, RateMode, header_line};
use codebits::is_length;
use faults::{Fault, FaultKind, Layer};
use linecode::lines::LineCode;

// The octets of the preamble, which are zero.
pub fn preamble_octets(band: Band) -> usize
    ensures { result ≡ preamble_octets band }
{
    match band {
        Band::Mhz868 => 4,
        _ => 8,
    }
}

// The chips of a header.
pub fn header_chips(band: Band) -> usize
    ensures answer { result ≡ header_length band }
{
    8 * (preamble_octets(band) + 3) * header_line(band).chips_per_group()
}

// Writes the chips of a header, and answers its last encoded bit.
pub fn write_header(
    band: Band,
    mode: RateMode,
    psdu_length: usize,
    chips: &mut [u8],
) -> Result<bool, Fault>
    ensures answer { result ≡ write_answer band mode psdu_length (length chips.old) }
    ensures memory { chips.new ≡ written_chips band mode psdu_length chips.old }
{
    if chips.len() != header_chips(band) {
        return Err(Layer::Header.refusal(FaultKind::ChipCount, chips.len()));
    }
    if !has_mode(band, mode) {
        return Err(Layer::Header.refusal(FaultKind::RateMode, mode.number() as usize));
    }
    if !is_length(psdu_length) {
        return Err(Layer::Header.refusal(FaultKind::FrameLength, psdu_length));
    }
    let [low, high] = Phr::new(mode, psdu_length as u16).octets();
    // No heap, so a short preamble is a part of the longer one.
    let octets = [0, 0, 0, 0, 0, 0, 0, 0, 0xA7, low, high];
    let start = 8 - preamble_octets(band);
    Ok(write_octets(&header_line(band), &octets[start..], chips))
}
