// Headers read from chips.
ghost use Rattle.std.specs.Prelude.{◌≡◌, length, slice_index};
ghost use Rattle.header.specs.Phr.{read_phr, read_fields};
ghost use Rattle.header.specs.Reading.{with_last, read_answer};
ghost use Rattle.header.specs.View.{said};

use super::Header;
use crate::bits::HeardBits;
use crate::fields::{HIGH_BITS, LOW_BITS, Phr, has_mode};
use crate::writing::{header_chips, preamble_octets};
use bands::{Band, header_line};
use codebits::is_length;
use faults::{Fault, FaultKind, Layer};
use linecode::checks::judge;

// The header of a PHR, or its first fault.
fn read_phr(band: Band, phr: Phr, last: bool) -> Result<Header, Fault>
    ensures { said result ≡ with_last band last (read_phr band phr.bits) }
{
    if phr.bit(0) != phr.parity(LOW_BITS) {
        return Err(Layer::Header.refusal(FaultKind::Parity, 0));
    }
    if phr.bit(1) != phr.parity(HIGH_BITS) {
        return Err(Layer::Header.refusal(FaultKind::Parity, 1));
    }
    let mode = phr.mode();
    if !has_mode(band, mode) {
        return Err(Layer::Header.refusal(FaultKind::RateMode, mode.number() as usize));
    }
    let length = phr.length();
    if !is_length(length as usize) {
        return Err(Layer::Header.refusal(FaultKind::FrameLength, length as usize));
    }
    Ok(Header {
        band,
        mode,
        length,
        last,
    })
}

// The header of the SFD and the two octets of the PHR, or the first fault.
fn read_fields(band: Band, octets: &[u8], last: bool) -> Result<Header, Fault>
    requires { length octets.now ≡ 3 }
    ensures { said result ≡ with_last band last (read_fields band (slice_index octets.now 0) (slice_index octets.now 1) (slice_index octets.now 2)) }
{
    match octets {
        [0xA7, lo, hi] => read_phr(band, Phr::from_octets([*lo, *hi]), last),
        [0x58, _, _] => Err(Layer::Header.refusal(FaultKind::MultiplexedSfd, 0x58)),
        [other, _, _] => Err(Layer::Header.refusal(FaultKind::UnknownSfd, *other as usize)),
        _ => unreachable(),
    }
}

// The header that the chips carry, or the first fault.
pub fn read_header(band: Band, chips: &[u8]) -> Result<Header, Fault>
    ensures answer { said result ≡ read_answer band chips.now }
{
    judge(Layer::Header, header_chips(band), chips)?;
    let line = header_line(band);
    let mut heard = HeardBits::new(&line, chips);
    let octets = heard.octets_after(preamble_octets(band));
    read_fields(band, &octets, heard.last())
}
