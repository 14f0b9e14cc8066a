// The report on a capture.
ghost use Rattle.std.specs.Prelude.{◌≡◌, IfOk, string_bytes};
ghost use Rattle.header.specs.View.{view};
ghost use Rattle.captures.specs.Captures.{frame_part, header_part, verdict_of, verdict_in, report_of};

use crate::decoding::decode_as;
use crate::lines::{frame_lines, refused_line};
use crate::outcome::{LONGEST, Outcome};
use crate::sections::{section, section_start};
use crate::settings::{CostChoice, Settings, settings_section};
use codebits::block_count;
use faults::{Fault, FaultKind, Layer};
use header::{Header, header_chips, read_header};
use sender::block_chips;
use std::alloc::{AllocError, Global};

// Section 3, unless the header tells of a PSDU that is too long.
// Here and below, what is left of the capture and the buffer stay two parameters: each part hands on less of the one and all of the other.
fn read_frame(
    choice: CostChoice,
    header: Header,
    input: &[u8],
    psdu: &mut [u8; LONGEST],
) -> Result<Outcome, Fault>
    ensures answer { verdict_in result psdu.new ≡ frame_part choice input.now (view header) }
{
    let length = header.length();
    if length as usize > LONGEST {
        return Err(Layer::Bench.refusal(FaultKind::BenchLength, length as usize));
    }
    let needed = block_count(length) * block_chips(&header.line()) as u32;
    let octets = section_start(input, 3, needed)?;
    let cost = decode_as(choice, header, octets, psdu)?;
    Ok(Outcome {
        mode: header.mode(),
        length,
        cost,
    })
}

// Section 2, and what follows.
fn read_sections(
    settings: Settings,
    input: &[u8],
    psdu: &mut [u8; LONGEST],
) -> Result<Outcome, Fault>
    ensures answer { verdict_in result psdu.new ≡ header_part settings input.now }
{
    let needed = header_chips(settings.band);
    let (chips, rest) = section(input, 2, needed as u32)?;
    let header = read_header(settings.band, chips)?;
    read_frame(settings.cost, header, rest, psdu)
}

// The whole capture: the PSDU is written to the start of the buffer.
fn read_capture(capture: &[u8], psdu: &mut [u8; LONGEST]) -> Result<Outcome, Fault>
    ensures answer { verdict_in result psdu.new ≡ verdict_of capture.now }
{
    let (settings, rest) = settings_section(capture)?;
    read_sections(settings, rest, psdu)
}

// The lines that are printed of a capture. Only memory for them can be wanting.
pub fn report(heap: Global, capture: &[u8]) -> Result<String, AllocError>
    ensures answer { IfOk result (λ s. string_bytes s ≡ report_of capture.now) }
{
    // A close writes to the start of a buffer, so that the PSDU's length is told beside it: a part of the buffer in the outcome would say no more.
    let mut psdu = [0; LONGEST];
    match read_capture(capture, &mut psdu) {
        Ok(told) => frame_lines(
            heap,
            told.mode.number(),
            told.length,
            told.cost,
            &psdu[..told.length as usize],
        ),
        Err(fault) => refused_line(heap, fault),
    }
}
