// A capture's PSDU, decoded from section 3.
ghost use Rattle.std.specs.Prelude.{◌≡◌, ◌*◌, ◌^◌, ◌<◌, ◌≤◌, length, Ok};
ghost use Rattle.std.specs.Mem.{type_size};
ghost use Rattle.codebits.specs.Message.{blocks, message_length};
ghost use Rattle.receiver.specs.Receiver.{begun, octets, frame_by};
ghost use Rattle.header.specs.View.{view};
ghost use Rattle.captures.specs.Captures.{longest, frame_after, decoded_as};
ghost use Rattle.captures.specs.Decoding.{chips_for, decoded, told, heard_answer, state_of, Heard};

use crate::cost::Cost;
use crate::outcome::LONGEST;
use crate::settings::CostChoice;
use codebits::{BLOCK_BITS, block_count};
use costs::{CostKind, Count, Graded};
use faults::{Fault, FaultKind, Layer};
use header::Header;
use linecode::lines::LineCode;
use receiver::{COSTS, Listening, OpenFrame};
use sender::block_chips;

// A word for each bit of the longest message that the bench takes, which has 24 blocks.
const WORDS: usize = 24 * BLOCK_BITS;

// Hands the blocks that are there whole to the receiver, before a short section is refused.
fn hear<L: LineCode, K: CostKind>(
    frame: &mut OpenFrame,
    header: Header,
    line: &L,
    input: &[u8],
    costs: &mut [K],
    words: &mut [u64],
) -> Result<(), Fault>
    requires begun { frame.old ≡ begun header }
    requires memory { (128 ≤ length costs.old) × (message_length (octets header) ≤ length words.old) }
    ensures answer { result ≡ heard_answer (chips_for (frame_by (L.LineCode.code line.now) header) input.now) }
    ensures state { result ≡ Ok tt → Heard K.CostKind.kind (L.LineCode.code line.now) header costs.old words.old input.now (blocks (octets header)) (state_of (L.LineCode.code line.now) frame.new costs.new words.new) }
{
    let size = block_chips(line);
    let count = block_count(header.length()) as usize;
    for chips in input.chunks_exact(size).take(count) {
        frame.block(line, costs, words, chips)?;
    }
    if input.len() < count * size {
        return Err(Layer::Bench.refusal(FaultKind::Section, 3));
    }
    Ok(())
}

// Decodes the PSDU that the chips carry into the start of the buffer, and tells its cost.
fn decode<K: CostKind>(header: Header, input: &[u8], psdu: &mut [u8; LONGEST]) -> Result<K, Fault>
    requires fits { 128 * type_size K.row < 2 ^ 63 }
    requires short { octets header ≤ longest }
    ensures answer { told (octets header) result psdu.new ≡ decoded K.CostKind.kind (frame_after (view header)) input.now }
{
    let mut costs = [K::nothing(); COSTS];
    let mut words = [0; WORDS];
    let line = header.line();
    let (mut frame, ticket) = Listening::new().begin(header);
    match hear(&mut frame, header, &line, input, &mut costs, &mut words) {
        Err(fault) => {
            frame.abandon(ticket).switch_off();
            Err(fault)
        }
        Ok(()) => {
            let (listening, cost) = frame.close(ticket, &costs, &words, psdu);
            listening.switch_off();
            cost
        }
    }
}

// Decodes by the cost that the settings name.
pub(crate) fn decode_as(
    choice: CostChoice,
    header: Header,
    input: &[u8],
    psdu: &mut [u8; LONGEST],
) -> Result<Cost, Fault>
    requires short { octets header ≤ longest }
    ensures answer { told (octets header) result psdu.new ≡ decoded_as choice (frame_after (view header)) input.now }
{
    match choice {
        CostChoice::Count => decode::<Count>(header, input, psdu).map(Cost::from),
        CostChoice::Graded => decode::<Graded>(header, input, psdu).map(Cost::from),
    }
}
