// A whole PSDU sent at once.
ghost use Rattle.std.specs.Prelude.{◌≡◌, length};
ghost use Rattle.frames.specs.Sent.{block_chips};
ghost use Rattle.sender.specs.Runs.{fresh};
ghost use Rattle.sender.specs.Sending.{frame_by, whole_answer, whole_chips};

use crate::check::{blocks_to_send, check_psdu};
use crate::cursor::Cursor;
use codebits::BLOCK_CODE_BITS;
use faults::{Fault, FaultKind, Layer};
use linecode::lines::LineCode;

// The chips of a block by a line code.
pub fn block_chips<L: LineCode>(line: &L) -> usize
    ensures answer { result ≡ block_chips (L.LineCode.code line.now) }
{
    BLOCK_CODE_BITS / line.bits_per_group() as usize * line.chips_per_group()
}

// Writes all the chips of a PSDU, and answers how many blocks they are. The coding and the last bit are two parameters, as for a cursor, which takes them.
pub fn send_frame<L: LineCode>(
    line: &L,
    psdu: &[u8],
    differential: bool,
    last: bool,
    chips: &mut [u8],
) -> Result<u32, Fault>
    ensures answer { result ≡ whole_answer (frame_by (L.LineCode.code line.now) (fresh psdu.now differential last)) (length chips.old) }
    ensures memory { chips.new ≡ whole_chips (frame_by (L.LineCode.code line.now) (fresh psdu.now differential last)) psdu.now chips.old }
{
    check_psdu(psdu)?;
    let blocks = blocks_to_send(psdu.len());
    if chips.len() != blocks as usize * block_chips(line) {
        return Err(Layer::Frame.refusal(FaultKind::ChipCount, chips.len()));
    }
    let mut cursor = Cursor::new(psdu, differential, last);
    while let Some(_) = cursor.next_in_frame(line, chips)? {}
    Ok(blocks)
}
