// The check of a PSDU to be sent.
ghost use Rattle.std.specs.Prelude.{◌≡◌, ◌≤◌, length};
ghost use Rattle.sender.specs.Sending.{checked, blocks_to_send};

use codebits::{block_count, is_length};
use faults::{Fault, FaultKind, Layer};

// Refuses a PSDU that cannot be sent.
pub fn check_psdu(psdu: &[u8]) -> Result<(), Fault>
    ensures answer { result ≡ checked (length psdu.now) }
{
    let octets = psdu.len();
    if !is_length(octets) {
        return Err(Layer::Frame.refusal(FaultKind::PsduLength, octets));
    }
    Ok(())
}

// The blocks of a PSDU of so many octets, none where it cannot be sent: 0 is a number of blocks, and stands for no refusal.
pub fn blocks_to_send(octets: usize) -> u32
    ensures value { result ≡ blocks_to_send octets }
    ensures few { result ≤ 187 }
{
    if is_length(octets) {
        block_count(octets as u16)
    } else {
        0
    }
}
