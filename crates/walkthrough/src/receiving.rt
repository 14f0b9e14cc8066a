// A frame received: its header read, its blocks taken in turn, and its PSDU.
use bands::BandLine;
use codebits::BLOCK_BITS;
use costs::CostKind;
use faults::Fault;
use header::Header;
use linecode::lines::LineCode;
use receiver::{COSTS, Listening, OpenFrame};
use sender::block_chips;
use std::alloc::{AllocError, Global};

// What a close told, and the octets that it wrote.
#[derive(Drop)]
pub struct Received<K> {
    pub told: Result<K, Fault>,
    pub psdu: Vec<u8>,
}

// The words of the longest message.
const WORDS: usize = 187 * BLOCK_BITS;

// Takes the whole blocks of the chips in turn. One that is refused leaves the frame without it, so that the close tells.
fn take_blocks<K: CostKind>(
    frame: &mut OpenFrame,
    line: &BandLine,
    costs: &mut [K],
    words: &mut [u64],
    chips: &[u8],
) {
    for block in chips.chunks_exact(block_chips(line)) {
        let _ = frame.block(line, costs, words, block);
    }
}

// Runs the calls of one frame.
pub fn receive<K: CostKind>(
    heap: Global,
    header: Header,
    line: &BandLine,
    chips: &[u8],
) -> Result<Received<K>, AllocError> {
    let mut costs = vec![in heap; K::nothing(); COSTS]?;
    let mut words = vec![in heap; 0; WORDS]?;
    let mut psdu = vec![in heap; 0; header.length() as usize]?;
    let (mut frame, ticket) = Listening::new().begin(header);
    take_blocks(&mut frame, line, &mut costs, &mut words, chips);
    let (listening, told) = frame.close(ticket, &costs, &words, &mut psdu);
    listening.switch_off();
    Ok(Received { told, psdu })
}
