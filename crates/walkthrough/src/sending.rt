// A frame as it is sent: its header's chips, and those of its PSDU, block by block.
use anyhow::anyhow;
use bands::{Band, BandLine, RateMode, is_differential, psdu_line};
use header::{header_chips, write_header};
use linecode::lines::LineCode;
use sender::{Cursor, block_chips};
use std::alloc::Global;

#[derive(Drop)]
pub struct SentFrame {
    pub line: BandLine,
    pub header: Vec<u8>,
    pub chips: Vec<u8>,
}

pub fn send(heap: Global, band: Band, mode: RateMode, psdu: &[u8]) -> anyhow::Result<SentFrame> {
    let Some(line) = psdu_line(band, mode) else {
        return Err(anyhow!("the band lacks the mode"));
    };
    let mut header = vec![in heap; 0; header_chips(band)]?;
    let last = write_header(band, mode, psdu.len(), &mut header)?;
    let mut block = vec![in heap; 0; block_chips(&line)]?;
    let mut chips = Vec::new(heap);
    let mut cursor = Cursor::new(psdu, is_differential(band, mode), last);
    // Block by block, to show the cursor: a whole frame is one call of `send_frame`.
    while let Some(_) = cursor.next_block(&line, &mut block)? {
        chips.extend_from_slice(&block)?;
    }
    Ok(SentFrame {
        line,
        header,
        chips,
    })
}
