// The octets of a capture.
use anyhow::anyhow;
use bands::{Band, RateMode, is_differential, psdu_line};
use captures::CostChoice;
use codebits::block_count;
use header::{header_chips, write_header};
use sender::{block_chips, check_psdu, send_frame};
use std::alloc::Global;

// What is to be sent, beside the PSDU.
#[derive(Clone, Copy)]
pub struct Order {
    pub band: Band,
    pub mode: RateMode,
    pub cost: CostChoice,
}

// The chips of a frame.
#[derive(Drop)]
pub struct FrameChips {
    pub header: Vec<u8>,
    pub psdu: Vec<u8>,
}

// The chips that are sent for a PSDU.
pub fn chips_of(heap: Global, order: &Order, psdu: &[u8]) -> anyhow::Result<FrameChips> {
    check_psdu(psdu)?;
    let mut header = vec![in heap; 0; header_chips(order.band)]?;
    let last = write_header(order.band, order.mode, psdu.len(), &mut header)?;
    let Some(line) = psdu_line(order.band, order.mode) else {
        return Err(anyhow!("the band lacks the rate mode"));
    };
    let blocks = block_count(psdu.len() as u16) as usize;
    let mut chips = vec![in heap; 0; blocks * block_chips(&line)]?;
    let differential = is_differential(order.band, order.mode);
    send_frame(&line, psdu, differential, last, &mut chips)?;
    Ok(FrameChips {
        header,
        psdu: chips,
    })
}

// The letters of band and cost. The bench reads them by a match from letters, and this is the match to letters: neither can be made of the other.
fn letters(order: &Order) -> [u8; 2] {
    let band = match order.band {
        Band::Mhz780 => 'A',
        Band::Mhz868 => 'B',
        Band::Mhz915 => 'C',
        Band::Mhz2450 => 'D',
    };
    let cost = match order.cost {
        CostChoice::Count => 'p',
        CostChoice::Graded => 'g',
    };
    [band as u8, cost as u8]
}

fn write_section(capture: &mut Vec<u8>, octets: &[u8]) -> anyhow::Result<()> {
    let Ok(count) = u32::try_from(octets.len()) else {
        return Err(anyhow!("a section is too long for its count"));
    };
    capture.extend_from_slice(&count.to_le_bytes())?;
    capture.extend_from_slice(octets)?;
    Ok(())
}

// The three sections.
pub fn write_capture(heap: Global, order: &Order, frame: &FrameChips) -> anyhow::Result<Vec<u8>> {
    let mut capture = Vec::new(heap);
    write_section(&mut capture, &letters(order))?;
    write_section(&mut capture, &frame.header)?;
    write_section(&mut capture, &frame.psdu)?;
    Ok(capture)
}
