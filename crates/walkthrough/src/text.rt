// A short text by one line code.
use crate::passage::pass;
use crate::shown::{chips_text, verdict};
use faults::Fault;
use layers::Whitened;
use linecode::lines::LineCode;
use tables::TableCode;

// What a pump head might send.
const TEXT: &str = "pump 7";

// The line code of mode 2 in the bands at 780 and 915 MHz.
const LINE: Whitened<TableCode> = Whitened {
    line: TableCode::Dsss8x4,
};

// Each octet of the text is two groups of four bits, the low bits first.
pub fn follow_text(rt: &HostRuntime) -> anyhow::Result<()> {
    println!(rt; "The text \"{TEXT}\" by the whitened (8,4) code, damaged on the way")?;
    let values = TEXT.bytes().flat_map(|octet| [octet % 16, octet / 16]);
    for (position, value) in (0..).zip(values) {
        show_group(rt, position, u32::from(value))?;
    }
    Ok(())
}

fn show_group(rt: &HostRuntime, position: u32, value: u32) -> anyhow::Result<()> {
    let passage = pass(&LINE, position, value)?;
    let sent = chips_text(rt.alloc(), &passage.sent)?;
    let received = chips_text(rt.alloc(), &passage.received)?;
    let (read, tied) = passage.answer;
    let flipped = passage.flipped;
    let outcome = verdict(read == value, tied);
    println!(rt;
        "group {position:>2}: value {value:>2} sent as {sent}, received as {received} with {flipped} flipped, read as {read:>2}: {outcome}"
    )?;
    Ok(())
}

// A PSDU of zeros has code bits of zeros, so its groups show the whitening.
pub fn zero_groups(rt: &HostRuntime) -> anyhow::Result<()> {
    println!(rt; "The first groups of a zero PSDU, band 915, mode 2")?;
    for position in 0..2 {
        let mut chips = [0; 8];
        LINE.spread(position, 0, &mut chips)?;
        let text = chips_text(rt.alloc(), &chips)?;
        println!(rt; "{text}")?;
    }
    Ok(())
}

// What a line code refuses, as a firmware engineer sees it.
pub fn refusals(rt: &HostRuntime) -> anyhow::Result<()> {
    println!(rt; "What a line code refuses")?;
    show_refusal(rt, LINE.despread(0, &[0; 7]))?;
    show_refusal(rt, LINE.despread(0, &[0, 1, 0, 2, 0, 1, 3, 0]))?;
    let mut chips = [0; 8];
    match LINE.spread(0, 16, &mut chips) {
        Ok(()) => println!(rt; "accepted")?,
        Err(fault) => println!(rt; "{fault}")?,
    }
    Ok(())
}

fn show_refusal(rt: &HostRuntime, answer: Result<(u32, bool), Fault>) -> anyhow::Result<()> {
    match answer {
        Ok((value, _)) => println!(rt; "accepted as {value}")?,
        Err(fault) => println!(rt; "{fault}")?,
    }
    Ok(())
}
