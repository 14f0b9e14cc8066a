// Whole frames: every band and mode, refusals, damage, and the story that began this project.
use crate::careless::careless;
use crate::receiving::receive;
use crate::sending::{SentFrame, send};
use crate::shown::{chips_text, hex_text};
use bands::{Band, RateMode, psdu_line};
use codebits::BLOCK_CODE_BITS;
use costs::{Count, Graded, Observation};
use header::{Header, header_chips, read_header, write_header};
use linecode::lines::LineCode;
use reading::read_block;

// A volume update, whose message has two pad bits, and a nozzle-down.
const VOLUME: [u8; 10] = [0x56, 0x07, 0x00, 0x12, 0x34, 0x56, 0x00, 0x00, 0x27, 0x10];

const NOZZLE: [u8; 5] = [0x4e, 0x07, 0x01, 0x00, 0x5a];

const BANDS: [Band; 4] = [Band::Mhz780, Band::Mhz868, Band::Mhz915, Band::Mhz2450];

const MODES: [RateMode; 4] = [
    RateMode::Mode0,
    RateMode::Mode1,
    RateMode::Mode2,
    RateMode::Mode3,
];

pub fn every_mode(rt: &HostRuntime) -> anyhow::Result<()> {
    println!(rt; "Every band and mode, sent and received")?;
    for band in BANDS {
        for mode in MODES {
            if psdu_line(band, mode).is_some() {
                show_frame(rt, band, mode, &VOLUME)?;
                show_frame(rt, band, mode, &NOZZLE)?;
            }
        }
    }
    Ok(())
}

fn show_frame(rt: &HostRuntime, band: Band, mode: RateMode, psdu: &[u8]) -> anyhow::Result<()> {
    let sent = send(rt.alloc(), band, mode, psdu)?;
    let header = read_header(band, &sent.header)?;
    let groups = first_groups(rt, &sent)?;
    let (mhz, number) = (band.number(), mode.number());
    let (chips, octets) = (sent.chips.len(), header.length());
    println!(rt;
        "band {mhz}, mode {number}: header read back, {octets} octets, {chips} chips, first {groups}"
    )?;
    show_received(rt, header, &sent)
}

// The first two groups, of which 16 chips at most are shown.
fn first_groups(rt: &HostRuntime, sent: &SentFrame) -> anyhow::Result<String> {
    let count = (2 * sent.line.chips_per_group().min(8)).min(sent.chips.len());
    Ok(chips_text(rt.alloc(), &sent.chips[..count])?)
}

// What both kinds of cost return.
fn show_received(rt: &HostRuntime, header: Header, sent: &SentFrame) -> anyhow::Result<()> {
    let count = receive::<Count>(rt.alloc(), header, &sent.line, &sent.chips)?;
    let graded = receive::<Graded>(rt.alloc(), header, &sent.line, &sent.chips)?;
    let by_count = hex_text(rt.alloc(), &count.psdu)?;
    let by_graded = hex_text(rt.alloc(), &graded.psdu)?;
    let Count { differing } = count.told?;
    let Graded { sure, doubtful } = graded.told?;
    println!(rt; "  count {differing}: {by_count}; graded {sure} {doubtful}: {by_graded}")?;
    Ok(())
}

pub fn header_refusals(rt: &HostRuntime) -> anyhow::Result<()> {
    println!(rt; "What a header refuses")?;
    show_header(rt, Band::Mhz915, RateMode::Mode3, 3)?;
    show_header(rt, Band::Mhz915, RateMode::Mode3, 4)?;
    show_header(rt, Band::Mhz868, RateMode::Mode2, 10)
}

fn show_header(rt: &HostRuntime, band: Band, mode: RateMode, octets: usize) -> anyhow::Result<()> {
    let mut chips = vec![in rt.alloc(); 0; header_chips(band)]?;
    let (mhz, number) = (band.number(), mode.number());
    match write_header(band, mode, octets, &mut chips) {
        Ok(_) => println!(rt; "band {mhz}, mode {number}, length {octets}: accepted")?,
        Err(fault) => println!(rt; "band {mhz}, mode {number}, length {octets}: {fault}")?,
    }
    Ok(())
}

pub fn damaged(rt: &HostRuntime) -> anyhow::Result<()> {
    println!(rt; "The volume update in band 915, damaged on the way")?;
    println!(rt; "mode 1, two chips of each group flipped:")?;
    show_damaged(
        rt,
        RateMode::Mode1,
        |place, chip| flipped_if(place % 16 < 2, chip),
    )?;
    println!(rt; "mode 1, group 5 erased:")?;
    show_damaged(
        rt,
        RateMode::Mode1,
        |place, chip| if place / 16 == 5 { 0 } else { chip },
    )?;
    println!(rt; "mode 3, four chips flipped:")?;
    show_damaged(rt, RateMode::Mode3, |place, chip| {
        flipped_if(place % 20 == 0 && place / 20 < 4, chip)
    })?;
    println!(rt; "mode 3, nine chips flipped, which is beyond the promise:")?;
    show_damaged(rt, RateMode::Mode3, |place, chip| {
        flipped_if(place % 20 == 0 && place / 20 < 9, chip)
    })
}

fn flipped_if(flips: bool, chip: u8) -> u8 {
    chip ^ u8::from(flips)
}

// What arrives of each chip, told by its place and the chip that was sent.
fn damage<F: Fn(usize, u8) -> u8>(chips: &mut [u8], arrives: F)
    requires { F.IsAlwaysCallable arrives }
{
    for (place, chip) in chips.iter_mut().enumerate() {
        *chip = arrives(place, *chip);
    }
}

// The volume update, as it comes back from chips that were damaged so.
fn show_damaged<F: Fn(usize, u8) -> u8>(
    rt: &HostRuntime,
    mode: RateMode,
    arrives: F,
) -> anyhow::Result<()>
    requires { F.IsAlwaysCallable arrives }
{
    let mut sent = send(rt.alloc(), Band::Mhz915, mode, &VOLUME)?;
    damage(&mut sent.chips, arrives);
    let header = read_header(Band::Mhz915, &sent.header)?;
    show_received(rt, header, &sent)
}

// Three flipped chips make a trace that starts at the cheapest state return another volume, and spare the shorter message.
pub fn story(rt: &HostRuntime) -> anyhow::Result<()> {
    println!(rt;
        "Band 915, mode 3, chips 33, 48 and 65 flipped: a trace from the cheapest state, and ours"
    )?;
    compare(rt, &VOLUME)?;
    compare(rt, &NOZZLE)
}

fn compare(rt: &HostRuntime, psdu: &[u8]) -> anyhow::Result<()> {
    let mut sent = send(rt.alloc(), Band::Mhz915, RateMode::Mode3, psdu)?;
    damage(
        &mut sent.chips,
        |place, chip| flipped_if(matches!(place, 33 | 48 | 65), chip),
    );
    let header = read_header(Band::Mhz915, &sent.header)?;
    let mut observed = [Observation::Sure(false); BLOCK_CODE_BITS];
    let first = Observation::Sure(header.last_bit());
    let _ = read_block(&sent.line, false, 0, first, &sent.chips, &mut observed)?;
    let (octets, cost) = careless(&observed);
    let whole = psdu.len().min(octets.len());
    let careless = hex_text(rt.alloc(), &octets[..whole])?;
    let was = hex_text(rt.alloc(), psdu)?;
    println!(rt; "sent {was}; cheapest state: {careless}, cost {cost}")?;
    show_received(rt, header, &sent)
}
