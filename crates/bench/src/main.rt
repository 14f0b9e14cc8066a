// Reads a capture from standard input, and prints the report on it.
#![tactic(auto)]

use captures::report;
use std::io::{Read, Write};

// The octets of the longest capture: three counts of four, two letters, and in the band at 2450 MHz the 11264 chips of a header and 24 blocks of 5632 chips.
const LONGEST_CAPTURE: u64 = 3 * 4 + 2 + 11264 + 24 * 5632;

fn main(rt: HostRuntime) -> anyhow::Result<()> {
    run(&rt)
}

// What follows the longest capture is not read, and would change nothing (verdicts::nothing_is_read_behind).
fn run(rt: &HostRuntime) -> anyhow::Result<()> {
    let heap = rt.alloc();
    let mut capture = Vec::new(heap);
    rt.stdin().take(LONGEST_CAPTURE).read_to_end(&mut capture)?;
    let text = report(heap, &capture)?;
    rt.stdout().write_all(text.as_bytes())?;
    Ok(())
}
