// Prints the report on each capture that an argument names.
#![tactic(auto)]

use captures::report;
use std::{env, fs};

fn main(rt: HostRuntime) -> anyhow::Result<()> {
    run(&rt)
}

fn run(rt: &HostRuntime) -> anyhow::Result<()> {
    let heap = rt.alloc();
    for name in env::args(rt)?.skip(1) {
        let capture = fs::read(rt, name.as_str())?;
        let text = report(heap, &capture)?;
        print!(rt; "{name}\n{text}")?;
    }
    Ok(())
}
