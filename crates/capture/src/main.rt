// Makes a capture of a frame and writes it to standard output, with chips of the PSDU flipped if wanted.
#![tactic(auto)]

mod damage;
mod making;
mod words;

use anyhow::anyhow;
use damage::{flip_by_rate, flip_places};
use making::{chips_of, write_capture};
use std::env;
use std::io::Write;
use std::process::ExitCode;
use words::{number_of, octets_of, order_of};

const USAGE: &str =
    "usage: capture BAND MODE COST PSDU [flip PLACE.. | rate THOUSANDTHS START], as: capture 915 3 p deadbeef flip 5 90";

// Wrong arguments get one line on standard error.
fn main(rt: HostRuntime) -> ExitCode {
    match run(&rt) {
        Ok(()) => ExitCode::SUCCESS,
        Err(error) => {
            let _ = eprintln!(rt; "capture: {error}");
            ExitCode::FAILURE
        }
    }
}

// The four words that every capture needs, and then how its chips are damaged.
fn run(rt: &HostRuntime) -> anyhow::Result<()> {
    let heap = rt.alloc();
    let given: Vec<String> = env::args(rt)?.skip(1).collect(heap)?;
    let [band, mode, cost, psdu, damage @ ..] = given.as_slice() else {
        return Err(anyhow!(USAGE));
    };
    let order = order_of(band.as_str(), mode.as_str(), cost.as_str())?;
    let psdu = octets_of(heap, psdu.as_str())?;
    let mut frame = chips_of(heap, &order, &psdu)?;
    match damage {
        [] => {}
        [how, places @ ..] if how.as_str() == "flip" => {
            flip_places(&mut frame.psdu, places)?;
        }
        [how, rate, start] if how.as_str() == "rate" => {
            let rate = number_of(rate.as_str())?;
            flip_by_rate(&mut frame.psdu, rate, number_of(start.as_str())?);
        }
        _ => return Err(anyhow!(USAGE)),
    }
    let capture = write_capture(heap, &order, &frame)?;
    rt.stdout().write_all(&capture)?;
    Ok(())
}
