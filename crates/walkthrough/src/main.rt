// Follows messages of a forecourt through the whole chain and prints each step: spread, sent, damaged on the way, received.
#![tactic(auto)]

mod careless;
mod passage;
mod receiving;
mod scenes;
mod sending;
mod shown;
mod text;

fn main(rt: HostRuntime) -> anyhow::Result<()> {
    run(&rt)
}

fn run(rt: &HostRuntime) -> anyhow::Result<()> {
    text::follow_text(rt)?;
    text::zero_groups(rt)?;
    text::refusals(rt)?;
    scenes::every_mode(rt)?;
    scenes::header_refusals(rt)?;
    scenes::damaged(rt)?;
    scenes::story(rt)
}
