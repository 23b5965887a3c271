// Holds the printer against stored answers of the original: each is equal, or differs as is listed.
#![tactic(auto)]

mod cases;
mod difference;
mod edits;
mod family;
mod judge;
mod line;
mod numbers;
mod repair;
mod tally;

use anyhow::anyhow;
use std::io;

fn run(rt: &HostRuntime) -> anyhow::Result<()> {
    let stored = io::read_to_string(rt.alloc(), rt.stdin())?;
    let tally = tally::of(rt.alloc(), stored.as_str())?;
    rt.print(tally.puzzles.as_str())?;
    rt.print(&tally)?;
    if tally.unexplained > 0 {
        return Err(anyhow!("an answer of the original is not explained"));
    }
    Ok(())
}

fn main(rt: HostRuntime) -> anyhow::Result<()> {
    run(&rt)
}
