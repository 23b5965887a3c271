// Prints the instructions of a record over and over, so that it can be measured what a line costs.
#![tactic(auto)]

mod instructions;
mod options;
mod printing;
#[cfg(test)]
mod tests;

use printing::print_all;
use std::env;
use std::io::Read;

fn run(rt: &HostRuntime) -> anyhow::Result<()> {
    let heap = rt.alloc();
    let options = options::given(env::args(rt)?)?;
    let mut record = Vec::new(heap);
    rt.stdin().read_to_end(&mut record)?;
    let instructions = instructions::of(heap, record.as_slice())?;
    let number = instructions.len();
    let rounds = options.rounds;
    let bytes = print_all(heap, instructions.as_slice(), options)?;
    println!(rt; "{number} instructions, {rounds} rounds: {bytes} bytes")?;
    Ok(())
}

fn main(rt: HostRuntime) -> anyhow::Result<()> {
    run(&rt)
}
