// The panel: reads a fault record, prints it on a page, and gives an account of what was printed, refused and misread.
#![tactic(auto)]

mod account;
mod calls;
mod colour;
mod options;
mod printed;
mod spelling;
#[cfg(test)]
mod tests;
mod written;

use anyhow::anyhow;
use options::Options;
use std::io::Read;
use std::{env, fs};

const HELP: &str = "panel [--page] [--room N] [--marks] [--manual] [--color] [FILE]

Prints the calls of a fault record, from FILE or from standard input, on a page: its lines, and then an account of each call.

  --page     the page's lines alone on standard output; the account goes to standard error
  --room N   a page of N bytes; without this it has room for the whole record
  --marks    the marks of the page: where the spans of opcodes and registers start and end
  --manual   beside each block transfer, and each pop or push of one register, its spelling in the manual
  --color    opcodes and registers in colour
  --help     this text

Lines that cannot be read are told on standard error, and the program then ends with status 1.
";

// The bytes of the record: a failing controller may leave any.
fn record_of(rt: &HostRuntime, options: &Options) -> anyhow::Result<Vec<u8>> {
    match &options.file {
        Some(path) => Ok(fs::read(rt, path.as_str())?),
        None => {
            let mut record = Vec::new(rt.alloc());
            rt.stdin().read_to_end(&mut record)?;
            Ok(record)
        }
    }
}

fn run(rt: &HostRuntime) -> anyhow::Result<()> {
    let options = options::given(env::args(rt)?)?;
    if options.help {
        rt.print(HELP)?;
        return Ok(());
    }
    let record = record_of(rt, &options)?;
    let written = written::of(rt.alloc(), record.as_slice(), &options)?;
    for text in written.output() {
        rt.print(text)?;
    }
    for text in written.messages() {
        rt.eprint(text)?;
    }
    if written.misreadings.count > 0 {
        return Err(anyhow!("a line of the record could not be read"));
    }
    Ok(())
}

fn main(rt: HostRuntime) -> anyhow::Result<()> {
    run(&rt)
}
