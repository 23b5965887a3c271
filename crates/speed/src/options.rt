// What the program was asked for.
use anyhow::anyhow;
use std::env::Args;

const USAGE: &str = "usage: speed sink|buffer|page|none ROUNDS, with a record on standard input";

// What the instructions are printed to.
#[derive(Clone, Copy, PartialEq, Eq)]
pub enum Way {
    // A new sink on the same memory for each instruction.
    Sink,
    // One text buffer.
    Buffer,
    // One page with room for all rounds.
    Page,
    // The same page, which stays empty: what a page takes beside its lines.
    None,
}

#[derive(Clone, Copy)]
pub struct Options {
    pub way: Way,
    // How often each instruction is printed.
    pub rounds: usize,
}

fn way_of(word: &str) -> anyhow::Result<Way> {
    match word {
        "sink" => Ok(Way::Sink),
        "buffer" => Ok(Way::Buffer),
        "page" => Ok(Way::Page),
        "none" => Ok(Way::None),
        _ => Err(anyhow!("{word} is no way to print; {USAGE}")),
    }
}

fn rounds_of(word: &str) -> anyhow::Result<usize> {
    word.parse()
        .map_err(|_| anyhow!("{word} is no number of rounds; {USAGE}"))
}

// What the words ask for, of which the first is the program's name.
pub(crate) fn given(words: Args) -> anyhow::Result<Options> {
    let mut words = words.skip(1);
    let (Some(way), Some(rounds), None) = (words.next(), words.next(), words.next()) else {
        return Err(anyhow!("{USAGE}"));
    };
    Ok(Options {
        way: way_of(way.as_str())?,
        rounds: rounds_of(rounds.as_str())?,
    })
}
