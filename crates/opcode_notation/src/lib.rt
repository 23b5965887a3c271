// The notation of opcodes.
#![tactic(auto)]

mod form;
mod read;
mod words;

pub use read::read_opcode;
