// Reads a fault record: a text whose lines are instructions to be printed, in the notation of Rust's `{:?}`, and gaps.
#![tactic(auto)]

mod call;
mod instruction;
mod read;

pub use misreading::{Expected, Given, Message, Misread};
pub use read::read_line;
