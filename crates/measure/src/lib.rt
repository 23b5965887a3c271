// How many bytes the line of an instruction has, added up from the sizes of its parts: nothing is written.
#![tactic(auto)]

mod line;
mod rows;
mod word;

pub use line::measure;
