// The printer: how the line of an instruction is written to a sink.
#![tactic(auto)]

ghost use Rattle.display.specs.Worked.{WorkedLines};

mod inst;
mod operands;
pub mod rows;
mod system;
pub mod word;

pub use inst::{visit_inst, write_line};

// The worked lines hold of the definitions.
pub fn worked_lines_hold()
    ensures worked_lines { WorkedLines }
{}
