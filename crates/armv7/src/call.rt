// What a printer is called for: the line of an instruction, or an empty line.
use crate::instruction::Instruction;

// Kept: two calls by name, where an Option of an instruction would not say that nothing is a gap.
#[derive(Clone, Copy)]
pub enum Call {
    Print(Instruction),
    Gap,
}
