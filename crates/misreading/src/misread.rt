// What cannot be read, and what was to stand there.
use crate::given::Given;
use armv7::Fault;

// What was to stand there.
#[derive(Clone, Copy)]
pub enum Expected {
    Call,
    Given(Given),
    Condition,
    Opcode,
    Operand,
    Bank,
    Mask,
    Flag,
    // Numbers of 8, 16 and 32 bits.
    Code,
    Halfword,
    Word,
    Distance,
    Register,
    Control,
    ShiftWord,
}

// A line that cannot be read: where, what was expected, and what was found; nothing is found at the end of the line.
#[derive(Clone, Copy)]
pub struct Misread<'a> {
    // In bytes, from 1.
    pub column: usize,
    pub expected: Expected,
    pub found: &'a [u8],
    // Why a number that was read is none of a register or of a shift.
    pub refusal: Option<Fault>,
}
