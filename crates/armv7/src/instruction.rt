// An instruction.
ghost use Rattle.std.specs.Prelude.{◌≡◌, false};
ghost use Rattle.armv7.specs.declared.condition.ConditionCode.TheVariants.{AL};

use crate::condition::ConditionCode;
use crate::operand::Operand;
use opcode::Opcode;

#[derive(Clone, Copy)]
pub struct Instruction {
    pub condition: ConditionCode,
    pub opcode: Opcode,
    pub operands: [Operand; 4],
    // Does it set the status flags?
    pub s: bool,
    // Is it a Thumb instruction of 32 bits?
    pub wide: bool,
    // And is that shown by `.w`?
    pub thumb_w: bool,
    // Is it a Thumb instruction?
    pub thumb: bool,
}

impl Instruction {
    // Always carried out, and with no flag set.
    pub fn plain(opcode: Opcode, operands: [Operand; 4]) -> Instruction
        ensures value { result ≡ record { condition = AL; opcode = opcode; operands = operands; s = false; wide = false; thumb_w = false; thumb = false } }
    {
        Instruction {
            condition: ConditionCode::AL,
            opcode,
            operands,
            s: false,
            wide: false,
            thumb_w: false,
            thumb: false,
        }
    }
}
