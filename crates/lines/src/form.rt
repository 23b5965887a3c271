// What the line of an instruction shows, besides its name and its suffixes.
ghost use Rattle.std.specs.Prelude.{◌≤◌, All, length};
ghost use Rattle.lines.specs.Admission.{HasText};

use crate::alias::StackForm;
use armv7::{ConditionCode, Operand, Reg};
use kind::Codes;

// At most four operands, each of which has a text.
#[derive(Clone, Copy)]
pub struct Reached<'a> {
    pub operands: &'a [Operand],
    ghost few: { length operands.now ≤ 4 },
    ghost clean: { All HasText operands.now },
}

// A block transfer: its base, whether that is written back, the registers by the bits 0 to 15, and whether they are those of user
// mode.
#[derive(Clone, Copy)]
pub struct Block {
    pub base: Reg,
    pub wback: bool,
    pub mask: u16,
    pub user: bool,
}

// The condition of an IT block, and the mask that says of which instructions it is that, and of which the opposite.
#[derive(Clone, Copy)]
pub struct ItBlock {
    pub condition: ConditionCode,
    pub mask: u32,
}

#[derive(Clone, Copy)]
pub enum Form<'a> {
    Plain(Reached<'a>),
    // The operands stand between the codes.
    Coprocessor(Codes, Reached<'a>),
    // A block transfer under its own name: base and list.
    Block(Block),
    // A pop or a push: its list, or its register alone.
    Stack(StackForm),
    It(ItBlock),
    Cps { flags: u16, mode: Option<u16> },
    Setend { number: u16 },
}
