// The four forms that are printed under another name.
ghost use Rattle.std.specs.Prelude.{◌≡◌, Bool, None};
ghost use Rattle.std.specs.Bool.{OnFalse};
ghost use Rattle.armv7.specs.declared.operand.Operand.{Operand};
ghost use Rattle.lines.specs.Lines.{stack_name};
ghost use Rattle.lines.specs.Moved.{on_stack, stack_by, pop as pop_of, push as push_of};

use crate::operands::has_two_only;
use armv7::{Instruction, Opcode, Operand, Reg};

// What a pop or a push moves: a list of registers, by the bits 0 to 15, or one register.
#[derive(Clone, Copy)]
pub enum Stacked {
    List(u16),
    One(Reg),
}

// A pop, which loads, or a push.
#[derive(Clone, Copy)]
pub struct StackForm {
    pub load: bool,
    pub moved: Stacked,
}

#[inline(always)]
fn pop(moved: Stacked) -> StackForm
    ensures form { result ≡ pop_of moved }
{
    StackForm { load: true, moved }
}

#[inline(always)]
fn push(moved: Stacked) -> StackForm
    ensures form { result ≡ push_of moved }
{
    StackForm { load: false, moved }
}

// Is it an opcode that is a pop or a push, with some operands?
// Kept: asked first, so that the operands of other opcodes are not looked at: without, a line takes 12 instructions more, and misses
// its bar (docs/SPEED.md).
#[inline(always)]
fn may_stack(opcode: Opcode) -> bool
    ensures others { OnFalse result ((first second : Operand) (only : Bool) → stack_by opcode first second only ≡ None) }
{
    matches!(
        opcode,
        Opcode::LDM(_, _, _, _) | Opcode::STM(_, _, _, _) | Opcode::LDR | Opcode::STR
    )
}

// The form under another name that an instruction is, if it is one.
// Kept: one match on the opcode with its flags and on operand cases, with guards, by a rule of the project (docs/DECISIONS.md).
#[inline(always)]
pub fn stack_form(instruction: &Instruction) -> Option<StackForm>
    ensures form { result ≡ on_stack instruction.now }
{
    if !may_stack(instruction.opcode) {
        return None;
    }
    let first = instruction.operands[0];
    let second = instruction.operands[1];
    match (instruction.opcode, first, second) {
        (
            Opcode::LDM(true, false, false, false),
            Operand::RegWBack(base, wback),
            Operand::RegList(mask),
        ) if base == Reg::R13 && wback => Some(pop(Stacked::List(mask))),
        (
            Opcode::STM(false, true, false, false),
            Operand::RegWBack(base, wback),
            Operand::RegList(mask),
        ) if base == Reg::R13 && wback => Some(push(Stacked::List(mask))),
        (
            Opcode::LDR,
            Operand::Reg(target),
            Operand::RegDerefPostindexOffset(base, offset, add, wback),
        ) if base == Reg::R13 && offset == 4 && add && !wback && has_two_only(instruction) => {
            Some(pop(Stacked::One(target)))
        }
        (
            Opcode::STR,
            Operand::Reg(target),
            Operand::RegDerefPreindexOffset(base, offset, add, wback),
        ) if base == Reg::R13 && offset == 4 && !add && wback && has_two_only(instruction) => {
            Some(push(Stacked::One(target)))
        }
        _ => None,
    }
}

// What a pop or a push is called.
pub fn stack_word(load: bool) -> &'static [u8]
    ensures name { result.now ≡ stack_name load }
{
    if load { b"pop" } else { b"push" }
}
