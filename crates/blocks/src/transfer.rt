// The sheet of an instruction.
ghost use Rattle.std.specs.Prelude.{◌≡◌};
ghost use Rattle.blocks.specs.Sheets.{mask_of, stack_sheet, own_sheet as sheet_under_own_name, sheet_of, FitsOnly};

use crate::fields::Sheet;
use armv7::{Instruction, Opcode, Operand, Reg};
use lines::{Stacked, stack_form};

// The registers that a pop or a push moves.
fn mask(moved: Stacked) -> u16
    ensures mask { result ≡ mask_of moved }
{
    match moved {
        Stacked::List(mask) => mask,
        Stacked::One(reg) => 1 << reg.number(),
    }
}

// A load from sp on, or a store below it, that changes sp.
fn stack(load: bool, mask: u16, instruction: &Instruction) -> Sheet
    ensures sheet { result ≡ stack_sheet load mask instruction.now }
{
    Sheet {
        load,
        add: load,
        pre: !load,
        base: Reg::R13,
        wback: true,
        mask,
        condition: instruction.condition,
        s: instruction.s,
        w: instruction.thumb_w,
        user: false,
    }
}

// A block transfer, or a pop or a push by its own opcode: only a list.
fn own_sheet(instruction: &Instruction) -> Option<Sheet>
    ensures sheet { result ≡ sheet_under_own_name instruction.now.opcode instruction.now }
{
    let first = instruction.operands[0];
    let second = instruction.operands[1];
    match (instruction.opcode, first, second) {
        (Opcode::LDM(add, pre, _, user), Operand::RegWBack(base, wback), Operand::RegList(mask)) =>
            Some(Sheet {
                add,
                pre,
                base,
                wback,
                user,
                ..stack(true, mask, instruction)
            }),
        (Opcode::STM(add, pre, _, user), Operand::RegWBack(base, wback), Operand::RegList(mask)) =>
            Some(Sheet {
                add,
                pre,
                base,
                wback,
                user,
                ..stack(false, mask, instruction)
            }),
        (Opcode::POP, Operand::RegList(mask), Operand::Nothing) => {
            Some(stack(true, mask, instruction))
        }
        (Opcode::PUSH, Operand::RegList(mask), Operand::Nothing) => {
            Some(stack(false, mask, instruction))
        }
        _ => None,
    }
}

// The sheet of a block transfer, or of a transfer on the stack.
#[tactic(auto, unfolding(crate::specs::Sheets::sheet_of))]
pub fn sheet(instruction: &Instruction) -> Option<Sheet>
    ensures own { result ≡ sheet_of instruction.now }
    ensures fits { FitsOnly instruction.now result }
{
    match stack_form(instruction) {
        Some(form) => Some(stack(form.load, mask(form.moved), instruction)),
        None => own_sheet(instruction),
    }
}
