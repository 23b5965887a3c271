// The instruction with all that is out of range put where the original, which does not test it, takes it to be.
use crate::difference::{Difference, Seen};
use crate::family::with_small_codes;
use crate::numbers::branch_in;
use armv7::{Instruction, Operand};
use kind::{Codes, Kind, kind_by};
use lines::is_nothing;

// Whether the scale takes the distance of a branch out of 32 bits.
fn is_too_far(operand: Operand) -> bool {
    branch_in(operand).is_some_and(|(distance, scale)| distance.checked_mul(scale).is_none())
}

// A branch with no distance.
fn near(operand: Operand) -> Operand {
    match operand {
        Operand::BranchOffset(_) => Operand::BranchOffset(0),
        Operand::BranchThumbOffset(_) => Operand::BranchThumbOffset(0),
        _ => operand,
    }
}

// Whether the original stops at the operand.
fn stops(operand: Operand) -> bool {
    matches!(
        operand,
        Operand::Coprocessor(_) | Operand::RegDerefPostindexRegShift(_, _, _, true)
    )
}

// The operands that the original comes to, with branches that do not go too far.
fn near_operands(operands: [Operand; 4], seen: &mut Seen) -> [Operand; 4] {
    let mut all = operands;
    let reached = all
        .iter_mut()
        .take_while(|operand| !is_nothing(**operand) && !stops(**operand));
    for operand in reached {
        if is_too_far(*operand) {
            seen.add(Difference::Distance);
            *operand = near(*operand);
        }
    }
    all
}

// Whether a code is above 15.
fn has_large_code(codes: Codes) -> bool {
    let all = [Some(codes.coprocessor), codes.second, codes.third];
    all.iter().flatten().any(|code| *code > 15)
}

// Of an IT condition the original takes the low byte, and of a mask four bits.
fn it_operands(operands: [Operand; 4], seen: &mut Seen) -> [Operand; 4] {
    let (Operand::Imm32(condition), Operand::Imm32(mask)) = (operands[0], operands[1]) else {
        return operands;
    };
    if condition > 255 && condition % 256 < 15 {
        seen.add(Difference::ItConditionCut);
    }
    if mask > 15 {
        seen.add(Difference::ItMask);
    }
    [
        Operand::Imm32(condition % 256),
        Operand::Imm32(mask % 16),
        operands[2],
        operands[3],
    ]
}

// Of CPS flags the original shows three, and of a second operand only a mode.
fn cps_operands(operands: [Operand; 4], seen: &mut Seen) -> [Operand; 4] {
    let Operand::Imm12(flags) = operands[0] else {
        return operands;
    };
    let second = operands[1];
    if flags > 7 {
        seen.add(Difference::CpsFlags);
    }
    if !stops(second) && !is_too_far(second) {
        return [Operand::Imm12(flags % 8), second, operands[2], operands[3]];
    }
    seen.add(Difference::CpsUnshown);
    [
        Operand::Imm12(flags % 8),
        Operand::Nothing,
        operands[2],
        operands[3],
    ]
}

pub(crate) fn repaired(asked: &Instruction, seen: &mut Seen) -> Instruction {
    let mut taken = *asked;
    match kind_by(asked.opcode) {
        Kind::It => taken.operands = it_operands(asked.operands, seen),
        Kind::Cps => taken.operands = cps_operands(asked.operands, seen),
        Kind::Block { .. } | Kind::Setend => {}
        Kind::Coprocessor(codes) => {
            if has_large_code(codes) {
                seen.add(Difference::Code);
            }
            taken.opcode = with_small_codes(asked.opcode);
            taken.operands = near_operands(asked.operands, seen);
        }
        _ => taken.operands = near_operands(asked.operands, seen),
    }
    taken
}
