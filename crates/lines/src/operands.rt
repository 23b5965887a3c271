// The operands of an instruction, and which of them have no text.
ghost use Rattle.std.specs.Prelude.{◌≡◌, IfOk};
ghost use Rattle.armv7.specs.Faults.{place_index};
ghost use Rattle.sink.specs.Outcome.{outcome};
ghost use Rattle.visitor.specs.Operands.{operand_refused};
ghost use Rattle.lines.specs.Admission.{reached_refused};
ghost use Rattle.lines.specs.Operands.{all_of, missing, reached, two_only};

use crate::form::Reached;
use armv7::{Fault, Instruction, Operand, Place};
use visitor::admit_distance;

// Is the operand missing?
#[inline(always)]
pub fn is_nothing(operand: Operand) -> bool
    ensures value { result ≡ missing operand }
{
    matches!(operand, Operand::Nothing)
}

// Are the operands behind the first two missing?
#[inline(always)]
pub(crate) fn has_two_only(instruction: &Instruction) -> bool
    ensures value { result ≡ two_only instruction.now }
{
    is_nothing(instruction.operands[2]) && is_nothing(instruction.operands[3])
}

// What an operand by itself is refused for.
#[inline(always)]
pub(crate) fn admit_operand(operand: Operand, place: Place) -> Result<(), Fault>
    ensures refusal { outcome result ≡ operand_refused (place_index place) operand }
{
    match operand {
        Operand::Coprocessor(_) | Operand::Nothing => Err(Fault::DeadOperand(place)),
        Operand::RegDerefPostindexRegShift(_, _, _, true) => Err(Fault::WriteBack(place)),
        Operand::BranchOffset(distance) => admit_distance(distance, 4, place),
        Operand::BranchThumbOffset(distance) => admit_distance(distance, 2, place),
        _ => Ok(()),
    }
}

// The operands before the first Nothing.
#[inline(always)]
pub(crate) fn admit_reached(operands: &[Operand; 4]) -> Result<Reached<'_>, Fault>
    ensures refusal { outcome result ≡ reached_refused 0 (all_of operands.now) }
    ensures value { IfOk result (λ r. r.operands.now ≡ reached (all_of operands.now)) }
{
    for index in 0..4 {
        let operand = operands[index];
        if is_nothing(operand) {
            return Ok(Reached {
                operands: &operands[0..index],
            });
        }
        admit_operand(operand, Place::ALL[index])?;
    }
    Ok(Reached { operands })
}
