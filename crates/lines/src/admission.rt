// Which instructions are printed, and what their lines show: the checks, in their order.
ghost use Rattle.std.specs.Prelude.{◌≡◌, [], ◌∷◌, IfOk};
ghost use Rattle.sink.specs.Outcome.{outcome};
ghost use Rattle.kind.specs.declared.Kind.TheVariants.{Block as BlockKind, It, Cps, Setend, Coprocessor, Plain};
ghost use Rattle.lines.specs.Admission.{reached_refused, refused};
ghost use Rattle.lines.specs.Forms.{parts_of, moved_in, AdmittedAs};
ghost use Rattle.lines.specs.Lines.{mode_of, parts};
ghost use Rattle.lines.specs.Moved.{moved};

use crate::alias::stack_form;
use crate::coprocessor::admit_codes;
use crate::form::{Block, Form, ItBlock};
use crate::operands::{admit_operand, admit_reached, has_two_only};
use armv7::{ConditionCode, Fault, Instruction, Operand, Place};
use kind::{Codes, Kind, kind_by};

#[inline(always)]
fn admit_plain(instruction: &Instruction) -> Result<Form<'_>, Fault>
    ensures admitted { AdmittedAs Plain instruction.now result }
{
    Ok(Form::Plain(admit_reached(&instruction.operands)?))
}

#[inline(never)]
fn admit_coprocessor(codes: Codes, instruction: &Instruction) -> Result<Form<'_>, Fault>
    ensures admitted { AdmittedAs (Coprocessor codes) instruction.now result }
{
    admit_codes(codes)?;
    Ok(Form::Coprocessor(codes, admit_reached(&instruction.operands)?))
}

#[inline(never)]
fn admit_block(user: bool, instruction: &Instruction) -> Result<Form<'_>, Fault>
    ensures admitted { AdmittedAs (BlockKind user) instruction.now result }
{
    let first = instruction.operands[0];
    let second = instruction.operands[1];
    match (first, second) {
        (Operand::RegWBack(base, wback), Operand::RegList(mask)) if has_two_only(instruction) => {
            Ok(Form::Block(Block {
                base,
                wback,
                mask,
                user,
            }))
        }
        _ => Err(Fault::Shape),
    }
}

#[inline(never)]
fn admit_it(instruction: &Instruction) -> Result<Form<'_>, Fault>
    ensures admitted { AdmittedAs It instruction.now result }
{
    let first = instruction.operands[0];
    let second = instruction.operands[1];
    let Operand::Imm32(condition) = first else {
        return Err(Fault::Shape);
    };
    let Operand::Imm32(mask) = second else {
        return Err(Fault::Shape);
    };
    let condition = ConditionCode::ALL
        .get(condition as usize)
        .copied()
        .ok_or(Fault::Field(Place::First))?;
    if mask > 15 {
        return Err(Fault::Field(Place::Second));
    }
    Ok(Form::It(ItBlock { condition, mask }))
}

// The mode that a CPS changes to, if it has one.
#[inline(always)]
fn admit_mode(operand: Operand) -> Result<Option<u16>, Fault>
    ensures refusal { outcome result ≡ reached_refused 1 (operand ∷ []) }
    ensures value { IfOk result (λ m. m ≡ mode_of operand) }
{
    match operand {
        Operand::Imm12(mode) => Ok(Some(mode)),
        Operand::Nothing => Ok(None),
        _ => {
            admit_operand(operand, Place::Second)?;
            Ok(None)
        }
    }
}

#[inline(never)]
fn admit_cps(instruction: &Instruction) -> Result<Form<'_>, Fault>
    ensures admitted { AdmittedAs Cps instruction.now result }
{
    let Operand::Imm12(flags) = instruction.operands[0] else {
        return Err(Fault::Shape);
    };
    if flags > 7 {
        return Err(Fault::Field(Place::First));
    }
    let mode = admit_mode(instruction.operands[1])?;
    Ok(Form::Cps { flags, mode })
}

#[inline(never)]
fn admit_setend(instruction: &Instruction) -> Result<Form<'_>, Fault>
    ensures admitted { AdmittedAs Setend instruction.now result }
{
    match instruction.operands[0] {
        Operand::Imm12(number) => Ok(Form::Setend { number }),
        _ => Err(Fault::Shape),
    }
}

// What the line of the instruction shows, or why it has none.
#[tactic(auto, unfolding(crate::specs::Admission::refused))]
#[inline(always)]
pub fn admit(instruction: &Instruction) -> Result<Form<'_>, Fault>
    ensures refusal { outcome result ≡ refused instruction.now }
    ensures shown { IfOk result (λ f. parts_of f instruction.now ≡ parts instruction.now) }
    ensures moves { IfOk result (λ f. moved_in f ≡ moved instruction.now) }
{
    if let Some(form) = stack_form(instruction) {
        return if has_two_only(instruction) {
            Ok(Form::Stack(form))
        } else {
            Err(Fault::Shape)
        };
    }
    match kind_by(instruction.opcode) {
        Kind::Block { user } => admit_block(user, instruction),
        Kind::It => admit_it(instruction),
        Kind::Cps => admit_cps(instruction),
        Kind::Setend => admit_setend(instruction),
        Kind::Coprocessor(codes) => admit_coprocessor(codes, instruction),
        Kind::Plain => admit_plain(instruction),
    }
}
