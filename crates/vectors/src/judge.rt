// Judges a case: the printer's answer against the original's.
use crate::difference::{Difference, Seen};
use crate::line::{Draft, Line, Stored};
use crate::repair::repaired;
use armv7::{Fault, Instruction, Operand, Place};
use display::visit_inst;
use kind::{Kind, kind_by};
use sink::{Mark, MarkSink};
use std::alloc::{AllocError, Global};

// The original panicked.
#[derive(Clone, Copy)]
pub struct Panicked;

// What the original answered.
pub type Answer<'a> = Result<Stored<'a>, Panicked>;

#[derive(Clone, Copy)]
pub enum Verdict {
    Equal,
    Listed(Seen),
    Stopped(Seen),
    Unexplained,
}

// The longest line has 285 bytes and 130 marks.
const BYTES: usize = 512;

const MARKS: usize = 256;

fn print(heap: Global, instruction: &Instruction) -> Result<Result<Line, Fault>, AllocError> {
    let mut memory = [0u8; BYTES];
    let mut row = [Mark::BLANK; MARKS];
    let mut out = MarkSink::new(&mut memory, &mut row);
    if let Err(fault) = visit_inst(instruction, &mut out) {
        return Ok(Err(fault));
    }
    let text = Vec::from_slice(heap, out.text())?;
    let marks = Vec::from_slice(heap, out.marks())?;
    Ok(Ok(Line { text, marks }))
}

// The panic that the refusal stands for.
fn stop(fault: Fault, instruction: &Instruction) -> Option<Difference> {
    let operand = |place: Place| instruction.operands[usize::from(place.index())];
    match (fault, kind_by(instruction.opcode)) {
        (Fault::Shape, Kind::Block { .. }) => Some(Difference::BlockShape),
        (Fault::Shape, Kind::It) => Some(Difference::ItShape),
        (Fault::Shape, Kind::Cps | Kind::Setend) => Some(Difference::ModeShape),
        (Fault::Field(Place::First), Kind::It) => Some(Difference::ItCondition),
        (Fault::DeadOperand(place), _) => match operand(place) {
            Operand::Coprocessor(_) => Some(Difference::Coprocessor),
            _ => None,
        },
        (Fault::WriteBack(place), _) => match operand(place) {
            Operand::RegDerefPostindexRegShift(_, _, _, true) => Some(Difference::WriteBack),
            _ => None,
        },
        _ => None,
    }
}

// `draft` is the printer's line, with what was put right for it.
fn judge_line(
    mut draft: Draft,
    asked: &Instruction,
    answer: Answer<'_>,
) -> Result<Verdict, AllocError> {
    let Ok(stored) = answer else {
        return Ok(Verdict::Unexplained);
    };
    draft.as_written(asked)?;
    if !draft.is_stored(stored)? {
        return Ok(Verdict::Unexplained);
    }
    if draft.seen.is_empty() {
        return Ok(Verdict::Equal);
    }
    Ok(Verdict::Listed(draft.seen))
}

fn judge_refusal(fault: Fault, taken: &Instruction, answer: Answer<'_>, mut seen: Seen) -> Verdict {
    match (answer, stop(fault, taken)) {
        (Err(Panicked), Some(difference)) => {
            seen.add(difference);
            Verdict::Stopped(seen)
        }
        _ => Verdict::Unexplained,
    }
}

fn is_refused_so(heap: Global, asked: &Instruction, seen: &Seen) -> Result<bool, AllocError> {
    Ok(print(heap, asked)?.is_err_and(|fault| seen.refuse(fault)))
}

// `read` has what was put right already while the case was read.
pub(crate) fn judge(
    heap: Global,
    asked: &Instruction,
    answer: Answer<'_>,
    read: Seen,
) -> Result<Verdict, AllocError> {
    let mut seen = Seen::nothing();
    let taken = repaired(asked, &mut seen);

    // What was repaired is refused as one of the differences that were seen is; what was not is judged as it is.
    if !seen.is_empty() && !is_refused_so(heap, asked, &seen)? {
        return Ok(Verdict::Unexplained);
    }
    let seen = seen.joined(read);
    match print(heap, &taken)? {
        Ok(line) => judge_line(Draft { heap, line, seen }, asked, answer),
        Err(fault) => Ok(judge_refusal(fault, &taken, answer, seen)),
    }
}
