// The printer for programs in C: functions on numbers and on lent bytes.
#![tactic(auto)]

ghost use Rattle.std.specs.Prelude.{◌≡◌, length, Some, None, IfOk, IfErr};
ghost use Rattle.sink.specs.Outcome.{outcome};
ghost use Rattle.ffi.specs.Lines.{ColumnOf, asked, numbered, over, TellsRefusal, TellsText, HoldsText};
ghost use Rattle.ffi.specs.Marks.{code_of_edge, code_of_span, mark_code, numbers_in, numbers_shown};

use armv7::{Call, Fault, Instruction};
use display::visit_inst;
use record::read_line;
use sink::{Edge, Mark, MarkSink, Span, TextSink};

// What came of a call.
// Kept: numbers, since a program in C reads them.
#[repr(C)]
#[derive(Clone, Copy)]
pub struct Answer {
    // How many bytes of text stand in the lent memory.
    pub length: usize,
    // How many marks stand in the lent row.
    pub marks: usize,
    // The column, from 1, of what cannot be read in the line; 0 if it was read.
    pub column: usize,
    // The number of a refusal, 0 if there is none.
    pub number: u8,
    // The place of the operand that the refusal is about.
    pub place: u8,
}

const NOTHING: Answer = Answer {
    length: 0,
    marks: 0,
    column: 0,
    number: 0,
    place: 4,
};

// The answer to an instruction that was printed.
fn answered(answer: Result<(), Fault>, length: usize, marks: usize) -> Answer
    ensures size { result.length ≡ length }
    ensures refusal { TellsRefusal (numbered (outcome answer)) result }
    ensures others { (result.marks ≡ marks) × (result.column ≡ 0) }
{
    let printed = Answer {
        length,
        marks,
        ..NOTHING
    };
    match answer {
        Ok(()) => printed,
        Err(fault) => Answer {
            number: fault.number(),
            place: fault.place(),
            ..printed
        },
    }
}

// The instruction that a line asks to print, or the answer to a line that asks for none.
fn instruction_on(line: &[u8]) -> Result<Instruction, Answer>
    ensures instruction { IfOk result (λ i. (asked line.now ≡ Some i) × ColumnOf line.now 0) }
    ensures answer { IfErr result (λ a. (asked line.now ≡ None) × ColumnOf line.now a.column × TellsText 0 None a × (a.marks ≡ 0)) }
{
    match read_line(line) {
        Ok(Some(Call::Print(instruction))) => Ok(instruction),
        Ok(_) => Err(NOTHING),
        Err(misread) => Err(Answer {
            column: misread.column,
            ..NOTHING
        }),
    }
}

// Prints the instruction to the lent bytes.
fn print_text(instruction: &Instruction, out: &mut [u8]) -> Answer
    ensures text { TellsText (length out.old) (Some instruction.now) result }
    ensures others { (result.marks ≡ 0) × (result.column ≡ 0) }
    ensures memory { HoldsText (Some instruction.now) out.old out.new }
{
    let mut sink = TextSink::new(out);
    let answer = visit_inst(instruction, &mut sink);
    let length = sink.end();
    answered(answer, length, 0)
}

#[unsafe(no_mangle)]
pub extern "C" fn dithwellor_read(line: &[u8]) -> usize
    ensures column { ColumnOf line.now result }
{
    read_line(line).map_or_else(|misread| misread.column, |_| 0)
}

#[unsafe(no_mangle)]
pub extern "C" fn dithwellor_print(line: &[u8], out: &mut [u8], answer: &mut Answer)
    ensures column { ColumnOf line.now answer.new.column }
    ensures text { TellsText (length out.old) (asked line.now) answer.new }
    ensures no_marks { answer.new.marks ≡ 0 }
    ensures memory { HoldsText (asked line.now) out.old out.new }
{
    *answer = match instruction_on(line) {
        Ok(instruction) => print_text(&instruction, out),
        Err(unprinted) => unprinted,
    };
}

// A line has at most 130 marks.
const MARKS: usize = 130;

// Kept: numbers for the kinds, since a program in C takes a mark as one number.
fn edge_code(edge: Edge) -> u64
    ensures { result ≡ code_of_edge edge }
{
    match edge {
        Edge::Start => 0,
        Edge::End => 2,
    }
}

fn span_code(span: Span) -> u64
    ensures { result ≡ code_of_span span }
{
    match span {
        Span::Opcode => 0,
        Span::Register => 1,
    }
}

// A mark as a number: four times its place, 2 more for an end and 1 more for a register.
fn mark_number(mark: Mark) -> u64
    ensures { result ≡ mark_code mark }
{
    let place = (mark.at as u64).saturating_mul(4);
    let edge = place.saturating_add(edge_code(mark.edge));
    edge.saturating_add(span_code(mark.span))
}

// Fills the row with the numbers of the marks, as many as there are places, and answers how many that is.
fn number_marks(marks: &[Mark], row: &mut [u64]) -> usize
    ensures value { result ≡ length (numbers_in (length row.old) marks.now) }
    ensures row { row.new ≡ over (numbers_in (length row.old) marks.now) row.old }
{
    let most = marks.len().min(row.len());
    // Kept: written by place, since nothing is known of what a loop over a zip with `iter_mut` wrote.
    for (place, mark) in marks[..most].iter().enumerate() {
        row[place] = mark_number(*mark);
    }
    most
}

// Prints the instruction to the lent bytes, and its marks to the lent row.
fn print_marks(instruction: &Instruction, out: &mut [u8], row: &mut [u64]) -> Answer
    ensures text { TellsText (length out.old) (Some instruction.now) result }
    ensures column { result.column ≡ 0 }
    ensures marks { result.marks ≡ length (numbers_shown (length row.old) (length out.old) (Some instruction.now)) }
    ensures memory { HoldsText (Some instruction.now) out.old out.new }
    ensures row { row.new ≡ over (numbers_shown (length row.old) (length out.old) (Some instruction.now)) row.old }
{
    let mut marks = [Mark::BLANK; MARKS];
    let mut sink = MarkSink::new(out, &mut marks);
    let answer = visit_inst(instruction, &mut sink);
    let written = number_marks(sink.marks(), row);
    let (length, _) = sink.end();
    answered(answer, length, written)
}

#[unsafe(no_mangle)]
pub extern "C" fn dithwellor_print_marked(
    line: &[u8],
    out: &mut [u8],
    row: &mut [u64],
    answer: &mut Answer,
)
    ensures column { ColumnOf line.now answer.new.column }
    ensures text { TellsText (length out.old) (asked line.now) answer.new }
    ensures marks { answer.new.marks ≡ length (numbers_shown (length row.old) (length out.old) (asked line.now)) }
    ensures memory { HoldsText (asked line.now) out.old out.new }
    ensures row { row.new ≡ over (numbers_shown (length row.old) (length out.old) (asked line.now)) row.old }
{
    *answer = match instruction_on(line) {
        Ok(instruction) => print_marks(&instruction, out, row),
        Err(unprinted) => unprinted,
    };
}
