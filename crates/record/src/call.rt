// A line of a record: a call of the panel's printer.
ghost use Rattle.misreading.specs.declared.misread.Expected.TheVariants.{Call as ACall};
ghost use Rattle.notation.specs.Parsing.{chosen};
ghost use Rattle.notation.specs.Reads.{Reads};
ghost use Rattle.record.specs.Calls.{starts, call, call_with, whole};

use crate::instruction::read_instruction;
use armv7::{Call, Instruction};
use misreading::{Expected, Given};
use notation::{Cursor, Slip};

// What the first word of a line says of it.
// Kept: names in place of functions in a table, since a name needs no clause of its own, and a function in a table would.
#[derive(Clone, Copy)]
pub enum Start {
    Nothing,
    Gap,
    Print,
}

const STARTS: [(&[u8], Start); 4] = [
    (b"", Start::Nothing),
    (b"#", Start::Nothing),
    (b"gap", Start::Gap),
    (b"Instruction", Start::Print),
];

// The line's call, if it is not blank and no comment.
pub(crate) fn read_call(cursor: &mut Cursor<'_>) -> Result<Option<Call>, Slip>
    ensures { Reads call cursor.old result cursor.new }
{
    let start = read_start(cursor)?;
    started(cursor, start)
}

fn read_start(cursor: &mut Cursor<'_>) -> Result<Start, Slip>
    ensures { Reads (chosen ACall starts) cursor.old result cursor.new }
{
    cursor.choose(&STARTS, Expected::Call)
}

// The call of a line that begins so.
fn started(cursor: &mut Cursor<'_>, start: Start) -> Result<Option<Call>, Slip>
    ensures { Reads (call_with start) cursor.old result cursor.new }
{
    match start {
        Start::Nothing => Ok(None),
        Start::Gap => {
            cursor.expect(&[Given::End])?;
            Ok(Some(Call::Gap))
        }
        Start::Print => {
            let instruction = whole_instruction(cursor)?;
            Ok(Some(Call::Print(instruction)))
        }
    }
}

// An instruction that ends the line.
fn whole_instruction(cursor: &mut Cursor<'_>) -> Result<Instruction, Slip>
    ensures { Reads whole cursor.old result cursor.new }
{
    let instruction = read_instruction(cursor)?;
    cursor.expect(&[Given::End])?;
    Ok(instruction)
}
