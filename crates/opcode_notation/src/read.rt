// Opcodes.
ghost use Rattle.notation.specs.Parsing.{bracketed, via};
ghost use Rattle.notation.specs.Reads.{Reads};
ghost use Rattle.opcode_notation.specs.Opcodes.{opcode, opcode_with};

use crate::form::{Form, Told};
use crate::words::{form_of, plain_of};
use armv7::Opcode;
use misreading::Expected;
use notation::{Cursor, Slip};

// The opcode that stands there: its case, with its flags or codes in parentheses.
pub fn read_opcode(cursor: &mut Cursor<'_>) -> Result<Opcode, Slip>
    ensures reads { Reads opcode cursor.old result cursor.new }
{
    // Kept: stepping on by hand; notation's `take` asks of its caller that a closure can be called, and none that is public asks.
    let token = cursor.token();
    if let Some(opcode) = plain_of(token.text) {
        cursor.at = token.end;
        return Ok(opcode);
    }
    let Some(form) = form_of(token.text) else {
        return Err(Slip::new(Expected::Opcode));
    };
    cursor.at = token.end;
    opcode_of(cursor, form)
}

// What stands in parentheses after the word.
fn opcode_of(cursor: &mut Cursor<'_>, form: Form) -> Result<Opcode, Slip>
    ensures { Reads (opcode_with form) cursor.old result cursor.new }
{
    match form {
        Form::Flag(form) => told(cursor, form),
        Form::Flags(form) => told(cursor, form),
        Form::Block(form) => told(cursor, form),
        Form::Code(form) => told(cursor, form),
        Form::Codes(form) => told(cursor, form),
        Form::Operation(form) => told(cursor, form),
    }
}

// An opcode of this kind, with the values that stand there.
fn told<F: Told>(cursor: &mut Cursor<'_>, form: F) -> Result<Opcode, Slip>
    ensures { Reads (via (F.meaning form) (bracketed F.Values.parser)) cursor.old result cursor.new }
{
    let values = cursor.bracketed()?;
    Ok(form.with(values))
}
