// Reads one line of a record.
ghost use Rattle.std.specs.Prelude.{IfOk, IfErr, Option};
ghost use Rattle.notation.specs.Tokens.{tokens};
ghost use Rattle.record.specs.Law.{Says, CanCall, Answers, Answered, Found};

use crate::call::read_call;
use armv7::Call;
use misreading::Misread;
use notation::Cursor;

// The call that the line asks for, none if it is blank or a comment, or what cannot be read in it.
pub fn read_line(line: &[u8]) -> Result<Option<Call>, Misread<'_>>
    ensures sound { IfOk result (Says (tokens line.now)) }
    ensures lawful { IfOk result CanCall }
    ensures complete { (c : Option Call) → CanCall c → Says (tokens line.now) c → Answers result c }
    ensures answer { Answered line.now result }
    ensures place { IfErr result (Found line.now) }
{
    let mut cursor = Cursor { line, at: 0 };
    // Kept: tried by `map_err`; of a closure that calls misread on the cursor the check knew nothing, and a clause would repeat misread's.
    match read_call(&mut cursor) {
        Ok(call) => Ok(call),
        Err(slip) => Err(cursor.misread(slip)),
    }
}
