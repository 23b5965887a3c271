// The message on a line that cannot be read.
ghost use Rattle.std.specs.Prelude.{◌≡◌, Some};
ghost use Rattle.misreading.specs.Messages.{or_at_end, expected_text, shown, refusal_text, message_of};

use crate::misread::{Expected, Misread};
use armv7::Fault;
use std::fmt;
use std::fmt::Write;

// A token, or that the line ends there.
fn or_end(text: &[u8]) -> &[u8]
    ensures { result.now ≡ or_at_end text.now }
{
    if text.is_empty() {
        b"the end of the line"
    } else {
        text
    }
}

impl Expected {
    // In words.
    pub fn text(&self) -> &'static [u8]
        ensures text { result.now ≡ expected_text self.now }
    {
        match *self {
            Expected::Call => b"gap or Instruction",
            Expected::Given(token) => or_end(token.text()),
            Expected::Condition => b"a condition",
            Expected::Opcode => b"an opcode",
            Expected::Operand => b"an operand",
            Expected::Bank => b"a register bank",
            Expected::Mask => b"a status register mask",
            Expected::Flag => b"true or false",
            Expected::Code => b"a number from 0 to 255",
            Expected::Halfword => b"a number from 0 to 65535",
            Expected::Word => b"a number from 0 to 4294967295",
            Expected::Distance => b"a number from -2147483648 to 2147483647",
            Expected::Register => b"a register number from 0 to 15",
            Expected::Control => b"a control register number from 0 to 15",
            Expected::ShiftWord => b"a shift word",
        }
    }
}

// A misreading that is shown as what is said of the line with this number: where it cannot be read, what was expected there,
// what was found, and why a number was refused. A byte that is not printable is told by its number.
#[derive(Clone, Copy)]
pub struct Message<'a> {
    pub line: u64,
    pub misread: Misread<'a>,
}

impl fmt::Display for Message<'_> {
    ghost output = { λ message. Some (message_of message.line message.misread) };

    fn fmt<W: fmt::Write>(&self, f: &mut fmt::Formatter<W>) -> fmt::Result {
        let Message { line, misread } = *self;
        write!(
            f,
            "line {line}, column {}: {} was expected, found {}{}",
            misread.column,
            Printable(misread.expected.text()),
            Printable(or_end(misread.found)),
            Refused(misread.refusal)
        )
    }
}

// Why a number was refused, where one was.
#[derive(Clone, Copy)]
struct Refused(Option<Fault>);

impl fmt::Display for Refused {
    ghost output = { λ refused. Some (refusal_text refused.0) };

    fn fmt<W: fmt::Write>(&self, f: &mut fmt::Formatter<W>) -> fmt::Result {
        let Some(fault) = self.0 else {
            return Ok(());
        };
        write!(
            f,
            " (refusal {}: {})",
            fault.number(),
            Printable(fault.word())
        )
    }
}

// Bytes as text: one that is not printable is told by its number.
#[derive(Clone, Copy)]
struct Printable<'a>(&'a [u8]);

impl fmt::Display for Printable<'_> {
    ghost output = { λ text. Some (shown text.0.now) };

    fn fmt<W: fmt::Write>(&self, f: &mut fmt::Formatter<W>) -> fmt::Result {
        for b in self.0 {
            match *b {
                b @ b' '..=b'~' => f.write_char(char::from(b))?,
                b => write!(f, "\\x{b:02x}")?,
            }
        }
        Ok(())
    }
}
