// The line of an instruction.
ghost use Rattle.sink.specs.Printed.{Prints};
ghost use Rattle.visitor.specs.Visits.{PrintsUnless};
ghost use Rattle.lines.specs.Admission.{refused};
ghost use Rattle.lines.specs.Forms.{parts_of};
ghost use Rattle.lines.specs.Lines.{line_of, line};

use crate::operands::write_operands;
use crate::rows::write_rows;
use crate::word::{write_form_word, write_word};
use armv7::{Fault, Instruction};
use lines::{Form, Reached, Suffix, admit};
use sink::DisplaySink;

// The line of an instruction that shows its own operands.
// Kept: most lines by themselves, inline. By the matches of `write_formed`, a line of a typical program takes 11 instructions more,
// and misses its bar (docs/SPEED.md).
#[inline(always)]
fn write_plain<T: DisplaySink>(
    reached: Reached<'_>,
    instruction: &Instruction,
    out: &mut T,
) -> Result<(), Fault>
    ensures printed { Prints T.sink (line_of (parts_of (Form.Plain reached.entry) instruction.now)) out.old result out.new }
{
    write_word(instruction.opcode.name(), Suffix::of(instruction), out)?;
    write_operands(reached, out)
}

// Any line, by its form.
#[inline(never)]
fn write_formed<T: DisplaySink>(
    form: Form<'_>,
    instruction: &Instruction,
    out: &mut T,
) -> Result<(), Fault>
    ensures printed { Prints T.sink (line_of (parts_of form.entry instruction.now)) out.old result out.new }
{
    write_form_word(form, instruction, out)?;
    write_rows(form, out)
}

// The line of an instruction that was admitted as this form.
#[inline(always)]
pub fn write_line<T: DisplaySink>(
    form: Form<'_>,
    instruction: &Instruction,
    out: &mut T,
) -> Result<(), Fault>
    ensures printed { Prints T.sink (line_of (parts_of form.entry instruction.now)) out.old result out.new }
{
    match form {
        Form::Plain(reached) => write_plain(reached, instruction, out),
        _ => write_formed(form, instruction, out),
    }
}

// Prints the line of an instruction that is not refused to a sink, as much of it as there is room for.
pub fn visit_inst<T: DisplaySink>(instruction: &Instruction, out: &mut T) -> Result<(), Fault>
    ensures printed_or_refused { PrintsUnless T.sink (refused instruction.now) (line instruction.now) out.old result out.new }
{
    let form = admit(instruction)?;
    write_line(form, instruction, out)
}
