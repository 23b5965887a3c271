// The manual line.
ghost use Rattle.std.specs.Prelude.{◌≡◌, [], ◌∷◌};
ghost use Rattle.sink.specs.Printed.{Prints};
ghost use Rattle.visitor.specs.Visits.{PrintsUnless};
ghost use Rattle.lines.specs.declared.alias.Stacked.TheVariants.{One};
ghost use Rattle.lines.specs.Lines.{behind_word, line_of};
ghost use Rattle.manual.specs.Lines.{bare as bare_of, stack_row, stack_parts, manual_refused, manual_line};

use armv7::{Fault, Instruction, Opcode, Reg};
use display::rows::write_stack_list;
use display::word::write_word;
use display::write_line;
use lines::{Form, StackForm, Stacked, Suffix, admit, stack_word};
use sink::DisplaySink;
use text::{write_reg, write_text};

// The instruction without s and without the opcode's own write-back flag, which the manual's spelling shows neither of.
fn bare(instruction: &Instruction) -> Instruction
    ensures bare { result ≡ bare_of instruction.now }
{
    let opcode = match instruction.opcode {
        Opcode::LDM(add, pre, _, user) => Opcode::LDM(add, pre, false, user),
        Opcode::STM(add, pre, _, user) => Opcode::STM(add, pre, false, user),
        other => other,
    };
    Instruction {
        opcode,
        s: false,
        ..*instruction
    }
}

// The one register of a pop or a push.
// Kept: the printer's lies in two spans, and this one in one.
fn write_one<T: DisplaySink>(reg: Reg, out: &mut T) -> Result<(), Fault>
    ensures printed { Prints T.sink (behind_word (stack_row (One reg) ∷ [])) out.old result out.new }
{
    write_text(out, b" {")?;
    write_reg(out, reg)?;
    write_text(out, b"}")
}

// What a pop or a push moves.
fn write_row<T: DisplaySink>(moved: Stacked, out: &mut T) -> Result<(), Fault>
    ensures printed { Prints T.sink (behind_word (stack_row moved ∷ [])) out.old result out.new }
{
    match moved {
        Stacked::List(mask) => write_stack_list(mask, out),
        Stacked::One(reg) => write_one(reg, out),
    }
}

// A pop or a push.
fn write_stack_line<T: DisplaySink>(
    form: StackForm,
    instruction: &Instruction,
    out: &mut T,
) -> Result<(), Fault>
    ensures printed { Prints T.sink (line_of (stack_parts form instruction.now)) out.old result out.new }
{
    write_word(stack_word(form.load), Suffix::of(instruction), out)?;
    write_row(form.moved, out)
}

// Prints the manual line of an instruction that is not refused to a sink, as much of it as there is room for.
pub fn visit_manual<T: DisplaySink>(instruction: &Instruction, out: &mut T) -> Result<(), Fault>
    ensures printed { PrintsUnless T.sink (manual_refused instruction.now) (manual_line instruction.now) out.old result out.new }
{
    let instruction = bare(instruction);
    match admit(&instruction)? {
        Form::Stack(form) => write_stack_line(form, &instruction, out),
        Form::Block(block) => write_line(Form::Block(block), &instruction, out),
        _ => Err(Fault::NoManualForm),
    }
}
