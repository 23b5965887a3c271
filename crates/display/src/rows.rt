// The rows behind a word, for each way to print an instruction.
ghost use Rattle.std.specs.Prelude.{[], ◌∷◌, ◌++◌, map, codes};
ghost use Rattle.kind.specs.Kinds.{optional};
ghost use Rattle.sink.specs.Items.{text_items};
ghost use Rattle.sink.specs.Printed.{Prints};
ghost use Rattle.visitor.specs.Texts.{list_items, followed, decimal};
ghost use Rattle.lines.specs.declared.alias.Stacked.TheVariants.{One};
ghost use Rattle.lines.specs.Forms.{rows_of};
ghost use Rattle.lines.specs.Lines.{behind_word, block_rows, code_row, stack_row};

use crate::operands::{write_followed, write_operands};
use crate::system::{write_cps, write_it_condition, write_setend};
use armv7::{Fault, Reg};
use kind::Codes;
use lines::{Block, Form, Reached, Stacked};
use sink::DisplaySink;
use text::{write_decimal, write_flagged, write_list, write_text, write_twice_spanned};
use writer::write_reg_wback;

// The list of a pop or a push.
pub fn write_stack_list<T: DisplaySink>(registers: u16, out: &mut T) -> Result<(), Fault>
    ensures printed { Prints T.sink (behind_word (list_items registers ∷ [])) out.old result out.new }
{
    write_text(out, b" ")?;
    write_list(out, registers)
}

// The one register of a pop or a push.
fn write_stack_one<T: DisplaySink>(reg: Reg, out: &mut T) -> Result<(), Fault>
    ensures printed { Prints T.sink (behind_word (stack_row (One reg) ∷ [])) out.old result out.new }
{
    write_text(out, b" {")?;
    write_twice_spanned(out, reg)?;
    write_text(out, b"}")
}

// What a pop or a push moves.
fn write_stack_row<T: DisplaySink>(moved: Stacked, out: &mut T) -> Result<(), Fault>
    ensures printed { Prints T.sink (behind_word (stack_row moved ∷ [])) out.old result out.new }
{
    match moved {
        Stacked::List(mask) => write_stack_list(mask, out),
        Stacked::One(reg) => write_stack_one(reg, out),
    }
}

// The base and the list of a block transfer.
pub fn write_block<T: DisplaySink>(block: Block, out: &mut T) -> Result<(), Fault>
    ensures printed { Prints T.sink (behind_word (block_rows block)) out.old result out.new }
{
    write_text(out, b" ")?;
    write_reg_wback(out, block.base, block.wback)?;
    write_text(out, b", ")?;
    write_list(out, block.mask)?;
    write_flagged(out, block.user, b"^")
}

// A code behind a comma, where there is one.
fn write_code<T: DisplaySink>(code: Option<u8>, out: &mut T) -> Result<(), Fault>
    ensures printed { Prints T.sink (followed (map code_row (optional code))) out.old result out.new }
{
    let Some(number) = code else {
        return Ok(());
    };
    write_text(out, b", ")?;
    write_decimal(out, number)
}

// The coprocessor and the code behind it.
fn write_codes<T: DisplaySink>(numbers: Codes, out: &mut T) -> Result<(), Fault>
    ensures printed { Prints T.sink (text_items (codes " p") ++ (text_items (decimal numbers.coprocessor) ++ followed (map code_row (optional numbers.second))))
        out.old result out.new }
{
    write_text(out, b" p")?;
    write_decimal(out, numbers.coprocessor)?;
    write_code(numbers.second, out)
}

// The codes of a coprocessor form around its operands.
fn write_coprocessor<T: DisplaySink>(
    codes: Codes,
    reached: Reached<'_>,
    out: &mut T,
) -> Result<(), Fault>
    ensures printed { Prints T.sink (behind_word (rows_of (Form.Coprocessor codes reached.entry))) out.old result out.new }
{
    write_codes(codes, out)?;
    write_followed(reached, out)?;
    write_code(codes.third, out)
}

// What stands behind the word of an instruction, by its form.
#[inline(always)]
pub(crate) fn write_rows<T: DisplaySink>(form: Form<'_>, out: &mut T) -> Result<(), Fault>
    ensures printed { Prints T.sink (behind_word (rows_of form.entry)) out.old result out.new }
{
    match form {
        Form::Plain(reached) => write_operands(reached, out),
        Form::Coprocessor(codes, reached) => write_coprocessor(codes, reached, out),
        Form::Block(block) => write_block(block, out),
        Form::Stack(form) => write_stack_row(form.moved, out),
        Form::It(block) => write_it_condition(block.condition, out),
        Form::Cps { flags, mode } => write_cps(flags, mode, out),
        Form::Setend { number } => write_setend(number, out),
    }
}
