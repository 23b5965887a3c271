// The word of a line: the mnemonic with what stands behind it, in an opcode span.
ghost use Rattle.std.specs.Prelude.{◌≡◌, ◌++◌};
ghost use Rattle.armv7.specs.Conditions.{condition_number as number_of};
ghost use Rattle.sink.specs.Items.{text_items};
ghost use Rattle.sink.specs.Printed.{Prints};
ghost use Rattle.lines.specs.Forms.{suffix_text, block_letters, word_of};
ghost use Rattle.lines.specs.Lines.{condition_suffix, word_items, it_letter};

use armv7::{ConditionCode, Fault, Instruction};
use lines::{Form, ItBlock, Suffix, letter_count, stack_word};
use sink::DisplaySink;
use text::{write_flagged, write_text};

// The condition's letters, one after the other; AL has none.
#[inline(always)]
fn write_condition<T: DisplaySink>(condition: ConditionCode, out: &mut T) -> Result<(), Fault>
    ensures printed { Prints T.sink (text_items (condition_suffix condition)) out.old result out.new }
{
    match condition {
        ConditionCode::AL => Ok(()),
        _ => {
            let name = condition.name();
            write_text(out, &name[0..1])?;
            write_text(out, &name[1..2])
        }
    }
}

#[inline(always)]
fn write_suffix<T: DisplaySink>(suffix: Suffix, out: &mut T) -> Result<(), Fault>
    ensures printed { Prints T.sink (text_items (suffix_text suffix)) out.old result out.new }
{
    write_flagged(out, suffix.s, b"s")?;
    write_condition(suffix.condition, out)?;
    write_flagged(out, suffix.w, b".w")
}

#[inline(always)]
fn write_mnemonic<T: DisplaySink>(name: &[u8], suffix: Suffix, out: &mut T) -> Result<(), Fault>
    ensures printed { Prints T.sink (text_items (name.now ++ suffix_text suffix)) out.old result out.new }
{
    write_text(out, name)?;
    write_suffix(suffix, out)
}

// A mnemonic with its suffix.
#[inline(always)]
pub fn write_word<T: DisplaySink>(name: &[u8], suffix: Suffix, out: &mut T) -> Result<(), Fault>
    ensures printed { Prints T.sink (word_items (name.now ++ suffix_text suffix)) out.old result out.new }
{
    out.span_start_opcode();
    write_mnemonic(name, suffix, out)?;
    out.span_end_opcode();
    Ok(())
}

fn condition_number(condition: ConditionCode) -> u32
    ensures number { result ≡ number_of condition }
{
    condition as u32
}

fn it_letter_at(condition: u32, bit: u32) -> u8
    ensures letter { result ≡ it_letter condition bit }
{
    if condition % 2 == bit % 2 { b't' } else { b'e' }
}

fn write_it_letters<T: DisplaySink>(block: ItBlock, out: &mut T) -> Result<(), Fault>
    ensures printed { Prints T.sink (text_items (block_letters block)) out.old result out.new }
{
    let condition = condition_number(block.condition);
    let letters = [
        it_letter_at(condition, block.mask / 8),
        it_letter_at(condition, block.mask / 4),
        it_letter_at(condition, block.mask / 2),
    ];
    let count = letter_count(block.mask);
    write_text(out, &letters[0..count])
}

fn write_it_mnemonic<T: DisplaySink>(
    name: &[u8],
    suffix: Suffix,
    block: ItBlock,
    out: &mut T,
) -> Result<(), Fault>
    ensures printed { Prints T.sink (text_items (name.now ++ (suffix_text suffix ++ block_letters block))) out.old result out.new }
{
    write_text(out, name)?;
    write_suffix(suffix, out)?;
    write_it_letters(block, out)
}

// The mnemonic of an IT block with its suffix and letters.
// Kept: the edges of write_word again. One function over a closure that writes what stands in the span was proved, and takes 42
// instructions more a line, by which it misses its bar (docs/SPEED.md); one with letters that may be missing would ask at each word
// what only IT has.
fn write_it_word<T: DisplaySink>(
    name: &[u8],
    suffix: Suffix,
    block: ItBlock,
    out: &mut T,
) -> Result<(), Fault>
    ensures printed { Prints T.sink (word_items (name.now ++ (suffix_text suffix ++ block_letters block))) out.old result out.new }
{
    out.span_start_opcode();
    write_it_mnemonic(name, suffix, block, out)?;
    out.span_end_opcode();
    Ok(())
}

// The word of an instruction, by its form.
#[inline(always)]
pub(crate) fn write_form_word<T: DisplaySink>(
    form: Form<'_>,
    instruction: &Instruction,
    out: &mut T,
) -> Result<(), Fault>
    ensures printed { Prints T.sink (word_items (word_of form.entry instruction.now)) out.old result out.new }
{
    let name = instruction.opcode.name();
    let suffix = Suffix::of(instruction);
    match form {
        Form::Coprocessor(codes, _) => {
            write_word(name, Suffix::shown(codes.suffixes, instruction), out)
        }
        Form::Stack(form) => write_word(stack_word(form.load), suffix, out),
        Form::It(block) => write_it_word(name, suffix, block, out),
        _ => write_word(name, suffix, out),
    }
}
