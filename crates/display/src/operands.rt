// The operands of a line.
ghost use Rattle.std.specs.Prelude.{map};
ghost use Rattle.sink.specs.Printed.{Prints};
ghost use Rattle.visitor.specs.Operands.{operand_items};
ghost use Rattle.visitor.specs.Texts.{followed};
ghost use Rattle.lines.specs.Lines.{behind_word};

use armv7::Fault;
use lines::Reached;
use sink::DisplaySink;
use text::write_text;
use writer::write_operand;

// The operands, each behind a comma.
#[inline(always)]
pub(crate) fn write_followed<T: DisplaySink>(reached: Reached<'_>, out: &mut T) -> Result<(), Fault>
    ensures printed { Prints T.sink (followed (map operand_items reached.entry.operands.now)) out.old result out.new }
{
    for index in 0..reached.operands.len() {
        write_text(out, b", ")?;
        write_operand(out, &reached.operands[index])?;
    }
    Ok(())
}

// The operands, with commas between them.
#[inline(always)]
pub(crate) fn write_operands<T: DisplaySink>(reached: Reached<'_>, out: &mut T) -> Result<(), Fault>
    ensures printed { Prints T.sink (behind_word (map operand_items reached.entry.operands.now)) out.old result out.new }
{
    let operands = reached.operands;
    if operands.is_empty() {
        return Ok(());
    }
    write_text(out, b" ")?;
    write_operand(out, &operands[0])?;
    let operands = &operands[1..];
    write_followed(Reached { operands }, out)
}
