// The writer of a register list.
ghost use Rattle.std.specs.Prelude.{◌++◌, map, codes};
ghost use Rattle.sink.specs.Items.{text_items};
ghost use Rattle.sink.specs.Printed.{Prints};
ghost use Rattle.visitor.specs.Texts.{flagged, reg_items, joined, chosen, all_regs, list_items};

use crate::piece::{write_flagged, write_reg, write_text};
use armv7::{Fault, Reg};
use sink::DisplaySink;

// A register, before a comma if more follow.
#[inline(always)]
fn write_next<T: DisplaySink>(out: &mut T, reg: Reg, more: bool) -> Result<(), Fault>
    ensures { Prints T.sink (reg_items reg ++ text_items (flagged more (codes ", "))) out.old result out.new }
{
    write_reg(out, reg)?;
    write_flagged(out, more, b", ")
}

// The registers whose bits are set, with commas between them.
#[inline(always)]
fn write_chosen<T: DisplaySink>(out: &mut T, mask: u16) -> Result<(), Fault>
    ensures { Prints T.sink (joined (map reg_items (chosen all_regs mask))) out.old result out.new }
{
    // The bits of the registers from here on.
    let mut rest = mask;
    for reg in Reg::ALL {
        if rest % 2 == 1 {
            write_next(out, reg, rest > 1)?;
        }
        rest /= 2;
    }
    Ok(())
}

#[inline(always)]
pub fn write_list<T: DisplaySink>(out: &mut T, mask: u16) -> Result<(), Fault>
    ensures printed { Prints T.sink (list_items mask) out.old result out.new }
{
    write_text(out, b"{")?;
    write_chosen(out, mask)?;
    write_text(out, b"}")
}
