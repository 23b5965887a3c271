// Writers of addresses. Where two flags are given, the first adds the offset rather than taking it off, and the second writes the
// address back.
ghost use Rattle.std.specs.Prelude.{Bool, List, false, ◌++◌, codes};
ghost use Rattle.armv7.specs.declared.operand.Operand.TheVariants.{RegWBack, RegDeref, RegDerefPostindexRegShift};
ghost use Rattle.armv7.specs.Shifts.{shift_fields, shift_word};
ghost use Rattle.sink.specs.Items.{Item, text_items};
ghost use Rattle.sink.specs.Printed.{Prints};
ghost use Rattle.visitor.specs.Operands.{bang, minus, offset_text, operand_items};
ghost use Rattle.visitor.specs.Texts.{reg_items, shift_items};

use crate::shift::write_shift;
use armv7::{Fault, Reg, RegShift};
use sink::DisplaySink;
use text::{write_either, write_flagged, write_prefixed, write_reg, write_text};

// The end of an address whose offset stands inside it.
#[inline(always)]
fn write_close<T: DisplaySink>(out: &mut T, wback: bool) -> Result<(), Fault>
    ensures { Prints T.sink (text_items (codes "]" ++ bang wback)) out.old result out.new }
{
    write_either(out, wback, b"]!", b"]")
}

// What stands before an offset inside the address.
#[inline(always)]
fn write_comma<T: DisplaySink>(out: &mut T, add: bool) -> Result<(), Fault>
    ensures { Prints T.sink (text_items (codes ", " ++ minus add)) out.old result out.new }
{
    write_either(out, add, b", ", b", -")
}

// What stands before a shift behind the address.
#[inline(always)]
fn write_past_blank<T: DisplaySink>(out: &mut T, add: bool) -> Result<(), Fault>
    ensures { Prints T.sink (text_items (codes "], " ++ (minus add ++ codes " "))) out.old result out.new }
{
    write_either(out, add, b"],  ", b"], - ")
}

#[inline(always)]
fn write_base<T: DisplaySink>(out: &mut T, base: Reg) -> Result<(), Fault>
    ensures { Prints T.sink (text_items (codes "[") ++ reg_items base) out.old result out.new }
{
    write_text(out, b"[")?;
    write_reg(out, base)
}

// An offset, as it stands inside an address, and mostly behind one too.
pub(crate) trait Offset: Copy {
    // What it shows where it is added, and where it is taken off.
    ghost items: { Self → Bool → List Item };

    fn write<T: DisplaySink>(self, out: &mut T, add: bool) -> Result<(), Fault>
        ensures { Prints T.sink (items self add) out.old result out.new };
}

impl Offset for RegShift {
    ghost items = { λ shift add. text_items (codes ", " ++ minus add) ++ shift_items (shift_fields (shift_word shift)) };

    #[inline(always)]
    fn write<T: DisplaySink>(self, out: &mut T, add: bool) -> Result<(), Fault> {
        write_comma(out, add)?;
        write_shift(out, self)
    }
}

// An offset of 0 is not shown.
impl Offset for u16 {
    ghost items = { λ offset add. text_items (offset_text add offset) };

    #[inline(always)]
    fn write<T: DisplaySink>(self, out: &mut T, add: bool) -> Result<(), Fault> {
        if self == 0 {
            return Ok(());
        }
        write_comma(out, add)?;
        write_prefixed(out, u32::from(self))
    }
}

impl Offset for Reg {
    ghost items = { λ offset add. text_items (codes ", " ++ minus add) ++ reg_items offset };

    #[inline(always)]
    fn write<T: DisplaySink>(self, out: &mut T, add: bool) -> Result<(), Fault> {
        write_comma(out, add)?;
        write_reg(out, self)
    }
}

#[inline(always)]
pub fn write_reg_wback<T: DisplaySink>(out: &mut T, reg: Reg, wback: bool) -> Result<(), Fault>
    ensures printed { Prints T.sink (operand_items (RegWBack reg wback)) out.old result out.new }
{
    write_reg(out, reg)?;
    write_flagged(out, wback, b"!")
}

#[inline(always)]
pub(crate) fn write_deref<T: DisplaySink>(out: &mut T, reg: Reg) -> Result<(), Fault>
    ensures { Prints T.sink (operand_items (RegDeref reg)) out.old result out.new }
{
    write_base(out, reg)?;
    write_text(out, b"]")
}

// An address with its offset inside.
#[inline(always)]
pub(crate) fn write_preindex<T: DisplaySink, O: Offset>(
    out: &mut T,
    base: Reg,
    offset: O,
    add: bool,
    wback: bool,
) -> Result<(), Fault>
    ensures { Prints T.sink (text_items (codes "[") ++ (reg_items base ++ (O.items offset add ++ text_items (codes "]" ++ bang wback)))) out.old result out.new }
{
    write_base(out, base)?;
    offset.write(out, add)?;
    write_close(out, wback)
}

// An address with its offset behind it.
#[inline(always)]
pub(crate) fn write_postindex<T: DisplaySink, O: Offset>(
    out: &mut T,
    base: Reg,
    offset: O,
    add: bool,
    wback: bool,
) -> Result<(), Fault>
    ensures { Prints T.sink (operand_items (RegDeref base) ++ (O.items offset add ++ text_items (bang wback))) out.old result out.new }
{
    write_deref(out, base)?;
    offset.write(out, add)?;
    write_flagged(out, wback, b"!")
}

// An address with a shift behind it. Where it is written back, it has no text.
// Kept: beside write_postindex, since a shift stands a blank further on than another offset.
pub(crate) fn write_postindex_reg_shift<T: DisplaySink>(
    out: &mut T,
    base: Reg,
    shift: RegShift,
    add: bool,
) -> Result<(), Fault>
    ensures { Prints T.sink (operand_items (RegDerefPostindexRegShift base shift add false)) out.old result out.new }
{
    write_base(out, base)?;
    write_past_blank(out, add)?;
    write_shift(out, shift)
}
