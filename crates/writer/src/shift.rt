// Writers of shifts.
ghost use Rattle.std.specs.Prelude.{◌++◌};
ghost use Rattle.armv7.specs.declared.shift.RegShiftStyle.TheVariants.{RegImm, RegReg};
ghost use Rattle.armv7.specs.Shifts.{shift_fields, shift_word};
ghost use Rattle.sink.specs.Items.{text_items};
ghost use Rattle.sink.specs.Printed.{Prints};
ghost use Rattle.visitor.specs.Texts.{decimal, style_text, amount_text, shift_items};

use armv7::{Fault, RegImmShift, RegRegShift, RegShift, RegShiftStyle, ShiftStyle};
use sink::DisplaySink;
use text::{write_decimal, write_reg, write_text};

// The kind of a shift, with what stands around its name.
fn write_style<T: DisplaySink>(out: &mut T, stype: ShiftStyle) -> Result<(), Fault>
    ensures printed { Prints T.sink (text_items (style_text stype)) out.old result out.new }
{
    write_text(out, b", ")?;
    write_text(out, stype.name())?;
    write_text(out, b" ")
}

// A number behind the kind of a shift.
fn write_counted<T: DisplaySink>(out: &mut T, stype: ShiftStyle, number: u8) -> Result<(), Fault>
    ensures printed { Prints T.sink (text_items (style_text stype ++ decimal number)) out.old result out.new }
{
    write_style(out, stype)?;
    write_decimal(out, number)
}

// A shift by an amount; what 0 stands for depends on the kind.
fn write_amount<T: DisplaySink>(out: &mut T, stype: ShiftStyle, amount: u8) -> Result<(), Fault>
    ensures printed { Prints T.sink (text_items (amount_text stype amount)) out.old result out.new }
{
    if amount > 0 {
        return write_counted(out, stype, amount);
    }
    match stype {
        ShiftStyle::LSL => Ok(()),
        ShiftStyle::LSR | ShiftStyle::ASR => write_counted(out, stype, 32),
        ShiftStyle::ROR => write_text(out, b", rrx"),
    }
}

fn write_by_amount<T: DisplaySink>(out: &mut T, shift: RegImmShift) -> Result<(), Fault>
    ensures printed { Prints T.sink (shift_items (RegImm shift)) out.old result out.new }
{
    write_reg(out, shift.shiftee)?;
    write_amount(out, shift.stype, shift.imm)
}

fn write_by_reg<T: DisplaySink>(out: &mut T, shift: RegRegShift) -> Result<(), Fault>
    ensures printed { Prints T.sink (shift_items (RegReg shift)) out.old result out.new }
{
    write_reg(out, shift.shiftee)?;
    write_style(out, shift.stype)?;
    write_reg(out, shift.shifter)
}

pub(crate) fn write_shift<T: DisplaySink>(out: &mut T, shift: RegShift) -> Result<(), Fault>
    ensures printed { Prints T.sink (shift_items (shift_fields (shift_word shift))) out.old result out.new }
{
    match shift.into_shift() {
        RegShiftStyle::RegImm(by) => write_by_amount(out, by),
        RegShiftStyle::RegReg(by) => write_by_reg(out, by),
    }
}
