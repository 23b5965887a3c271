// How many bytes the parts of an operand's text have.
ghost use Rattle.std.specs.Prelude.{◌≡◌, ℕ, ◌^◌, ◌<◌, ◌≤◌, length, if◌then◌else◌};
ghost use Rattle.armv7.specs.Shifts.{shift_fields, shift_word};
ghost use Rattle.sink.specs.Items.{bytes};
ghost use Rattle.visitor.specs.Operands.{offset_text};
ghost use Rattle.visitor.specs.Texts.{reg_items, decimal, prefixed, list_items, amount_text, shift_items};

use armv7::{Reg, RegShift, RegShiftStyle, ShiftStyle};

// A byte that is only shown under a flag.
pub fn flag_size(shown: bool) -> usize
    ensures value { result ≡ (if shown then 1 else 0) }
    ensures bound { result ≤ 1 }
{
    usize::from(shown)
}

pub(crate) fn reg_size(reg: Reg) -> usize
    ensures value { result ≡ length (bytes (reg_items reg)) }
    ensures bound { result ≤ 3 }
{
    reg.name().len()
}

// The digits of a number below 100.
pub fn decimal_size(number: u8) -> usize
    ensures value { result ≡ length (decimal number) }
    ensures bound { result ≤ 2 }
{
    if number < 10 { 1 } else { 2 }
}

// With `0x` and as many digits in base 16 as the number has.
pub(crate) fn prefixed_size(number: u32) -> usize
    ensures value { (k : ℕ) → 0 < k → number < 16 ^ k → result ≡ length (prefixed k number) }
    ensures bound { result ≤ 10 }
{
    3 + (number.max(1).ilog2() / 4) as usize
}

// Four bytes for each register, and one more for `r10`; the braces take the place of the comma that the first one has not.
pub(crate) fn list_size(mask: u16) -> usize
    ensures value { result ≡ length (bytes (list_items mask)) }
    ensures bound { result ≤ 65 }
{
    let count = mask.count_ones() as usize;
    if count == 0 {
        return 2;
    }
    4 * count + usize::from(mask / 1024 % 2)
}

fn amount_size(stype: ShiftStyle, amount: u8) -> usize
    ensures value { result ≡ length (amount_text stype amount) }
    ensures bound { result ≤ 8 }
{
    if amount > 0 {
        return 6 + decimal_size(amount);
    }
    match stype {
        ShiftStyle::LSL => 0,
        ShiftStyle::LSR | ShiftStyle::ASR => 8,
        ShiftStyle::ROR => 5,
    }
}

pub(crate) fn shift_size(shift: RegShift) -> usize
    ensures value { result ≡ length (bytes (shift_items (shift_fields (shift_word shift)))) }
    ensures bound { result ≤ 12 }
{
    match shift.into_shift() {
        RegShiftStyle::RegImm(by) => reg_size(by.shiftee) + amount_size(by.stype, by.imm),
        RegShiftStyle::RegReg(by) => reg_size(by.shiftee) + 6 + reg_size(by.shifter),
    }
}

pub(crate) fn offset_size(offset: u16, add: bool) -> usize
    ensures value { result ≡ length (offset_text add offset) }
    ensures bound { result ≤ 13 }
{
    if offset == 0 {
        return 0;
    }
    2 + flag_size(!add) + prefixed_size(u32::from(offset))
}
