// Writers of numbers.
ghost use Rattle.std.specs.Prelude.{◌≡◌, ℕ, ◌^◌, ◌<◌, ◌≤◌, ◌++◌, drop, codes};
ghost use Rattle.sink.specs.Items.{text_items};
ghost use Rattle.sink.specs.Printed.{Prints};
ghost use Rattle.visitor.specs.Texts.{decimal, prefixed, branch_text};

use crate::piece::{write_either, write_text};
use armv7::Fault;
use sink::DisplaySink;

// The digits of base 16, in order.
const HEX_DIGITS: [u8; 16] = *b"0123456789abcdef";

// Puts `0x` before the start of the digits, and answers where that begins.
#[inline(always)]
fn mark_base(memory: &mut [u8; 10], start: usize) -> usize
    requires low { 2 ≤ start }
    requires high { start ≤ 10 }
    ensures range { result ≤ 10 }
    ensures value { drop result memory.new ≡ codes "0x" ++ drop start memory.old }
{
    memory[start - 1] = b'x';
    memory[start - 2] = b'0';
    start - 2
}

// Fills the end of the memory with `0x` and the last eight digits of the number in base 16, without leading zeros, and answers
// where that begins.
#[inline(always)]
fn fill_prefixed(memory: &mut [u8; 10], number: u64) -> usize
    ensures range { result ≤ 10 }
    ensures value { drop result memory.new ≡ prefixed 8 number }
{
    let mut rest = number;
    for place in (2..10).rev() {
        memory[place] = HEX_DIGITS[(rest % 16) as usize];
        if rest < 16 {
            return mark_base(memory, place);
        }
        rest /= 16;
    }
    mark_base(memory, 2)
}

// `0x` and the last eight digits of the number in base 16, without leading zeros.
#[inline(never)]
fn write_many_digits<T: DisplaySink>(out: &mut T, number: u64) -> Result<(), Fault>
    ensures { Prints T.sink (text_items (prefixed 8 number)) out.old result out.new }
{
    let mut memory = [0u8; 10];
    let start = fill_prefixed(&mut memory, number);
    write_text(out, &memory[start..])
}

// The same. Kept: a single digit, as most numbers have, by itself, which is then a piece of known length: without, a line takes 8
// instructions more, and a text buffer misses its bar (docs/SPEED.md).
#[inline(always)]
fn write_last_digits<T: DisplaySink>(out: &mut T, number: u64) -> Result<(), Fault>
    ensures { Prints T.sink (text_items (prefixed 8 number)) out.old result out.new }
{
    if number < 16 {
        return write_text(out, &[b'0', b'x', HEX_DIGITS[number as usize]]);
    }
    write_many_digits(out, number)
}

// `0x` and the digits of the number in base 16, without leading zeros: for every width that it fits, the same text.
#[inline(always)]
pub fn write_prefixed<T: DisplaySink>(out: &mut T, number: u32) -> Result<(), Fault>
    ensures printed { (k : ℕ) → 0 < k → number < 16 ^ k → Prints T.sink (text_items (prefixed k number)) out.old result out.new }
{
    write_last_digits(out, u64::from(number))
}

// The digits of the number, in decimal.
#[inline(always)]
pub fn write_decimal<T: DisplaySink>(out: &mut T, number: u8) -> Result<(), Fault>
    ensures printed { Prints T.sink (text_items (decimal number)) out.old result out.new }
{
    if number < 10 {
        return write_text(out, &[48 + number]);
    }
    write_text(out, &[48 + number / 10, 48 + number % 10])
}

// A branch distance, back or on, in steps of the scale.
#[inline(always)]
pub fn write_branch<T: DisplaySink>(out: &mut T, scale: u8, distance: i32) -> Result<(), Fault>
    ensures printed { Prints T.sink (text_items (branch_text scale distance)) out.old result out.new }
{
    write_either(out, distance < 0, b"$-", b"$+")?;
    write_last_digits(out, u64::from(scale) * u64::from(distance.unsigned_abs()))
}

// The option of a coprocessor, in braces.
pub fn write_option<T: DisplaySink>(out: &mut T, number: u8) -> Result<(), Fault>
    ensures printed { Prints T.sink (text_items (codes "{" ++ (prefixed 2 number ++ codes "}"))) out.old result out.new }
{
    write_text(out, b"{")?;
    write_prefixed(out, u32::from(number))?;
    write_text(out, b"}")
}
