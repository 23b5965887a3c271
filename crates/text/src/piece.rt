// Writers of pieces and of register names.
ghost use Rattle.std.specs.Prelude.{List, ◌++◌, if◌then◌else◌, codes};
ghost use Rattle.armv7.specs.Banks.{bank_name};
ghost use Rattle.sink.specs.declared.sink.Span.TheVariants.{Register};
ghost use Rattle.sink.specs.Items.{Item, text_items, within};
ghost use Rattle.sink.specs.Printed.{Prints};
ghost use Rattle.text.specs.Spans.{Writes};
ghost use Rattle.visitor.specs.Texts.{flagged, spanned, reg_items};

use armv7::{Bank, Fault, Reg};
use sink::DisplaySink;

// Inline, so that a fixed piece is a store.
#[inline(always)]
pub fn write_text<T: DisplaySink>(out: &mut T, piece: &[u8]) -> Result<(), Fault>
    ensures printed { Prints T.sink (text_items piece.now) out.old result out.new }
{
    out.write(piece)
}

// A text that is written only under a flag. Without it nothing is written, which an `Ok` says more plainly than an empty text.
#[inline(always)]
pub fn write_flagged<T: DisplaySink>(out: &mut T, flag: bool, text: &[u8]) -> Result<(), Fault>
    ensures printed { Prints T.sink (text_items (flagged flag text.now)) out.old result out.new }
{
    if flag { write_text(out, text) } else { Ok(()) }
}

// One of two texts.
#[inline(always)]
pub fn write_either<T: DisplaySink>(
    out: &mut T,
    flag: bool,
    set: &[u8],
    clear: &[u8],
) -> Result<(), Fault>
    ensures printed { Prints T.sink (text_items (if flag then set.now else clear.now)) out.old result out.new }
{
    if flag {
        write_text(out, set)
    } else {
        write_text(out, clear)
    }
}

// What a closure writes, in a register span.
fn in_register_span<T: DisplaySink, F: FnOnce(&mut T) -> Result<(), Fault>>(
    out: &mut T,
    write: F,
) -> Result<(), Fault>
    requires { F.IsAlwaysCallable write }
    ensures { (is : List Item) → Writes T.sink (F.post write) is → Prints T.sink (within Register is) out.old result out.new }
{
    out.span_start_register();
    write(out)?;
    out.span_end_register();
    Ok(())
}

// A name in a register span.
// Kept: apart from in_register_span, since a closure is not inline: by it a line takes 23 instructions more, and misses its bar
// (docs/SPEED.md).
#[inline(always)]
pub fn write_spanned<T: DisplaySink>(out: &mut T, name: &[u8]) -> Result<(), Fault>
    ensures printed { Prints T.sink (spanned name.now) out.old result out.new }
{
    out.span_start_register();
    write_text(out, name)?;
    out.span_end_register();
    Ok(())
}

// The name of a register that has more than two letters. Not inline, since there is but one.
#[inline(never)]
fn write_longer<T: DisplaySink>(out: &mut T, name: &[u8]) -> Result<(), Fault>
    ensures { Prints T.sink (spanned name.now) out.old result out.new }
{
    write_spanned(out, name)
}

// Kept: two letters by themselves: their length is then known where they are written, without which a list of all registers takes
// 121 instructions more, and misses its bar (docs/SPEED.md).
#[inline(always)]
pub fn write_reg<T: DisplaySink>(out: &mut T, reg: Reg) -> Result<(), Fault>
    ensures printed { Prints T.sink (reg_items reg) out.old result out.new }
{
    let name = reg.name();
    if name.len() == 2 {
        return write_spanned(out, &name[..2]);
    }
    write_longer(out, name)
}

// A register in two spans.
pub fn write_twice_spanned<T: DisplaySink>(out: &mut T, reg: Reg) -> Result<(), Fault>
    ensures printed { Prints T.sink (within Register (reg_items reg)) out.old result out.new }
{
    in_register_span(out, |out| write_reg(out, reg))
}

// A text, and behind it the bank's letters.
fn write_in_bank<T: DisplaySink>(out: &mut T, front: &[u8], bank: Bank) -> Result<(), Fault>
    ensures { Prints T.sink (text_items (front.now ++ bank_name bank)) out.old result out.new }
{
    write_text(out, front)?;
    write_text(out, bank.name())
}

fn write_name_in_bank<T: DisplaySink>(out: &mut T, word: &[u8], bank: Bank) -> Result<(), Fault>
    ensures { Prints T.sink (text_items (word.now ++ (codes "_" ++ bank_name bank))) out.old result out.new }
{
    write_text(out, word)?;
    write_in_bank(out, b"_", bank)
}

// A banked register.
pub fn write_banked_reg<T: DisplaySink>(out: &mut T, word: &[u8], bank: Bank) -> Result<(), Fault>
    ensures printed { Prints T.sink (spanned (word.now ++ (codes "_" ++ bank_name bank))) out.old result out.new }
{
    in_register_span(out, |out| write_name_in_bank(out, word, bank))
}

// The status register of a bank.
// Kept: no banked register of the word `spsr`, since `spsr_` is written whole, by a rule of the project (docs/DECISIONS.md).
pub fn write_banked_spsr<T: DisplaySink>(out: &mut T, bank: Bank) -> Result<(), Fault>
    ensures printed { Prints T.sink (spanned (codes "spsr_" ++ bank_name bank)) out.old result out.new }
{
    in_register_span(out, |out| write_in_bank(out, b"spsr_", bank))
}
