// The rows of IT, CPS and SETEND.
ghost use Rattle.std.specs.Prelude.{[], ◌∷◌, ◌++◌, if◌then◌else◌, codes, nat_eq};
ghost use Rattle.armv7.specs.Conditions.{condition_name};
ghost use Rattle.sink.specs.Items.{text_items};
ghost use Rattle.sink.specs.Printed.{Prints};
ghost use Rattle.visitor.specs.Texts.{prefixed};
ghost use Rattle.lines.specs.Lines.{behind_word, cps_letters, flag_row, mode_rows, setend_text};

use armv7::{ConditionCode, Fault};
use sink::DisplaySink;
use text::{write_either, write_flagged, write_prefixed, write_text};

// The condition of an IT block.
pub(crate) fn write_it_condition<T: DisplaySink>(
    condition: ConditionCode,
    out: &mut T,
) -> Result<(), Fault>
    ensures printed { Prints T.sink (behind_word (text_items (condition_name condition) ∷ [])) out.old result out.new }
{
    write_text(out, b" ")?;
    write_text(out, condition.name())
}

// The state that a SETEND sets.
pub(crate) fn write_setend<T: DisplaySink>(number: u16, out: &mut T) -> Result<(), Fault>
    ensures printed { Prints T.sink (behind_word (text_items (setend_text number) ∷ [])) out.old result out.new }
{
    write_either(out, number == 0, b" le", b" be")
}

fn write_cps_letters<T: DisplaySink>(flags: u16, out: &mut T) -> Result<(), Fault>
    ensures printed { Prints T.sink (text_items (cps_letters flags)) out.old result out.new }
{
    write_flagged(out, flags / 4 % 2 == 1, b"a")?;
    write_flagged(out, flags / 2 % 2 == 1, b"i")?;
    write_flagged(out, flags % 2 == 1, b"f")
}

// The interrupts that a CPS switches.
fn write_cps_flags<T: DisplaySink>(flags: u16, out: &mut T) -> Result<(), Fault>
    ensures printed { Prints T.sink (if nat_eq flags 0 then [] else text_items (codes " ") ++ text_items (cps_letters flags)) out.old result out.new }
{
    if flags == 0 {
        return Ok(());
    }
    write_text(out, b" ")?;
    write_cps_letters(flags, out)
}

fn write_cps_mode<T: DisplaySink>(flags: u16, mode: u16, out: &mut T) -> Result<(), Fault>
    ensures printed { Prints T.sink (text_items ((if nat_eq flags 0 then (codes " #") else (codes ", #")) ++ prefixed 4 mode)) out.old result out.new }
{
    write_either(out, flags == 0, b" #", b", #")?;
    write_prefixed(out, u32::from(mode))
}

// The interrupts that a CPS switches, and the mode that it changes to.
pub(crate) fn write_cps<T: DisplaySink>(
    flags: u16,
    mode: Option<u16>,
    out: &mut T,
) -> Result<(), Fault>
    ensures printed { Prints T.sink (behind_word (flag_row flags ++ mode_rows mode)) out.old result out.new }
{
    write_cps_flags(flags, out)?;
    let Some(number) = mode else {
        return Ok(());
    };
    write_cps_mode(flags, number, out)
}
