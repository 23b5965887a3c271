// Block transfers in words.
ghost use Rattle.std.specs.Prelude.{◌≡◌, Some};
ghost use Rattle.wording.specs.Words.{way as way_of, direction as direction_of, base_words, user_words, transfer_words};

use crate::bytes::Characters;
use crate::registers::Registers;
use blocks::fields::Sheet;
use std::fmt;

fn way(sheet: &Sheet) -> &'static str
    ensures { result.now ≡ way_of sheet.now.load }
{
    if sheet.load { "loads" } else { "stores" }
}

fn direction(sheet: &Sheet) -> &'static str
    ensures { result.now ≡ direction_of sheet.now.add sheet.now.pre }
{
    match (sheet.add, sheet.pre) {
        (true, false) => "upwards, after each",
        (true, true) => "upwards, before each",
        (false, false) => "downwards, after each",
        (false, true) => "downwards, before each",
    }
}

fn base(sheet: &Sheet) -> &'static str
    ensures { result.now ≡ base_words sheet.now.wback }
{
    if sheet.wback {
        ", base is changed"
    } else {
        ", base stays"
    }
}

// A transfer of the user bank that loads the program counter returns from an exception instead.
fn user(sheet: &Sheet) -> &'static str
    ensures { result.now ≡ user_words sheet.now }
{
    if !sheet.user {
        ""
    } else if sheet.load && sheet.mask >= 0x8000 {
        ", status restored"
    } else {
        ", registers of user mode"
    }
}

// A sheet that is shown as load or store, the registers, the base, the direction and the write-back.
#[derive(Clone, Copy)]
pub struct Transfer<'a>(pub &'a Sheet);

impl fmt::Display for Transfer<'_> {
    ghost output = { λ transfer. Some (transfer_words transfer.0.now) };

    fn fmt<W: fmt::Write>(&self, f: &mut fmt::Formatter<W>) -> fmt::Result {
        let sheet = self.0;
        write!(
            f,
            "{}{}; base {}, {}{}{}",
            way(sheet),
            Registers(sheet.mask),
            Characters(sheet.base.name()),
            direction(sheet),
            base(sheet),
            user(sheet)
        )
    }
}
