// The registers of a list, in words.
ghost use Rattle.std.specs.Prelude.{◌≡◌, Some};
ghost use Rattle.wording.specs.Words.{holds as has, registers_words};

use crate::bytes::Characters;
use armv7::Reg;
use std::fmt;

// Is the register's bit set?
fn holds(mask: u16, reg: Reg) -> bool
    ensures { result ≡ has mask reg }
{
    (mask >> reg.number()) % 2 == 1
}

// The registers whose bits are set, each behind a space.
#[derive(Clone, Copy)]
pub(crate) struct Registers(pub(crate) u16);

impl fmt::Display for Registers {
    ghost output = { λ registers. Some (registers_words registers.0) };

    fn fmt<W: fmt::Write>(&self, f: &mut fmt::Formatter<W>) -> fmt::Result {
        let Registers(mask) = *self;
        if mask == 0 {
            return f.write_str(" nothing");
        }
        for reg in Reg::ALL {
            if holds(mask, reg) {
                write!(f, " {}", Characters(reg.name()))?;
            }
        }
        Ok(())
    }
}
