// Bytes as text.
ghost use Rattle.std.specs.Prelude.{Some};
ghost use Rattle.wording.specs.Words.{characters};

use std::fmt;
use std::fmt::Write;

// Bytes that are shown as characters, each as the one of its number.
#[derive(Clone, Copy)]
pub struct Characters<'a>(pub &'a [u8]);

impl fmt::Display for Characters<'_> {
    ghost output = { λ text. Some (characters text.0.now) };

    fn fmt<W: fmt::Write>(&self, f: &mut fmt::Formatter<W>) -> fmt::Result {
        for b in self.0 {
            f.write_char(char::from(*b))?;
        }
        Ok(())
    }
}
