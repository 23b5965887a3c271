// Refusals in words.
ghost use Rattle.std.specs.Prelude.{Some};
ghost use Rattle.wording.specs.Words.{refusal_words};

use crate::bytes::Characters;
use armv7::Fault;
use std::fmt;

// A fault that is shown as its number, its word and its place.
#[derive(Clone, Copy)]
pub struct Refusal(pub Fault);

impl fmt::Display for Refusal {
    ghost output = { λ refused. Some (refusal_words refused.0) };

    fn fmt<W: fmt::Write>(&self, f: &mut fmt::Formatter<W>) -> fmt::Result {
        let Refusal(fault) = *self;
        write!(f, "{}, {}", fault.number(), Characters(fault.word()))?;
        if let Some(at) = fault.operand() {
            write!(f, ", operand {}", at.index())?;
        }
        Ok(())
    }
}
