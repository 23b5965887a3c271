// What came of all the calls of a record.
ghost use Rattle.std.specs.Prelude.{Some};
ghost use Rattle.wording.specs.Words.{totals_words};

use std::fmt;

// How many lines of a record were printed, were gaps, were refused and were not read.
#[derive(Clone, Copy, Default)]
pub struct Totals {
    pub printed: u64,
    pub gaps: u64,
    pub refused: u64,
    pub misread: u64,
}

impl fmt::Display for Totals {
    ghost output = { λ totals. Some (totals_words totals) };

    fn fmt<W: fmt::Write>(&self, f: &mut fmt::Formatter<W>) -> fmt::Result {
        let Totals {
            printed,
            gaps,
            refused,
            misread,
        } = *self;
        write!(
            f,
            "{printed} printed, {gaps} gaps, {refused} refused, {misread} not read"
        )
    }
}
