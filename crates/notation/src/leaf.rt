// The leaves of the notation: given tokens, words of a table and numbers.
ghost use Rattle.std.specs.Prelude.{◌≡◌, ◌≤◌, IfSome, IfOk, Option};
ghost use Rattle.std.specs.Fn.{FnOnceReturnsAt};
ghost use Rattle.std.specs.Str.{bytes_eq};
ghost use Rattle.notation.specs.Parsing.{numeral, row, rows, given, givens, chosen};
ghost use Rattle.notation.specs.Places.{ahead};
ghost use Rattle.notation.specs.Tokens.{first};
ghost use Rattle.notation.specs.Reads.{Reads, read_as};

use crate::cursor::{Cursor, Slip};
use misreading::{Expected, Given};

// The number that a text writes in decimal, with no zero in front of it, if it is at most `most`.
// Kept: `parse` also takes a plus sign and zeros in front, which would have to be refused before it.
pub(crate) fn numeral_of(text: &[u8], most: u32) -> Option<u32>
    ensures value { result ≡ numeral most text.now }
    ensures bound { IfSome result (λ n. n ≤ most) }
{
    if text.is_empty() {
        return None;
    }
    if text[0] == b'0' && text.len() > 1 {
        return None;
    }
    let mut value: u64 = 0;
    for b in text {
        if !b.is_ascii_digit() {
            return None;
        }
        value = value * 10 + u64::from(*b - b'0');
        if value > u64::from(most) {
            return None;
        }
    }
    Some(value as u32)
}

// Kept: `==` under a name whose contract says `bytes_eq`, by which the tables are searched; the library's says only that it decides equality.
pub(crate) fn same(a: &[u8], b: &[u8]) -> bool
    ensures { result ≡ bytes_eq a.now b.now }
{
    a == b
}

// What a table has for a word.
pub fn row_of<T: Copy>(table: &[(&[u8], T)], word: &[u8]) -> Option<T>
    ensures value { result ≡ row (rows table.now) word.now }
{
    let known = table.iter().find(|known| same(word, known.0))?;
    Some(known.1)
}

impl<'a> Cursor<'a> {
    // The next token, as what its text is read as.
    pub(crate) fn take<T, F: FnOnce(&[u8]) -> Result<T, Slip>>(
        &mut self,
        value_of: F,
    ) -> Result<T, Slip>
        requires { F.IsAlwaysCallable value_of }
        ensures { FnOnceReturnsAt F.FnOnce value_of (first (ahead self.old)) result × Reads (read_as result) self.old result self.new }
    {
        let token = self.token();
        let value = value_of(token.text)?;
        self.at = token.end;
        Ok(value)
    }

    // A token that has to stand there.
    fn pass(&mut self, wanted: Given) -> Result<(), Slip>
        ensures { Reads (given wanted) self.old result self.new }
    {
        self.take(|text| {
            if !same(text, wanted.text()) {
                return Err(Slip::new(Expected::Given(wanted)));
            }
            Ok(())
        })
    }

    // Tokens that have to stand there, one after another.
    pub fn expect(&mut self, wanted: &[Given]) -> Result<(), Slip>
        ensures reads { Reads (givens wanted.now) self.old result self.new }
    {
        for token in wanted {
            self.pass(*token)?;
        }
        Ok(())
    }

    // One of the words of a table: what the table has for it.
    pub fn choose<T: Copy>(&mut self, table: &[(&[u8], T)], expected: Expected) -> Result<T, Slip>
        ensures reads { Reads (chosen expected (rows table.now)) self.old result self.new }
    {
        self.take(|text| row_of(table, text).ok_or(Slip::new(expected)))
    }
}
