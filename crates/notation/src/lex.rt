// Takes tokens off a line, and tells where one is not what was expected.
ghost use Rattle.std.specs.Prelude.{◌≡◌, ◌+◌, ◌-◌, ◌≤◌, length, drop};
ghost use Rattle.std.specs.List.{prefix_len};
ghost use Rattle.notation.specs.Places.{ahead, Stands};
ghost use Rattle.notation.specs.Reads.{stop, Tells};
ghost use Rattle.notation.specs.Tokens.{blank, wordy, first_len, tokens, first, others};

use crate::cursor::{Cursor, Slip};
use misreading::Misread;

fn is_blank(b: u8) -> bool
    ensures { result ≡ blank b }
{
    b == b' ' || b == b'\t' || b == b'\r'
}

fn is_wordy(b: u8) -> bool
    ensures { result ≡ wordy b }
{
    b.is_ascii_alphanumeric() || b == b'_'
}

// How many blanks a text begins with.
fn blanks(text: &[u8]) -> usize
    ensures value { result ≡ prefix_len blank text.now }
    ensures within { result ≤ length text.now }
{
    text.iter().take_while(|b| is_blank(**b)).count()
}

// How many bytes of a word a text begins with.
fn word_len(text: &[u8]) -> usize
    ensures value { result ≡ prefix_len wordy text.now }
    ensures within { result ≤ length text.now }
{
    text.iter().take_while(|b| is_wordy(**b)).count()
}

// How long the token is that a text begins with; where it is empty there is none.
fn token_len(text: &[u8]) -> usize
    ensures value { result ≡ first_len text.now }
    ensures within { result ≤ length text.now }
{
    match text {
        [b, ..] if !is_wordy(*b) => 1,
        _ => word_len(text),
    }
}

// A token: its column, which counts from 1, and where it ends; at the end of the line it is empty.
#[derive(Clone, Copy)]
pub struct Token<'a> {
    pub column: usize,
    pub text: &'a [u8],
    pub end: usize,
}

impl<'a> Cursor<'a> {
    // The next token.
    pub fn token(&self) -> Token<'a>
        ensures place { Stands self.now.line.now result.column result.text.now }
        ensures left { tokens (drop (result.column - 1) self.now.line.now) ≡ ahead self.now }
        ensures value { result.text.now ≡ first (ahead self.now) }
        ensures ends { result.end + 1 ≡ result.column + length result.text.now }
        ensures within { result.end ≤ length self.now.line.now }
        ensures after { tokens (drop result.end self.now.line.now) ≡ others (ahead self.now) }
    {
        let start = self.at + blanks(&self.line[self.at..]);
        let end = start + token_len(&self.line[start..]);
        Token {
            column: start + 1,
            text: &self.line[start..end],
            end,
        }
    }

    // What is said of the next token, where this is wrong with it.
    pub fn misread(&self, slip: Slip) -> Misread<'a>
        ensures tells { Tells self.now.line.now result (stop slip (ahead self.now)) }
    {
        let token = self.token();
        Misread {
            column: token.column,
            expected: slip.expected,
            found: token.text,
            refusal: slip.refusal,
        }
    }
}
