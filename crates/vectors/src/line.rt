// A line with its marks, as it can be edited and compared.
use crate::difference::{Difference, Seen};
use sink::{Edge, Mark, Span};
use std::alloc::{AllocError, Global};
use std::fmt;
use std::fmt::Write;

#[derive(Drop)]
pub struct Line {
    pub text: Vec<u8>,
    pub marks: Vec<Mark>,
}

// A line and its marks, as they are stored.
#[derive(Clone, Copy)]
pub struct Stored<'a> {
    pub text: &'a str,
    pub marks: &'a str,
}

// Bytes that are shown as the stored answers have them.
// Kept: beside misreading's form of bytes, which shows a backslash as it is: a stored answer writes it by its number too.
#[derive(Clone, Copy)]
struct Text<'a>(&'a [u8]);

impl fmt::Display for Text<'_> {
    fn fmt<W: fmt::Write>(&self, f: &mut fmt::Formatter<W>) -> fmt::Result {
        f.write_str("= ")?;
        for b in self.0 {
            match *b {
                b @ b' '..=b'~' if b != b'\\' => f.write_char(char::from(b))?,
                b => write!(f, "\\x{b:02x}")?,
            }
        }
        Ok(())
    }
}

// Marks that are shown as the stored answers have them.
#[derive(Clone, Copy)]
struct Marks<'a>(&'a [Mark]);

impl fmt::Display for Marks<'_> {
    fn fmt<W: fmt::Write>(&self, f: &mut fmt::Formatter<W>) -> fmt::Result {
        f.write_str("m")?;
        for mark in self.0 {
            let edge = match mark.edge {
                Edge::Start => 's',
                Edge::End => 'e',
            };
            let span = match mark.span {
                Span::Opcode => 'o',
                Span::Register => 'r',
            };
            write!(f, " {edge}{span}{}", mark.at)?;
        }
        Ok(())
    }
}

impl Line {
    // Where the word ends: the second mark is the end of its span.
    pub(crate) fn word_end(&self) -> usize {
        match self.marks.as_slice() {
            [_, end, ..] => end.at,
            _ => 0,
        }
    }

    // Where the piece stands first from `from` on, if it does.
    pub(crate) fn find(&self, from: usize, piece: &[u8]) -> Option<usize> {
        (from..self.text.len()).find(|at| self.stands(*at, piece))
    }

    fn stands(&self, at: usize, piece: &[u8]) -> bool {
        self.text
            .get(at..)
            .is_some_and(|rest| rest.starts_with(piece))
    }

    fn move_marks(&mut self, from: usize, gone: usize, come: usize) {
        for mark in self.marks.iter_mut() {
            if mark.at > from {
                mark.at = mark.at.saturating_sub(gone).saturating_add(come);
            }
        }
    }
}

// The printer's line on its way to the original's, with the differences that were seen on it.
#[derive(Drop)]
pub struct Draft {
    pub heap: Global,
    pub line: Line,
    pub seen: Seen,
}

impl Draft {
    // Whether the line is stored so.
    pub(crate) fn is_stored(&self, stored: Stored<'_>) -> Result<bool, AllocError> {
        let text = Text(self.line.text.as_slice()).to_string(self.heap)?;
        let marks = Marks(self.line.marks.as_slice()).to_string(self.heap)?;
        Ok(text.as_str() == stored.text && marks.as_str() == stored.marks)
    }

    // Puts `theirs` where `ours` stands at `at`; false if something else stands there. Marks behind that place move along.
    pub(crate) fn put(
        &mut self,
        at: usize,
        ours: &[u8],
        theirs: &[u8],
    ) -> Result<bool, AllocError> {
        let text = self.line.text.as_slice();
        let Some((front, rest)) = text.split_at_checked(at) else {
            return Ok(false);
        };
        let Some(behind) = rest.strip_prefix(ours) else {
            return Ok(false);
        };
        let mut edited = Vec::from_slice(self.heap, front)?;
        edited.extend_from_slice(theirs)?;
        edited.extend_from_slice(behind)?;
        self.line.text = edited;
        self.line.move_marks(at, ours.len(), theirs.len());
        Ok(true)
    }

    // The same, which shows the difference if `ours` stands there.
    pub(crate) fn rewrite(
        &mut self,
        at: usize,
        ours: &[u8],
        theirs: &[u8],
        difference: Difference,
    ) -> Result<(), AllocError> {
        if self.put(at, ours, theirs)? {
            self.seen.add(difference);
        }
        Ok(())
    }

    // Takes out the two marks behind those of the word.
    pub(crate) fn drop_first_register(&mut self) -> Result<(), AllocError> {
        let marks = self.line.marks.as_slice();
        let kept = marks.iter().take(2).chain(marks.iter().skip(4));
        self.line.marks = kept.copied().collect(self.heap)?;
        Ok(())
    }
}
