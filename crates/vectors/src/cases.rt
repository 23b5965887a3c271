// The stored cases, read one after the other.
ghost use Rattle.std.specs.Prelude.{Err};
ghost use Rattle.record.specs.Law.{Answered};

use crate::difference::{Difference, Seen};
use crate::judge::{Answer, Verdict, judge};
use armv7::{Call, Fault};
use record::{Misread, read_line};
use std::alloc::{AllocError, Global};
use std::str;

// As many shift words as an instruction can have.
const OPERANDS: usize = 4;

// The shift word that the original takes the number for: the low twelve bits, and bit 7 unset where a register shifts.
// Kept: how the original reads a number, apart from RegShift::word: no RegShift is made of a number that is no shift word.
fn shift_word_in(number: u16) -> u16 {
    let low = number % 4096;
    if low / 16 % 2 == 1 && low / 128 % 2 == 1 {
        low - 128
    } else {
        low
    }
}

// The number that stands for no shift word, if that is what cannot be read.
fn bad_word(misread: &Misread<'_>) -> Option<u16> {
    match misread.refusal {
        Some(Fault::ShiftWord) => str::from_utf8(misread.found).ok()?.parse().ok(),
        _ => None,
    }
}

// The line with another number where it cannot be read.
fn with_word(
    heap: Global,
    line: &[u8],
    misread: &Misread<'_>,
    word: u16,
) -> Result<Vec<u8>, AllocError>
    requires { Answered line.now (Err misread.now) }
{
    let start = misread.column - 1;
    let end = start + misread.found.len();
    let number = format!(in heap; "{word}")?;
    let mut text = Vec::from_slice(heap, &line[..start])?;
    text.extend_from_slice(number.as_bytes())?;
    text.extend_from_slice(&line[end..])?;
    Ok(text)
}

// The line with shift words where numbers stand that are none, and whether there were any.
fn with_shift_words(heap: Global, line: &[u8]) -> Result<(Vec<u8>, Seen), AllocError> {
    let mut text = Vec::from_slice(heap, line)?;
    let mut seen = Seen::nothing();
    for _ in 0..OPERANDS {
        let Err(misread) = read_line(text.as_slice()) else {
            break;
        };
        let Some(number) = bad_word(&misread) else {
            break;
        };
        text = with_word(heap, text.as_slice(), &misread, shift_word_in(number))?;
        seen.add(Difference::ShiftWord);
    }
    Ok((text, seen))
}

pub(crate) fn judge_case(
    heap: Global,
    line: &[u8],
    answer: Answer<'_>,
) -> Result<Verdict, AllocError> {
    let (text, seen) = with_shift_words(heap, line)?;
    match read_line(text.as_slice()) {
        Ok(Some(Call::Print(instruction))) => judge(heap, &instruction, answer, seen),
        _ => Ok(Verdict::Unexplained),
    }
}
