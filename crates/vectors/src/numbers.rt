// Codes and distances as the original writes them.
use crate::difference::Difference;
use crate::family::{Style, small, style_of};
use crate::line::Draft;
use armv7::Operand;
use kind::Codes;
use lines::is_nothing;
use std::alloc::{AllocError, Global};

// The printer's text of a code, which is 0 in the repaired instruction if it is above 15.
fn ours_of(heap: Global, code: u8) -> Result<String, AllocError> {
    format!(in heap; "{}", small(code))
}

// The original's: the character 48 past the code, or 1 and the one 38 past it.
fn theirs_of(heap: Global, style: Style, code: u8) -> Result<String, AllocError> {
    match style {
        Style::Teens if code > 9 => format!(in heap; "1{}", char::from(code.wrapping_add(38))),
        _ => format!(in heap; "{}", char::from(code.wrapping_add(48))),
    }
}

impl Draft {
    // Rewrites the code that stands at `at`.
    fn code_as_written(&mut self, style: Style, code: u8, at: usize) -> Result<(), AllocError> {
        let ours = ours_of(self.heap, code)?;
        let theirs = theirs_of(self.heap, style, code)?;
        let put = self.put(at, ours.as_bytes(), theirs.as_bytes())?;
        if put && code < 16 && ours.as_str() != theirs.as_str() {
            self.seen.add(Difference::CodeAboveNine);
        }
        Ok(())
    }

    // Where the second code stands: behind `p`, the first and `, `.
    fn second_at(&self, first: u8) -> Result<usize, AllocError> {
        let before = format!(in self.heap; " p{}, ", small(first))?;
        Ok(self.line.word_end().saturating_add(before.len()))
    }

    // From the right to the left, so that no place has moved when it is needed.
    fn each_code_as_written(&mut self, codes: Codes) -> Result<(), AllocError> {
        let style = style_of(codes);
        if let Some(third) = codes.third {
            let ours = ours_of(self.heap, third)?;
            let at = self.line.text.len().saturating_sub(ours.len());
            self.code_as_written(style, third, at)?;
        }
        if let Some(second) = codes.second {
            let at = self.second_at(codes.coprocessor)?;
            self.code_as_written(style, second, at)?;
        }
        let at = self.line.word_end().saturating_add(2);
        self.code_as_written(style, codes.coprocessor, at)
    }

    // Takes out the two codes, with what joins them to what follows.
    fn without_codes(&mut self, first: u8, second: u8) -> Result<bool, AllocError> {
        let at = self.line.word_end();
        let alone = format!(in self.heap; " p{}, {}", small(first), small(second))?;
        let joined = format!(in self.heap; "{alone}, ")?;
        Ok(self.put(at, joined.as_bytes(), b" ")? || self.put(at, alone.as_bytes(), b"")?)
    }

    pub(crate) fn codes_as_written(&mut self, codes: Codes) -> Result<(), AllocError> {
        match (style_of(codes), codes.second) {
            (Style::Unwritten, Some(second)) => {
                if self.without_codes(codes.coprocessor, second)? {
                    self.seen.add(Difference::PairCodes);
                }
                Ok(())
            }
            _ => self.each_code_as_written(codes),
        }
    }

    // The distances that go too far, which are 0 in the repaired instruction: the branches have the signs `$` in their order.
    pub(crate) fn far_branches(&mut self, operands: [Operand; 4]) -> Result<(), AllocError> {
        let mut from = 0;
        let reached = operands.iter().take_while(|operand| !is_nothing(**operand));
        for (distance, scale) in reached.filter_map(|operand| branch_in(*operand)) {
            let Some(at) = self.line.find(from, b"$") else {
                break;
            };
            if distance.checked_mul(scale).is_none() {
                let text = wrapped(self.heap, distance, scale)?;
                let _ = self.put(at, b"$+0x0", text.as_bytes())?;
            }
            from = at.saturating_add(1);
        }
        Ok(())
    }
}

// What is left of the scaled distance in 32 bits, with the sign of the distance itself before it.
fn wrapped(heap: Global, distance: i32, scale: i32) -> Result<String, AllocError> {
    let scaled = distance.wrapping_mul(scale);
    let size = scaled.unsigned_abs();
    let plus = if distance < 0 { "" } else { "+" };
    let minus = if scaled < 0 { "-" } else { "" };
    format!(in heap; "${plus}{minus}0x{size:x}")
}

// The distance of a branch, and how many bytes a step of it has.
pub(crate) fn branch_in(operand: Operand) -> Option<(i32, i32)> {
    match operand {
        Operand::BranchOffset(distance) => Some((distance, 4)),
        Operand::BranchThumbOffset(distance) => Some((distance, 2)),
        _ => None,
    }
}
