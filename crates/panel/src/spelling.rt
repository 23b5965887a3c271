// The manual's spelling of an instruction.
use armv7::Instruction;
use manual::visit_manual;
use sink::TextSink;
use std::alloc::AllocError;
use std::fmt::Write;
use wording::Characters;

// The longest manual line is shorter.
const LINE: usize = 512;

// A line behind a word that says that it is the manual's.
fn push_line(text: &mut String, line: &[u8]) -> Result<(), AllocError> {
    write!(text, "  manual: {}", Characters(line))
}

// The manual line; nothing of an instruction that has none.
pub(crate) fn push_manual(text: &mut String, instruction: &Instruction) -> Result<(), AllocError> {
    let mut memory = [0u8; LINE];
    let mut out = TextSink::new(&mut memory);
    if visit_manual(instruction, &mut out).is_err() {
        return Ok(());
    }
    push_line(text, out.text())
}
