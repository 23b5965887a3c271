// The instructions of a record.
use anyhow::anyhow;
use armv7::{Call, Instruction};
use record::{Message, read_line};
use std::alloc::Global;

// The instructions of a whole record, with its gaps passed over; it ends at a line that cannot be read.
pub(crate) fn of(heap: Global, record: &[u8]) -> anyhow::Result<Vec<Instruction>> {
    let mut instructions = Vec::new(heap);
    for (text, line) in record.split(|b| *b == b'\n').zip(1..) {
        match read_line(text) {
            Ok(Some(Call::Print(instruction))) => instructions.push(instruction)?,
            Ok(_) => {}
            Err(misread) => {
                let message = Message { line, misread };
                return Err(anyhow!("{message}"));
            }
        }
    }
    Ok(instructions)
}
