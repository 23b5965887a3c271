// The calls of a record, each with the number of its line, and what is said of lines that could not be read.
use armv7::Call;
use page::Entry;
use record::{Message, read_line};
use std::alloc::{AllocError, Global};
use wording::Misreadings;

// Kept: the lines stand beside the entries, since `run` takes a slice of entries alone.
#[derive(Drop)]
pub struct Calls {
    // The line that each call stands on.
    pub lines: Vec<u64>,
    // Each call, with the page's answer once it is made.
    pub entries: Vec<Entry>,
    pub misreadings: Misreadings,
}

impl Calls {
    fn add(&mut self, line: u64, call: Call) -> Result<(), AllocError> {
        self.lines.push(line)?;
        self.entries.push(Entry {
            call,
            answer: Ok(0),
        })?;
        Ok(())
    }

    // The line of the record with this number.
    fn read(&mut self, heap: Global, line: u64, text: &[u8]) -> Result<(), AllocError> {
        match read_line(text) {
            Ok(None) => Ok(()),
            Ok(Some(call)) => self.add(line, call),
            Err(misread) => {
                let message = Message { line, misread }.to_string(heap)?;
                self.misreadings.add(heap, message.as_str())
            }
        }
    }
}

// The calls of a whole record; byte 10 ends a line. What is left behind the last one may be empty, and then is no call.
pub(crate) fn of(heap: Global, record: &[u8]) -> Result<Calls, AllocError> {
    let mut calls = Calls {
        lines: Vec::new(heap),
        entries: Vec::new(heap),
        misreadings: Misreadings::none(heap),
    };
    for (text, line) in record.split(|b| *b == b'\n').zip(1..) {
        calls.read(heap, line, text)?;
    }
    Ok(calls)
}
