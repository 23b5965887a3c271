// The page of a record: every call is made on it, and it is closed.
use crate::options::Options;
use armv7::{Call, Instruction};
use display::visit_inst;
use measure::measure;
use page::Entry;
use runs::run;
use sink::{Mark, MarkSink};
use std::alloc::{AllocError, Global};
use wording::Characters;

#[derive(Drop)]
pub struct Printed {
    pub text: String,
    pub marks: Vec<Mark>,
    pub count: u64,
}

// The longest line has 285 bytes, and 130 marks.
const LINE: usize = 285;

const MARKS: usize = 130;

// How many bytes a call takes of a page that has room for it.
fn bytes_of(call: &Call) -> usize {
    match call {
        Call::Print(instruction) => {
            measure(instruction).map_or(0, |size| size.saturating_add(1))
        }
        Call::Gap => 1,
    }
}

fn line_marks(instruction: &Instruction) -> usize {
    let mut memory = [0u8; LINE];
    let mut row = [Mark::BLANK; MARKS];
    let mut out = MarkSink::new(&mut memory, &mut row);
    let _ = visit_inst(instruction, &mut out);
    out.marks().len()
}

fn marks_of(call: &Call) -> usize {
    match call {
        Call::Print(instruction) => line_marks(instruction),
        Call::Gap => 0,
    }
}

// The room that all calls take together.
fn room_for<F: Fn(&Call) -> usize>(entries: &[Entry], of: F) -> usize
    requires { (f : _) (call : _) → F.pre f call }
{
    entries
        .iter()
        .map(|entry| of(&entry.call))
        .fold(0, usize::saturating_add)
}

// Makes every call on a page with the room that was asked for, or with room for all of them.
pub(crate) fn on_page(
    heap: Global,
    entries: &mut [Entry],
    options: &Options,
) -> Result<Printed, AllocError> {
    let bytes = options.room.unwrap_or_else(|| room_for(entries, bytes_of));
    let edges = if options.marks {
        room_for(entries, marks_of)
    } else {
        0
    };
    let mut memory = vec![in heap; 0u8; bytes]?;
    let mut marks = vec![in heap; Mark::BLANK; edges]?;
    let closed = run(
        MarkSink::new(memory.as_mut_slice(), marks.as_mut_slice()),
        entries,
    );
    let count = closed.count();
    let (len, kept) = closed.end().end();
    memory.truncate(len);
    marks.truncate(kept);
    Ok(Printed {
        text: Characters(memory.as_slice()).to_string(heap)?,
        marks,
        count,
    })
}
