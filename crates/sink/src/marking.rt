// A sink that holds text in lent bytes, and marks in a lent row.
ghost use Rattle.std.specs.Prelude.{◌≡◌, ◌≤◌, length, take};
ghost use Rattle.sink.specs.Meaning.{with_room, Marks};

use crate::lent::{append, push};
use crate::sink::{DisplaySink, Edge, Mark, RoomSink, Span};
use armv7::Fault;

// The first `len` of the lent bytes are the text, and the first `count` of the row are the marks.
// Kept: the bytes and their count are two fields, as are the row and its count, as lent.rt says.
#[derive(Drop)]
pub struct MarkSink<'a> {
    buf: &'a mut [u8],
    len: usize,
    ghost within: { len ≤ length buf.now },
    row: &'a mut [Mark],
    count: usize,
    ghost row_within: { count ≤ length row.now },
}

impl<'a> MarkSink<'a> {
    ghost use Rattle.sink.specs.MarkSinks.{mark_meaning, mark_sink};

    // A sink with no text and no marks yet, with as much room as there are bytes, and for as many marks as the row is long.
    pub fn new(buf: &'a mut [u8], row: &'a mut [Mark]) -> MarkSink<'a>
        ensures empty { mark_meaning result ≡ with_room (length buf.old) (length row.old) }
        ensures memory { (result.buf.now ≡ buf.old) × (result.buf.ghost_name ≡ buf.entry.ghost_name) }
        ensures row { (result.row.now ≡ row.old) × (result.row.ghost_name ≡ row.entry.ghost_name) }
    {
        MarkSink {
            buf,
            len: 0,
            row,
            count: 0,
        }
    }

    // The text so far.
    pub fn text(&self) -> &[u8]
        ensures value { result.now ≡ (mark_meaning self.now).text }
    {
        &self.buf[..self.len]
    }

    // The marks so far.
    pub fn marks(&self) -> &[Mark]
        ensures value { result.now ≡ (mark_meaning self.now).marks }
    {
        &self.row[..self.count]
    }

    // Gives the memory back, and answers how many of its bytes are the text, and how many of its row are marks.
    pub fn end(self) -> (usize, usize)
        ensures memory { self.exit.0.now ≡ self.entry.buf.now }
        ensures row { self.exit.1.1.0.now ≡ self.entry.row.now }
        ensures text { take result.0 self.entry.buf.now ≡ (mark_meaning self.entry).text }
        ensures marks { take result.1 self.entry.row.now ≡ (mark_meaning self.entry).marks }
        ensures value { (result.0 ≡ length (mark_meaning self.entry).text) × (result.1 ≡ length (mark_meaning self.entry).marks) }
        ensures within { (result.0 ≤ length self.exit.0.now) × (result.1 ≤ length self.exit.1.1.0.now) }
    {
        (self.len, self.count)
    }

    // One mark more at the end of the text, where the row has a place for it.
    fn mark(&mut self, edge: Edge, span: Span)
        ensures marked { Marks mark_sink edge span self.old self.new }
    {
        let at = self.len;
        let _ = push(self.row, &mut self.count, Mark { edge, span, at });
    }
}

impl DisplaySink for MarkSink<'_> {
    ghost use Rattle.sink.specs.MarkSinks.{mark_sink};

    ghost sink = { mark_sink };

    fn write(&mut self, piece: &[u8]) -> Result<(), Fault> {
        append(self.buf, &mut self.len, piece)
    }

    fn span_start_opcode(&mut self) {
        self.mark(Edge::Start, Span::Opcode);
    }

    fn span_end_opcode(&mut self) {
        self.mark(Edge::End, Span::Opcode);
    }

    fn span_start_register(&mut self) {
        self.mark(Edge::Start, Span::Register);
    }

    fn span_end_register(&mut self) {
        self.mark(Edge::End, Span::Register);
    }
}

impl RoomSink for MarkSink<'_> {
    fn room(&self) -> usize {
        self.buf.len() - self.len
    }
}
