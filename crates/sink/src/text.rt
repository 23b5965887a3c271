// A sink that holds text in lent bytes, and no marks.
ghost use Rattle.std.specs.Prelude.{◌≡◌, ◌≤◌, length, take};
ghost use Rattle.sink.specs.Meaning.{with_room};

use crate::lent::append;
use crate::sink::{DisplaySink, RoomSink};
use armv7::Fault;

// The first `len` of the lent bytes are the text.
// Kept: the bytes and their count are two fields, as lent.rt says.
#[derive(Drop)]
pub struct TextSink<'a> {
    buf: &'a mut [u8],
    len: usize,
    ghost within: { len ≤ length buf.now },
}

impl<'a> TextSink<'a> {
    ghost use Rattle.sink.specs.TextSinks.{text_meaning};

    // A sink with no text yet, and as much room as there are bytes.
    pub fn new(buf: &'a mut [u8]) -> TextSink<'a>
        ensures empty { text_meaning result ≡ with_room (length buf.old) 0 }
        ensures memory { (result.buf.now ≡ buf.old) × (result.buf.ghost_name ≡ buf.entry.ghost_name) }
    {
        TextSink { buf, len: 0 }
    }

    // The text so far.
    pub fn text(&self) -> &[u8]
        ensures value { result.now ≡ (text_meaning self.now).text }
    {
        &self.buf[..self.len]
    }

    // Gives the memory back, and answers how many of its bytes are the text.
    pub fn end(self) -> usize
        ensures memory { self.exit.0.now ≡ self.entry.buf.now }
        ensures text { take result self.entry.buf.now ≡ (text_meaning self.entry).text }
        ensures value { result ≡ length (text_meaning self.entry).text }
        ensures within { result ≤ length self.exit.0.now }
    {
        self.len
    }
}

impl DisplaySink for TextSink<'_> {
    ghost use Rattle.sink.specs.TextSinks.{text_sink};

    ghost sink = { text_sink };

    // Inline, so that a fixed piece is a store.
    #[inline(always)]
    fn write(&mut self, piece: &[u8]) -> Result<(), Fault> {
        append(self.buf, &mut self.len, piece)
    }

    fn span_start_opcode(&mut self) {}

    fn span_end_opcode(&mut self) {}

    fn span_start_register(&mut self) {}

    fn span_end_register(&mut self) {}
}

impl RoomSink for TextSink<'_> {
    fn room(&self) -> usize {
        self.buf.len() - self.len
    }
}
