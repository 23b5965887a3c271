// What a sink is: its meaning, and what each call does to that.
ghost use Rattle.std.specs.Prelude.{◌≡◌};
ghost use Rattle.sink.specs.declared.sink.Edge.TheVariants.{Start, End};
ghost use Rattle.sink.specs.declared.sink.Span.TheVariants.{Opcode, Register};
ghost use Rattle.sink.specs.Meaning.{SinkOf, room as room_of, Appends, Marks};

use armv7::Fault;

// An end of a span of text.
#[derive(Clone, Copy, PartialEq, Eq)]
pub enum Edge {
    Start,
    End,
}

// What a span of text stands for.
#[derive(Clone, Copy, PartialEq, Eq)]
pub enum Span {
    Opcode,
    Register,
}

// An edge, with the length of the text where it falls.
#[derive(Clone, Copy, PartialEq, Eq)]
pub struct Mark {
    pub edge: Edge,
    pub span: Span,
    pub at: usize,
}

impl Mark {
    // What a row of marks is filled with at first.
    pub const BLANK: Mark = Mark {
        edge: Edge::Start,
        span: Span::Opcode,
        at: 0,
    };
}

// Kept: the calls are those of the interface that the original prints to, by a rule of the project.
pub trait DisplaySink {
    // What such a sink is: what it holds, what it keeps of each row of items that it was handed, and the laws of both.
    ghost sink: { SinkOf Self };

    // Appends as much of the piece as there is room for, and refuses a piece that is longer.
    fn write(&mut self, piece: &[u8]) -> Result<(), Fault>
        ensures appended { Appends sink piece.now self.old result self.new };

    fn span_start_opcode(&mut self)
        ensures marked { Marks sink Start Opcode self.old self.new };

    fn span_end_opcode(&mut self)
        ensures marked { Marks sink End Opcode self.old self.new };

    fn span_start_register(&mut self)
        ensures marked { Marks sink Start Register self.old self.new };

    fn span_end_register(&mut self)
        ensures marked { Marks sink End Register self.old self.new };
}

// A sink that tells how many bytes more it takes.
pub trait RoomSink: DisplaySink {
    fn room(&self) -> usize
        ensures room { result ≡ room_of (Self.DisplaySink.sink.meaning self.now) };
}
