// A sink that holds text in lent cells, each byte with the ink of the spans around it, and no marks.
ghost use Rattle.std.specs.Prelude.{◌≡◌, ◌-◌, ◌≤◌, ◌++◌, length, take};
ghost use Rattle.sink.specs.Lent.{Filled};
ghost use Rattle.sink.specs.Meaning.{with_room, Marks};
ghost use Rattle.sink.specs.Outcome.{outcome, full_below};
ghost use Rattle.cells.specs.Inks.{ink_number, next_ink, painted};

use crate::cell::{Cell, Ink};
use armv7::Fault;
use sink::lent::push;
use sink::{DisplaySink, Edge, RoomSink, Span};

// The first `len` of the lent cells are the text, and the next one gets the ink.
// Kept: the cells and their count are two fields, as `sink::lent` says.
#[derive(Drop)]
pub struct CellSink<'a> {
    cells: &'a mut [Cell],
    len: usize,
    ink: Ink,
    ghost within: { len ≤ length cells.now },
}

// Puts as much of the piece as there is room for behind the first `used` cells, in one ink, counts it to them, and refuses a piece
// that is longer.
fn paint(cells: &mut [Cell], used: &mut usize, ink: Ink, piece: &[u8]) -> Result<(), Fault>
    requires { used.old ≤ length cells.old }
    ensures within { used.new ≤ length cells.new }
    ensures text { take used.new cells.new ≡ take used.old cells.old ++ painted ink (take (length cells.old - used.old) piece.now) }
    ensures rest { Filled cells.old used.old cells.new used.new }
    ensures answer { outcome result ≡ full_below (length cells.old - used.old) (length piece.now) }
{
    for byte in piece {
        push(cells, used, Cell { byte: *byte, ink })?;
    }
    Ok(())
}

impl<'a> CellSink<'a> {
    ghost use Rattle.cells.specs.CellSinks.{cells_of, cell_meaning, cell_sink};

    // A sink with no text yet, as much room as there are cells, and plain ink.
    pub fn new(cells: &'a mut [Cell]) -> CellSink<'a>
        ensures empty { cell_meaning result ≡ with_room (length cells.old) 0 }
        ensures plain { ink_number result.ink ≡ 0 }
        ensures memory { (result.cells.now ≡ cells.old) × (result.cells.ghost_name ≡ cells.entry.ghost_name) }
    {
        CellSink {
            cells,
            len: 0,
            ink: Ink::Plain,
        }
    }

    // The cells of the text so far.
    pub fn cells(&self) -> &[Cell]
        ensures value { result.now ≡ cells_of self.now }
    {
        &self.cells[..self.len]
    }

    // Gives the cells back, and answers how many of them are the text.
    pub fn end(self) -> usize
        ensures memory { self.exit.0.now ≡ self.entry.cells.now }
        ensures text { take result self.entry.cells.now ≡ cells_of self.entry }
        ensures value { result ≡ length (cell_meaning self.entry).text }
        ensures within { result ≤ length self.exit.0.now }
    {
        self.len
    }

    // The ink after an edge of a span: a start sets its kind's, and an end sets plain if the ink is its kind's.
    // Kept: the match on the ink and the edge together, by a rule of the project (docs/DECISIONS.md).
    fn turn(&mut self, edge: Edge, span: Span)
        ensures ink { self.new.ink ≡ next_ink self.old.ink edge span }
        ensures cells { (self.new.cells ≡ self.old.cells) × (self.new.len ≡ self.old.len) }
    {
        self.ink = match (self.ink, edge, span) {
            (_, Edge::Start, Span::Opcode) => Ink::Opcode,
            (_, Edge::Start, Span::Register) => Ink::Register,
            (Ink::Opcode, Edge::End, Span::Opcode) => Ink::Plain,
            (Ink::Register, Edge::End, Span::Register) => Ink::Plain,
            (ink, Edge::End, _) => ink,
        };
    }

    // What an edge of a span does: the ink turns, and the text stays.
    fn pass(&mut self, edge: Edge, span: Span)
        ensures marked { Marks cell_sink edge span self.old self.new }
    {
        self.turn(edge, span);
    }
}

impl DisplaySink for CellSink<'_> {
    ghost use Rattle.cells.specs.CellSinks.{cell_sink};

    ghost sink = { cell_sink };

    fn write(&mut self, piece: &[u8]) -> Result<(), Fault> {
        paint(self.cells, &mut self.len, self.ink, piece)
    }

    fn span_start_opcode(&mut self) {
        self.pass(Edge::Start, Span::Opcode);
    }

    fn span_end_opcode(&mut self) {
        self.pass(Edge::End, Span::Opcode);
    }

    fn span_start_register(&mut self) {
        self.pass(Edge::Start, Span::Register);
    }

    fn span_end_register(&mut self) {
        self.pass(Edge::End, Span::Register);
    }
}

impl RoomSink for CellSink<'_> {
    fn room(&self) -> usize {
        self.cells.len() - self.len
    }
}
