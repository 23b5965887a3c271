// A byte of text and its ink.
ghost use Rattle.std.specs.Prelude.{◌≡◌};
ghost use Rattle.cells.specs.Inks.{ink_number};

// What a byte is shown in: that of a span's kind, or none.
#[derive(Clone, Copy, PartialEq, Eq)]
pub enum Ink {
    Plain,
    Opcode,
    Register,
}

#[derive(Clone, Copy, PartialEq, Eq)]
pub struct Cell {
    pub byte: u8,
    pub ink: Ink,
}

impl Ink {
    // 0 is plain, 1 is an opcode's and 2 a register's.
    // Kept: which number an ink has is a rule of the project.
    pub fn number(&self) -> u8
        ensures value { result ≡ ink_number self.now }
    {
        *self as u8
    }
}
