// A printed line in colour, from the inks of its cells.
use armv7::Instruction;
use cells::{Cell, CellSink, Ink};
use display::visit_inst;
use std::alloc::AllocError;

// The longest line has 285 bytes.
const LINE: usize = 512;

const BLANK: Cell = Cell {
    byte: 0,
    ink: Ink::Plain,
};

// What turns a terminal to an ink: opcodes are yellow, and registers are cyan.
fn turn_to(ink: Ink) -> &'static str {
    match ink {
        Ink::Plain => "\x1b[0m",
        Ink::Opcode => "\x1b[33m",
        Ink::Register => "\x1b[36m",
    }
}

// The bytes of the cells, with a turn wherever the ink changes; what follows is plain.
fn push_cells(text: &mut String, cells: &[Cell]) -> Result<(), AllocError> {
    let mut ink = Ink::Plain;
    for cell in cells {
        if cell.ink != ink {
            ink = cell.ink;
            text.push_str(turn_to(ink))?;
        }
        text.push(char::from(cell.byte))?;
    }
    if ink != Ink::Plain {
        text.push_str(turn_to(Ink::Plain))?;
    }
    Ok(())
}

// The line of an instruction, in colour; nothing of one that is refused.
pub(crate) fn push_coloured(
    text: &mut String,
    instruction: &Instruction,
) -> Result<(), AllocError> {
    let mut memory = [BLANK; LINE];
    let mut out = CellSink::new(&mut memory);
    if visit_inst(instruction, &mut out).is_err() {
        return Ok(());
    }
    push_cells(text, out.cells())
}
