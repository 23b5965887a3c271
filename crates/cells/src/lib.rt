// A sink on lent cells: each cell is a byte with the ink that it is shown in.
#![tactic(auto)]

ghost use Rattle.cells.specs.InkedLines.{LinesAreInked};
ghost use Rattle.cells.specs.Worked.{WorkedInks};

pub mod cell;
pub mod painting;

pub use cell::{Cell, Ink};
pub use painting::CellSink;

// Worked inks, proved of the definition that the contracts cite.
pub fn worked_inks_hold()
    ensures worked { WorkedInks }
{}

// The ink of every line, and what a sink of plain ink holds once a line was printed to it, whole or in part.
pub fn lines_are_inked()
    ensures inked_lines { LinesAreInked }
{}
