// Laws of all lines, and the fields of a block transfer.
#![tactic(auto)]

ghost use Rattle.blocks.specs.Bounds.{BoundedLines};
ghost use Rattle.blocks.specs.Grammar.{OneSheet, OneWord};
ghost use Rattle.blocks.specs.Pages.{PagesCut};
ghost use Rattle.blocks.specs.Sheets.{OwnSheets};
ghost use Rattle.blocks.specs.Worked.{WorkedSheets};

pub mod fields;
pub mod transfer;

// A line has at most 285 bytes and 130 marks, no byte that ends a line, and spans that are closed in it.
pub fn lines_are_bounded()
    ensures bounded { BoundedLines }
{}

// Lines that stand one below the other are cut apart again in one way only.
pub fn lines_are_cut_apart()
    ensures cut_apart { PagesCut }
{}

// A name with its suffixes is read in one way only.
pub fn one_reading_to_a_word()
    ensures one_reading { OneWord }
{}

// No two sheets share a line.
pub fn one_sheet_to_a_line()
    ensures one_sheet { OneSheet }
{}

// The line of an instruction that is printed fits its own sheet, and no other.
pub fn lines_fit_their_own_sheets()
    ensures own_sheets { OwnSheets }
{}

// The worked lines fit their sheets.
pub fn worked_sheets_hold()
    ensures worked_sheets { WorkedSheets }
{}
