// The sizes of the rows behind a word, each with the comma and the blank before it.
ghost use Rattle.std.specs.Prelude.{◌≡◌, ◌≤◌, [], ◌∷◌, ◌++◌, map, length};
ghost use Rattle.kind.specs.Kinds.{optional};
ghost use Rattle.sink.specs.Items.{bytes};
ghost use Rattle.visitor.specs.Operands.{operand_items};
ghost use Rattle.visitor.specs.Texts.{list_items, followed};
ghost use Rattle.lines.specs.Admission.{HasText};
ghost use Rattle.lines.specs.Lines.{block_rows as rows_of_block, code_row, code_rows, flag_row, mode_rows, stack_row as row_on_stack};
ghost use Rattle.lines.specs.Forms.{rows_of};

use armv7::Operand;
use kind::Codes;
use lines::{Block, Form, Reached, Stacked};
use measurer::{decimal_size, flag_size, measure};

// The measurer refuses only what has no text.
fn operand_size(operand: Operand) -> usize
    requires text { HasText operand }
    ensures value { result ≡ length (bytes (operand_items operand)) }
    ensures bound { result ≤ 65 }
{
    measure(&operand).unwrap()
}

fn operand_rows(reached: Reached<'_>) -> usize
    ensures value { result ≡ length (bytes (followed (map operand_items reached.entry.operands.now))) }
    ensures bound { result ≤ 268 }
{
    let mut size = 0;
    for index in 0..reached.operands.len() {
        size += 2 + operand_size(reached.operands[index]);
    }
    size
}

// A code, where there is one.
fn code_row_size(code: Option<u8>) -> usize
    ensures value { result ≡ length (bytes (followed (map code_row (optional code)))) }
    ensures bound { result ≤ 4 }
{
    code.map_or(0, |number| 2 + decimal_size(number))
}

// The codes of a coprocessor form around its operands.
fn coprocessor_rows(codes: Codes, reached: Reached<'_>) -> usize
    ensures value { result ≡ length (bytes (followed (code_rows (codes.coprocessor ∷ optional codes.second) ++ (map operand_items reached.entry.operands.now ++ map code_row (optional codes.third))))) }
    ensures bound { result ≤ 281 }
{
    3 + decimal_size(codes.coprocessor)
        + code_row_size(codes.second)
        + operand_rows(reached)
        + code_row_size(codes.third)
}

fn list_row(mask: u16) -> usize
    ensures value { result ≡ length (bytes (followed (list_items mask ∷ []))) }
    ensures bound { result ≤ 67 }
{
    2 + operand_size(Operand::RegList(mask))
}

// The list of a pop or a push, or its register between braces.
fn stack_row(moved: Stacked) -> usize
    ensures value { result ≡ length (bytes (followed (row_on_stack moved ∷ []))) }
    ensures bound { result ≤ 67 }
{
    match moved {
        Stacked::List(mask) => list_row(mask),
        Stacked::One(reg) => 4 + operand_size(Operand::Reg(reg)),
    }
}

// The base and the list of a block transfer.
fn block_rows(block: Block) -> usize
    ensures value { result ≡ length (bytes (followed (rows_of_block block))) }
    ensures bound { result ≤ 135 }
{
    2 + operand_size(Operand::RegWBack(block.base, block.wback))
        + list_row(block.mask)
        + flag_size(block.user)
}

// The interrupts that a CPS switches, where there are any: a letter for each set bit of the low three.
fn flags_size(flags: u16) -> usize
    ensures value { result ≡ length (bytes (followed (flag_row flags))) }
    ensures bound { result ≤ 5 }
{
    if flags == 0 {
        return 0;
    }
    2 + (flags % 8).count_ones() as usize
}

// The mode that a CPS changes to, where there is one.
fn mode_size(mode: Option<u16>) -> usize
    ensures value { result ≡ length (bytes (followed (mode_rows mode))) }
    ensures bound { result ≤ 68 }
{
    mode.map_or(0, |number| 3 + operand_size(Operand::Imm12(number)))
}

// All rows of a line: that of an IT block is a condition, and that of SETEND an order of bytes, of two letters each.
pub(crate) fn rows_size(form: Form<'_>) -> usize
    ensures value { result ≡ length (bytes (followed (rows_of form.entry))) }
    ensures bound { result ≤ 281 }
{
    match form {
        Form::Plain(reached) => operand_rows(reached),
        Form::Coprocessor(codes, reached) => coprocessor_rows(codes, reached),
        Form::Block(block) => block_rows(block),
        Form::Stack(form) => stack_row(form.moved),
        Form::It(_) | Form::Setend { .. } => 4,
        Form::Cps { flags, mode } => flags_size(flags) + mode_size(mode),
    }
}
