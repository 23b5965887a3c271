// Instructions.
ghost use Rattle.misreading.specs.declared.misread.Expected.TheVariants.{Condition as ACondition};
ghost use Rattle.notation.specs.Parsing.{after, chosen, flag};
ghost use Rattle.notation.specs.Reads.{Reads};
ghost use Rattle.record.specs.Instructions.{conditions, head, flags, instruction};

use armv7::{ConditionCode, Instruction, Opcode};
use misreading::{Expected, Given};
use notation::{Cursor, Part, Slip};
use opcode_notation::read_opcode;
use operand_notation::read_operands;

const CONDITIONS: [(&[u8], ConditionCode); 15] = [
    (b"EQ", ConditionCode::EQ),
    (b"NE", ConditionCode::NE),
    (b"HS", ConditionCode::HS),
    (b"LO", ConditionCode::LO),
    (b"MI", ConditionCode::MI),
    (b"PL", ConditionCode::PL),
    (b"VS", ConditionCode::VS),
    (b"VC", ConditionCode::VC),
    (b"HI", ConditionCode::HI),
    (b"LS", ConditionCode::LS),
    (b"GE", ConditionCode::GE),
    (b"LT", ConditionCode::LT),
    (b"GT", ConditionCode::GT),
    (b"LE", ConditionCode::LE),
    (b"AL", ConditionCode::AL),
];

// The last four fields of an instruction.
pub struct Flags {
    pub s: bool,
    pub wide: bool,
    pub thumb_w: bool,
    pub thumb: bool,
}

// What follows the word `Instruction`.
pub(crate) fn read_instruction(cursor: &mut Cursor<'_>) -> Result<Instruction, Slip>
    ensures { Reads instruction cursor.old result cursor.new }
{
    let (condition, opcode) = read_head(cursor)?;
    cursor.expect(&[
        Given::Comma,
        Given::Operands,
        Given::Colon,
        Given::OpenBracket,
    ])?;
    let operands = read_operands(cursor)?;
    let Flags {
        s,
        wide,
        thumb_w,
        thumb,
    } = read_flags(cursor)?;
    Ok(Instruction {
        condition,
        opcode,
        operands,
        s,
        wide,
        thumb_w,
        thumb,
    })
}

// The first two fields, with the brace before them.
fn read_head(cursor: &mut Cursor<'_>) -> Result<(ConditionCode, Opcode), Slip>
    ensures { Reads head cursor.old result cursor.new }
{
    cursor.expect(&[Given::OpenBrace, Given::Condition, Given::Colon])?;
    let condition = read_condition(cursor)?;
    cursor.expect(&[Given::Comma, Given::Opcode, Given::Colon])?;
    let opcode = read_opcode(cursor)?;
    Ok((condition, opcode))
}

fn read_condition(cursor: &mut Cursor<'_>) -> Result<ConditionCode, Slip>
    ensures { Reads (chosen ACondition conditions) cursor.old result cursor.new }
{
    cursor.choose(&CONDITIONS, Expected::Condition)
}

// The last four fields, with the bracket before them and the brace after them.
fn read_flags(cursor: &mut Cursor<'_>) -> Result<Flags, Slip>
    ensures { Reads flags cursor.old result cursor.new }
{
    let s = flag_after(
        cursor,
        &[Given::CloseBracket, Given::Comma, Given::S, Given::Colon],
    )?;
    let wide = flag_after(cursor, &[Given::Comma, Given::Wide, Given::Colon])?;
    let thumb_w = flag_after(cursor, &[Given::Comma, Given::ThumbW, Given::Colon])?;
    let thumb = flag_after(cursor, &[Given::Comma, Given::Thumb, Given::Colon])?;
    cursor.expect(&[Given::CloseBrace])?;
    Ok(Flags {
        s,
        wide,
        thumb_w,
        thumb,
    })
}

fn flag_after(cursor: &mut Cursor<'_>, front: &[Given]) -> Result<bool, Slip>
    ensures { Reads (after front.now flag) cursor.old result cursor.new }
{
    cursor.expect(front)?;
    bool::read(cursor)
}
