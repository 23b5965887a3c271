// Operands.
ghost use Rattle.misreading.specs.declared.misread.Expected.TheVariants.{Operand as AnOperand};
ghost use Rattle.std.specs.Prelude.{◌≡◌};
ghost use Rattle.armv7.specs.declared.operand.Operand.{Operand};
ghost use Rattle.notation.specs.Parsing.{chosen, pair, via};
ghost use Rattle.notation.specs.Reads.{Reads};
ghost use Rattle.operand_notation.specs.Operands.{Indexed, indexed, names, operand_with, operand, operands};

use armv7::{Operand, Reg};
use misreading::{Expected, Given};
use notation::{Cursor, Part, Slip};

// Operands, by what they are.
// Kept: names in place of functions in a table, since a name needs no clause of its own, and a function in a table would.
#[derive(Clone, Copy)]
pub enum Name {
    Register,
    WrittenBack,
    Registers,
    Address,
    Shifted,
    PostShifted,
    PreShifted,
    PostOffset,
    PreOffset,
    PostRegister,
    PreRegister,
    Twelve,
    Word,
    Branch,
    ThumbBranch,
    Coprocessor,
    Choice,
    Control,
    Banked,
    BankedStatus,
    Mask,
    Application,
    Saved,
    Current,
    Nothing,
}

const NAMES: [(&[u8], Name); 25] = [
    (b"Reg", Name::Register),
    (b"RegWBack", Name::WrittenBack),
    (b"RegList", Name::Registers),
    (b"RegDeref", Name::Address),
    (b"RegShift", Name::Shifted),
    (b"RegDerefPostindexRegShift", Name::PostShifted),
    (b"RegDerefPreindexRegShift", Name::PreShifted),
    (b"RegDerefPostindexOffset", Name::PostOffset),
    (b"RegDerefPreindexOffset", Name::PreOffset),
    (b"RegDerefPostindexReg", Name::PostRegister),
    (b"RegDerefPreindexReg", Name::PreRegister),
    (b"Imm12", Name::Twelve),
    (b"Imm32", Name::Word),
    (b"BranchOffset", Name::Branch),
    (b"BranchThumbOffset", Name::ThumbBranch),
    (b"Coprocessor", Name::Coprocessor),
    (b"CoprocOption", Name::Choice),
    (b"CReg", Name::Control),
    (b"BankedReg", Name::Banked),
    (b"BankedSPSR", Name::BankedStatus),
    (b"StatusRegMask", Name::Mask),
    (b"APSR", Name::Application),
    (b"SPSR", Name::Saved),
    (b"CPSR", Name::Current),
    (b"Nothing", Name::Nothing),
];

// The four operands of an instruction.
pub fn read_operands(cursor: &mut Cursor<'_>) -> Result<[Operand; 4], Slip>
    ensures reads { Reads operands cursor.old result cursor.new }
{
    let (a, b) = two_operands(cursor)?;
    cursor.expect(&[Given::Comma])?;
    let (c, d) = two_operands(cursor)?;
    Ok([a, b, c, d])
}

fn two_operands(cursor: &mut Cursor<'_>) -> Result<(Operand, Operand), Slip>
    ensures { Reads (pair operand operand) cursor.old result cursor.new }
{
    let a = read_operand(cursor)?;
    cursor.expect(&[Given::Comma])?;
    let b = read_operand(cursor)?;
    Ok((a, b))
}

fn read_operand(cursor: &mut Cursor<'_>) -> Result<Operand, Slip>
    ensures { Reads operand cursor.old result cursor.new }
{
    let name = read_name(cursor)?;
    named(cursor, name)
}

fn read_name(cursor: &mut Cursor<'_>) -> Result<Name, Slip>
    ensures { Reads (chosen AnOperand names) cursor.old result cursor.new }
{
    cursor.choose(&NAMES, Expected::Operand)
}

// The operand with this name, and what stands in parentheses after it.
fn named(cursor: &mut Cursor<'_>, name: Name) -> Result<Operand, Slip>
    ensures { Reads (operand_with name) cursor.old result cursor.new }
{
    match name {
        Name::Register => cursor.bracketed().map(Operand::Reg),
        Name::WrittenBack => cursor
            .bracketed()
            .map(|(reg, back)| Operand::RegWBack(reg, back)),
        Name::Registers => cursor.bracketed().map(Operand::RegList),
        Name::Address => cursor.bracketed().map(Operand::RegDeref),
        Name::Shifted => cursor.bracketed().map(Operand::RegShift),
        Name::PostShifted => indexed(cursor, Operand::RegDerefPostindexRegShift),
        Name::PreShifted => indexed(cursor, Operand::RegDerefPreindexRegShift),
        Name::PostOffset => indexed(cursor, Operand::RegDerefPostindexOffset),
        Name::PreOffset => indexed(cursor, Operand::RegDerefPreindexOffset),
        Name::PostRegister => indexed(cursor, Operand::RegDerefPostindexReg),
        Name::PreRegister => indexed(cursor, Operand::RegDerefPreindexReg),
        Name::Twelve => cursor.bracketed().map(Operand::Imm12),
        Name::Word => cursor.bracketed().map(Operand::Imm32),
        Name::Branch => cursor.bracketed().map(Operand::BranchOffset),
        Name::ThumbBranch => cursor.bracketed().map(Operand::BranchThumbOffset),
        Name::Coprocessor => cursor.bracketed().map(Operand::Coprocessor),
        Name::Choice => cursor.bracketed().map(Operand::CoprocOption),
        Name::Control => cursor.bracketed().map(Operand::CReg),
        Name::Banked => cursor
            .bracketed()
            .map(|(bank, reg)| Operand::BankedReg(bank, reg)),
        Name::BankedStatus => cursor.bracketed().map(Operand::BankedSPSR),
        Name::Mask => cursor.bracketed().map(Operand::StatusRegMask),
        Name::Application => Ok(Operand::APSR),
        Name::Saved => Ok(Operand::SPSR),
        Name::Current => Ok(Operand::CPSR),
        Name::Nothing => Ok(Operand::Nothing),
    }
}

// An indexed address: what `make` makes of its base, its offset, and whether this is added and the base written back.
fn indexed<O: Part, F: FnOnce(Reg, O, bool, bool) -> Operand>(
    cursor: &mut Cursor<'_>,
    make: F,
) -> Result<Operand, Slip>
    requires { F.IsAlwaysCallable make }
    ensures { (f : Indexed O → Operand) → ((x : Indexed O) (o : Operand) → F.post make x.0.0 x.0.1 x.1.0 x.1.1 o → o ≡ f x) → Reads (via f (indexed O.Part.parser)) cursor.old result cursor.new }
{
    let ((base, offset), (add, back)) = cursor.bracketed()?;
    Ok(make(base, offset, add, back))
}
