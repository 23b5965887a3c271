// The ways to print an instruction, by its opcode.
#![tactic(auto)]

ghost use Rattle.std.specs.Prelude.{◌≡◌};
ghost use Rattle.kind.specs.Kinds.{coprocessor as coprocessor_kind, kind_of};

use opcode::Opcode;

// What a mnemonic takes behind it: nothing, the condition, or flags, condition and width.
#[derive(Clone, Copy)]
pub enum Suffixes {
    Bare,
    Conditional,
    Full,
}

// The coprocessor, and the codes that it is handed before and behind the operands.
#[derive(Clone, Copy)]
pub struct Codes {
    pub suffixes: Suffixes,
    pub coprocessor: u8,
    pub second: Option<u8>,
    pub third: Option<u8>,
}

#[derive(Clone, Copy)]
pub enum Kind {
    // A block transfer, perhaps of the registers of user mode.
    Block { user: bool },
    It,
    Cps,
    Setend,
    Coprocessor(Codes),
    // Any other: the mnemonic, and the operands.
    Plain,
}

#[inline(always)]
fn coprocessor(suffixes: Suffixes, coprocessor: u8, second: Option<u8>, third: Option<u8>) -> Kind
    ensures kind { result ≡ coprocessor_kind suffixes coprocessor second third }
{
    Kind::Coprocessor(Codes {
        suffixes,
        coprocessor,
        second,
        third,
    })
}

#[inline(always)]
pub fn kind_by(opcode: Opcode) -> Kind
    ensures kind { result ≡ kind_of opcode }
{
    match opcode {
        Opcode::LDM(_, _, _, user) | Opcode::STM(_, _, _, user) => Kind::Block { user },
        Opcode::IT => Kind::It,
        Opcode::CPS(_) => Kind::Cps,
        Opcode::SETEND => Kind::Setend,
        Opcode::LDC(a) | Opcode::LDCL(a) | Opcode::STC(a) | Opcode::STCL(a) => {
            coprocessor(Suffixes::Conditional, a, None, None)
        }
        Opcode::LDC2(a) | Opcode::LDC2L(a) | Opcode::STC2(a) | Opcode::STC2L(a) => {
            coprocessor(Suffixes::Bare, a, None, None)
        }
        Opcode::MCRR2(a, b) | Opcode::MRRC2(a, b) => coprocessor(Suffixes::Bare, a, Some(b), None),
        Opcode::MCRR(a, b) | Opcode::MRRC(a, b) => coprocessor(Suffixes::Full, a, Some(b), None),
        Opcode::MCR2(a, b, c) | Opcode::MRC2(a, b, c) | Opcode::CDP2(a, b, c) => {
            coprocessor(Suffixes::Bare, a, Some(b), Some(c))
        }
        _ => Kind::Plain,
    }
}
