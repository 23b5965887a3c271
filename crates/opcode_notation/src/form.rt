// The opcodes that are told more in parentheses, by what stands there.
// Kept: kinds in place of functions in a table, since a kind needs no clause of its own, and a function in a table would.
ghost use Rattle.std.specs.Prelude.{◌≡◌};
ghost use Rattle.opcode.specs.declared.Opcode.{Opcode};
ghost use Rattle.opcode_notation.specs.Opcodes.{one_flag, two_flags, four_flags, one_code, two_codes, three_codes};

use armv7::Opcode;
use notation::Part;

// A flag.
#[derive(Clone, Copy)]
pub enum OneFlag {
    Smlaw,
    Cps,
    Smulw,
    Smlald,
    Smlsld,
}

// Two flags.
#[derive(Clone, Copy)]
pub enum TwoFlags {
    Srs,
    Rfe,
    Smul,
    Smla,
    SmlalHalfword,
    Smal,
}

// Four flags.
#[derive(Clone, Copy)]
pub enum FourFlags {
    Ldm,
    Stm,
}

// A code of a coprocessor.
#[derive(Clone, Copy)]
pub enum OneCode {
    Ldc,
    Ldcl,
    Ldc2,
    Ldc2l,
    Stc,
    Stcl,
    Stc2,
    Stc2l,
}

// Two codes of a coprocessor.
#[derive(Clone, Copy)]
pub enum TwoCodes {
    Mcrr2,
    Mrrc2,
    Mcrr,
    Mrrc,
}

// Three codes of a coprocessor.
#[derive(Clone, Copy)]
pub enum ThreeCodes {
    Mcr2,
    Mrc2,
    Cdp2,
}

#[derive(Clone, Copy)]
pub enum Form {
    Flag(OneFlag),
    Flags(TwoFlags),
    Block(FourFlags),
    Code(OneCode),
    Codes(TwoCodes),
    Operation(ThreeCodes),
}

// Opcodes that are told the same kind of values.
pub(crate) trait Told: Copy {
    // What stands in the parentheses.
    type Values: Part;

    // The opcode with these values.
    ghost meaning: { Self → Self.Values → Opcode };

    fn with(self, values: Self::Values) -> Opcode
        ensures { result ≡ meaning self values };
}

impl Told for OneFlag {
    type Values = bool;

    ghost meaning = { one_flag };

    fn with(self, a: bool) -> Opcode {
        match self {
            OneFlag::Smlaw => Opcode::SMLAW(a),
            OneFlag::Cps => Opcode::CPS(a),
            OneFlag::Smulw => Opcode::SMULW(a),
            OneFlag::Smlald => Opcode::SMLALD(a),
            OneFlag::Smlsld => Opcode::SMLSLD(a),
        }
    }
}

impl Told for TwoFlags {
    type Values = (bool, bool);

    ghost meaning = { λ f x. two_flags f x.0 x.1 };

    fn with(self, (a, b): (bool, bool)) -> Opcode {
        match self {
            TwoFlags::Srs => Opcode::SRS(a, b),
            TwoFlags::Rfe => Opcode::RFE(a, b),
            TwoFlags::Smul => Opcode::SMUL(a, b),
            TwoFlags::Smla => Opcode::SMLA(a, b),
            TwoFlags::SmlalHalfword => Opcode::SMLAL_halfword(a, b),
            TwoFlags::Smal => Opcode::SMAL(a, b),
        }
    }
}

impl Told for FourFlags {
    type Values = ((bool, bool), (bool, bool));

    ghost meaning = { λ f x. four_flags f x.0.0 x.0.1 x.1.0 x.1.1 };

    fn with(self, ((a, b), (c, d)): ((bool, bool), (bool, bool))) -> Opcode {
        match self {
            FourFlags::Ldm => Opcode::LDM(a, b, c, d),
            FourFlags::Stm => Opcode::STM(a, b, c, d),
        }
    }
}

impl Told for OneCode {
    type Values = u8;

    ghost meaning = { one_code };

    fn with(self, a: u8) -> Opcode {
        match self {
            OneCode::Ldc => Opcode::LDC(a),
            OneCode::Ldcl => Opcode::LDCL(a),
            OneCode::Ldc2 => Opcode::LDC2(a),
            OneCode::Ldc2l => Opcode::LDC2L(a),
            OneCode::Stc => Opcode::STC(a),
            OneCode::Stcl => Opcode::STCL(a),
            OneCode::Stc2 => Opcode::STC2(a),
            OneCode::Stc2l => Opcode::STC2L(a),
        }
    }
}

impl Told for TwoCodes {
    type Values = (u8, u8);

    ghost meaning = { λ f x. two_codes f x.0 x.1 };

    fn with(self, (a, b): (u8, u8)) -> Opcode {
        match self {
            TwoCodes::Mcrr2 => Opcode::MCRR2(a, b),
            TwoCodes::Mrrc2 => Opcode::MRRC2(a, b),
            TwoCodes::Mcrr => Opcode::MCRR(a, b),
            TwoCodes::Mrrc => Opcode::MRRC(a, b),
        }
    }
}

impl Told for ThreeCodes {
    type Values = ((u8, u8), u8);

    ghost meaning = { λ f x. three_codes f x.0.0 x.0.1 x.1 };

    fn with(self, ((a, b), c): ((u8, u8), u8)) -> Opcode {
        match self {
            ThreeCodes::Mcr2 => Opcode::MCR2(a, b, c),
            ThreeCodes::Mrc2 => Opcode::MRC2(a, b, c),
            ThreeCodes::Cdp2 => Opcode::CDP2(a, b, c),
        }
    }
}
