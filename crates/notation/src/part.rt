// What can stand in an argument's place: flags, numbers, registers, shifts, banks and masks, and pairs of them.
ghost use Rattle.std.specs.Prelude.{◌≡◌, ◌≤◌, ℕ, Ok, Option, Result, pos};
ghost use Rattle.armv7.specs.declared.fault.Fault.{Fault};
ghost use Rattle.armv7.specs.declared.fault.Fault.TheVariants.{Register as RegisterFault};
ghost use Rattle.misreading.specs.declared.misread.Expected.TheVariants.{Code as AnyCode, Halfword as AnyHalfword, Word as AnyWord, Distance as AnyDistance};
ghost use Rattle.notation.specs.Parsing.{Tokens, Parser, bracketed, pair, number, numbered, flag};
ghost use Rattle.notation.specs.Parts.{braced, item, refusable, registers, controls, shift_of, register, control, shift, bank, mask, distance, negative};
ghost use Rattle.notation.specs.Tokens.{first};
ghost use Rattle.notation.specs.Reads.{Reads, read_as};

use crate::cursor::{Cursor, Slip};
use crate::leaf::{numeral_of, same};
use armv7::{Bank, CReg, Fault, Reg, RegShift, StatusRegMask};
use misreading::{Expected, Given};

pub trait Part: Copy {
    // What is taken off the tokens.
    ghost parser: { Parser Self };

    fn read(cursor: &mut Cursor<'_>) -> Result<Self, Slip>
        ensures reads { Reads parser cursor.old result cursor.new };
}

// A value that a number stands for.
trait Numbered: Copy {
    ghost MOST: { ℕ };

    // The value with a number, or the refusal of the number.
    ghost meaning: { ℕ → Result Self (Option Fault) };

    // The largest number that is looked at.
    const MOST: u32;

    fn from_number(n: u32) -> Result<Self, Fault>
        requires { n ≤ MOST }
        ensures { refusable result ≡ meaning n };
}

impl Numbered for Reg {
    ghost MOST = { 255 };

    ghost meaning = { item RegisterFault registers };

    const MOST: u32 = 255;

    fn from_number(n: u32) -> Result<Reg, Fault> {
        Reg::from_u8(n as u8)
    }
}

impl Numbered for CReg {
    ghost MOST = { 255 };

    ghost meaning = { item RegisterFault controls };

    const MOST: u32 = 255;

    fn from_number(n: u32) -> Result<CReg, Fault> {
        CReg::from_u8(n as u8)
    }
}

impl Numbered for RegShift {
    ghost MOST = { 65535 };

    ghost meaning = { shift_of };

    const MOST: u32 = 65535;

    fn from_number(n: u32) -> Result<RegShift, Fault> {
        RegShift::from_raw(n as u16)
    }
}

impl Numbered for u8 {
    ghost MOST = { 255 };

    ghost meaning = { λ n. Ok n };

    const MOST: u32 = u8::MAX as u32;

    fn from_number(n: u32) -> Result<u8, Fault> {
        Ok(n as u8)
    }
}

impl Numbered for u16 {
    ghost MOST = { 65535 };

    ghost meaning = { λ n. Ok n };

    const MOST: u32 = u16::MAX as u32;

    fn from_number(n: u32) -> Result<u16, Fault> {
        Ok(n as u16)
    }
}

impl Numbered for u32 {
    ghost MOST = { 4294967295 };

    ghost meaning = { λ n. Ok n };

    const MOST: u32 = u32::MAX;

    fn from_number(n: u32) -> Result<u32, Fault> {
        Ok(n)
    }
}

// From zero on; what is below follows a minus.
impl Numbered for i32 {
    ghost MOST = { 2147483647 };

    ghost meaning = { λ n. Ok (pos n) };

    const MOST: u32 = i32::MAX as u32;

    fn from_number(n: u32) -> Result<i32, Fault> {
        Ok(n as i32)
    }
}

// The value with the number that a text writes.
fn value_of<T: Numbered>(text: &[u8], expected: Expected) -> Result<T, Slip>
    ensures { (ts : Tokens) → first ts ≡ text.now → numbered expected T.MOST T.meaning ts ≡ read_as result ts }
{
    let n = numeral_of(text, T::MOST).ok_or(Slip::new(expected))?;
    T::from_number(n).map_err(|fault| Slip {
        expected,
        refusal: Some(fault),
    })
}

const FLAGS: [(&[u8], bool); 2] = [(b"false", false), (b"true", true)];

const BANKS: [(&[u8], Bank); 8] = [
    (b"Usr", Bank::Usr),
    (b"Fiq", Bank::Fiq),
    (b"Irq", Bank::Irq),
    (b"Svc", Bank::Svc),
    (b"Abt", Bank::Abt),
    (b"Und", Bank::Und),
    (b"Mon", Bank::Mon),
    (b"Hyp", Bank::Hyp),
];

const MASKS: [(&[u8], StatusRegMask); 31] = [
    (b"CPSR_C", StatusRegMask::CPSR_C),
    (b"CPSR_X", StatusRegMask::CPSR_X),
    (b"CPSR_XC", StatusRegMask::CPSR_XC),
    (b"APSR_G", StatusRegMask::APSR_G),
    (b"CPSR_SC", StatusRegMask::CPSR_SC),
    (b"CPSR_SX", StatusRegMask::CPSR_SX),
    (b"CPSR_SXC", StatusRegMask::CPSR_SXC),
    (b"APSR_NZCVQ", StatusRegMask::APSR_NZCVQ),
    (b"CPSR_FC", StatusRegMask::CPSR_FC),
    (b"CPSR_FX", StatusRegMask::CPSR_FX),
    (b"CPSR_FXC", StatusRegMask::CPSR_FXC),
    (b"APSR_NZCVQG", StatusRegMask::APSR_NZCVQG),
    (b"CPSR_FSC", StatusRegMask::CPSR_FSC),
    (b"CPSR_FSX", StatusRegMask::CPSR_FSX),
    (b"CPSR_FSXC", StatusRegMask::CPSR_FSXC),
    (b"SPSR", StatusRegMask::SPSR),
    (b"SPSR_C", StatusRegMask::SPSR_C),
    (b"SPSR_X", StatusRegMask::SPSR_X),
    (b"SPSR_XC", StatusRegMask::SPSR_XC),
    (b"SPSR_S", StatusRegMask::SPSR_S),
    (b"SPSR_SC", StatusRegMask::SPSR_SC),
    (b"SPSR_SX", StatusRegMask::SPSR_SX),
    (b"SPSR_SXC", StatusRegMask::SPSR_SXC),
    (b"SPSR_F", StatusRegMask::SPSR_F),
    (b"SPSR_FC", StatusRegMask::SPSR_FC),
    (b"SPSR_FX", StatusRegMask::SPSR_FX),
    (b"SPSR_FXC", StatusRegMask::SPSR_FXC),
    (b"SPSR_FS", StatusRegMask::SPSR_FS),
    (b"SPSR_FSC", StatusRegMask::SPSR_FSC),
    (b"SPSR_FSX", StatusRegMask::SPSR_FSX),
    (b"SPSR_FSXC", StatusRegMask::SPSR_FSXC),
];

impl Part for bool {
    ghost parser = { flag };

    fn read(cursor: &mut Cursor<'_>) -> Result<bool, Slip> {
        cursor.choose(&FLAGS, Expected::Flag)
    }
}

// Kept: a width each by hand, here and as `Numbered`, since each has its own largest number, and here its own words for what was
// expected.
impl Part for u8 {
    ghost parser = { number AnyCode 255 };

    fn read(cursor: &mut Cursor<'_>) -> Result<u8, Slip> {
        cursor.numbered(Expected::Code)
    }
}

impl Part for u16 {
    ghost parser = { number AnyHalfword 65535 };

    fn read(cursor: &mut Cursor<'_>) -> Result<u16, Slip> {
        cursor.numbered(Expected::Halfword)
    }
}

impl Part for u32 {
    ghost parser = { number AnyWord 4294967295 };

    fn read(cursor: &mut Cursor<'_>) -> Result<u32, Slip> {
        cursor.numbered(Expected::Word)
    }
}

// A minus is a token of its own.
impl Part for i32 {
    ghost parser = { distance };

    fn read(cursor: &mut Cursor<'_>) -> Result<i32, Slip> {
        let token = cursor.token();
        if same(token.text, b"-") {
            cursor.at = token.end;
            return cursor.below_zero();
        }
        cursor.numbered(Expected::Distance)
    }
}

impl Part for Reg {
    ghost parser = { register };

    fn read(cursor: &mut Cursor<'_>) -> Result<Reg, Slip> {
        cursor.braced(Given::Reg, Given::Bits, Expected::Register)
    }
}

impl Part for CReg {
    ghost parser = { control };

    fn read(cursor: &mut Cursor<'_>) -> Result<CReg, Slip> {
        cursor.braced(Given::CReg, Given::Bits, Expected::Control)
    }
}

impl Part for RegShift {
    ghost parser = { shift };

    fn read(cursor: &mut Cursor<'_>) -> Result<RegShift, Slip> {
        cursor.braced(Given::RegShift, Given::Data, Expected::ShiftWord)
    }
}

impl Part for Bank {
    ghost parser = { bank };

    fn read(cursor: &mut Cursor<'_>) -> Result<Bank, Slip> {
        cursor.choose(&BANKS, Expected::Bank)
    }
}

impl Part for StatusRegMask {
    ghost parser = { mask };

    fn read(cursor: &mut Cursor<'_>) -> Result<StatusRegMask, Slip> {
        cursor.choose(&MASKS, Expected::Mask)
    }
}

// Two parts with a comma between them.
impl<A: Part, B: Part> Part for (A, B) {
    ghost parser = { pair A.Part.parser B.Part.parser };

    fn read(cursor: &mut Cursor<'_>) -> Result<(A, B), Slip> {
        let a = A::read(cursor)?;
        cursor.expect(&[Given::Comma])?;
        let b = B::read(cursor)?;
        Ok((a, b))
    }
}

impl<'a> Cursor<'a> {
    // The value with the number in NAME { FIELD: n }.
    fn braced<T: Numbered>(
        &mut self,
        name: Given,
        field: Given,
        expected: Expected,
    ) -> Result<T, Slip>
        ensures { Reads (braced name field (numbered expected T.MOST T.meaning)) self.old result self.new }
    {
        self.expect(&[name, Given::OpenBrace, field, Given::Colon])?;
        let value = self.numbered(expected)?;
        self.expect(&[Given::CloseBrace])?;
        Ok(value)
    }

    // The value with the number that stands there.
    fn numbered<T: Numbered>(&mut self, expected: Expected) -> Result<T, Slip>
        ensures { Reads (numbered expected T.MOST T.meaning) self.old result self.new }
    {
        self.take(|text| value_of(text, expected))
    }

    // What follows a minus.
    fn below_zero(&mut self) -> Result<i32, Slip>
        ensures { Reads (numbered AnyDistance 2147483648 negative) self.old result self.new }
    {
        self.take(|text| {
            let Some(n @ 1..) = numeral_of(text, 2147483648) else {
                return Err(Slip::new(Expected::Distance));
            };
            Ok((-i64::from(n)) as i32)
        })
    }

    // A part in parentheses.
    pub fn bracketed<P: Part>(&mut self) -> Result<P, Slip>
        ensures reads { Reads (bracketed P.Part.parser) self.old result self.new }
    {
        self.expect(&[Given::OpenParen])?;
        let part = P::read(self)?;
        self.expect(&[Given::CloseParen])?;
        Ok(part)
    }
}
