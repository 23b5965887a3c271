// Registers that are shifted: by an amount, or by another register.
ghost use Rattle.std.specs.Prelude.{◌≡◌, MatchResult};
ghost use Rattle.armv7.specs.Shifts.{IsShiftWord, shift_word, shift_fields, style_at, style_name, RefusesWord, AnswersWord};

use crate::fault::Fault;
use crate::reg::Reg;

// A shift word: the register in bits 3 to 0, the kind in bits 6 to 5, and in bits 11 to 7 the amount or, with bit 4 set, in
// bits 11 to 8 the register to shift by. The rest of the number is never read.
// Kept: a number without an invariant, by a rule of the project (docs/DECISIONS.md): what is no part of a shift word is never read,
// so each value is one.
#[derive(Clone, Copy)]
pub struct RegShift {
    data: u16,
}

// The two ways to shift.
#[derive(Clone, Copy)]
pub enum RegShiftStyle {
    RegImm(RegImmShift),
    RegReg(RegRegShift),
}

// A register shifted by a register.
#[derive(Clone, Copy)]
pub struct RegRegShift {
    pub shiftee: Reg,
    pub stype: ShiftStyle,
    pub shifter: Reg,
}

// How bits are shifted.
#[derive(Clone, Copy)]
pub enum ShiftStyle {
    LSL = 0,
    LSR = 1,
    ASR = 2,
    ROR = 3,
}

// A register shifted by an amount.
#[derive(Clone, Copy)]
pub struct RegImmShift {
    pub shiftee: Reg,
    pub stype: ShiftStyle,
    pub imm: u8,
}

const SHIFT_NAMES: [&[u8]; 4] = [b"lsl", b"lsr", b"asr", b"ror"];

impl RegShift {
    // The fields of the word.
    pub fn into_shift(&self) -> RegShiftStyle
        ensures fields { result ≡ shift_fields (shift_word self.now) }
    {
        let word = self.data;
        let shiftee = Reg::from_low_bits(word);
        let stype = ShiftStyle::from_low_bits(word / 32);
        if word / 16 % 2 == 0 {
            let imm = (word / 128 % 32) as u8;
            RegShiftStyle::RegImm(RegImmShift {
                shiftee,
                stype,
                imm,
            })
        } else {
            let shifter = Reg::from_low_bits(word / 256);
            RegShiftStyle::RegReg(RegRegShift {
                shiftee,
                stype,
                shifter,
            })
        }
    }

    // The shift word with this number, which is refused above 4095 and where bits 4 and 7 are both set.
    pub fn from_raw(data: u16) -> Result<RegShift, Fault>
        ensures word { MatchResult result (λ s. shift_word s ≡ «data») (RefusesWord «data») }
        ensures answer { AnswersWord «data» result }
    {
        RegShift::try_from(data)
    }

    // The number.
    pub fn word(&self) -> u16
        ensures value { result ≡ shift_word self.now }
        ensures lawful { IsShiftWord result }
    {
        let low = self.data % 4096;
        if low / 16 % 2 == 1 && low / 128 % 2 == 1 {
            low - 128
        } else {
            low
        }
    }
}

impl TryFrom<u16> for RegShift {
    type Error = Fault;

    ghost try_from_gives = { AnswersWord };

    fn try_from(data: u16) -> Result<RegShift, Fault> {
        if data > 4095 {
            return Err(Fault::ShiftWord);
        }
        if data / 16 % 2 == 1 && data / 128 % 2 == 1 {
            return Err(Fault::ShiftWord);
        }
        Ok(RegShift { data })
    }
}

impl ShiftStyle {
    // All four, by number.
    const ALL: [ShiftStyle; 4] = [
        ShiftStyle::LSL,
        ShiftStyle::LSR,
        ShiftStyle::ASR,
        ShiftStyle::ROR,
    ];

    // The kind that the low two bits number.
    fn from_low_bits(bits: u16) -> ShiftStyle
        ensures { result ≡ style_at bits }
    {
        ShiftStyle::ALL[(bits % 4) as usize]
    }

    // The three letters that it is printed under.
    pub fn name(&self) -> &'static [u8]
        ensures value { result.now ≡ style_name self.now }
    {
        SHIFT_NAMES[*self as usize]
    }
}
