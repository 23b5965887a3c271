// The control registers of a coprocessor.
ghost use Rattle.std.specs.Prelude.{◌≡◌};
ghost use Rattle.armv7.specs.Registers.{creg_number, AnswersNumber};

use crate::fault::Fault;

// A control register: one case for each number from 0 to 15, so that no other exists.
#[derive(Clone, Copy, PartialEq, Eq)]
pub enum CReg {
    C0,
    C1,
    C2,
    C3,
    C4,
    C5,
    C6,
    C7,
    C8,
    C9,
    C10,
    C11,
    C12,
    C13,
    C14,
    C15,
}

impl CReg {
    // All sixteen, by number.
    pub const ALL: [CReg; 16] = [
        CReg::C0,
        CReg::C1,
        CReg::C2,
        CReg::C3,
        CReg::C4,
        CReg::C5,
        CReg::C6,
        CReg::C7,
        CReg::C8,
        CReg::C9,
        CReg::C10,
        CReg::C11,
        CReg::C12,
        CReg::C13,
        CReg::C14,
        CReg::C15,
    ];

    // The control register with this number, which is refused above 15.
    pub fn from_u8(bits: u8) -> Result<CReg, Fault>
        ensures answer { AnswersNumber creg_number bits result }
    {
        CReg::try_from(bits)
    }

    // From 0 to 15.
    pub fn number(&self) -> u8
        ensures value { result ≡ creg_number self.now }
    {
        *self as u8
    }
}

impl TryFrom<u8> for CReg {
    type Error = Fault;

    ghost try_from_gives = { AnswersNumber creg_number };

    fn try_from(bits: u8) -> Result<CReg, Fault> {
        CReg::ALL.get(bits as usize).copied().ok_or(Fault::Register)
    }
}
