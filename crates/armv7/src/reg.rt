// The general-purpose registers.
ghost use Rattle.std.specs.Prelude.{◌≡◌};
ghost use Rattle.armv7.specs.Registers.{reg_number, reg_name, reg_at, AnswersNumber};

use crate::fault::Fault;

// A register: one case for each number from 0 to 15, so that no other exists.
#[derive(Clone, Copy, PartialEq, Eq)]
pub enum Reg {
    R0,
    R1,
    R2,
    R3,
    R4,
    R5,
    R6,
    R7,
    R8,
    R9,
    R10,
    R11,
    R12,
    R13,
    R14,
    R15,
}

const REG_NAMES: [&[u8]; 16] = [
    b"r0", b"r1", b"r2", b"r3", b"r4", b"r5", b"r6", b"r7", b"r8", b"sb", b"r10", b"fp", b"ip",
    b"sp", b"lr", b"pc",
];

impl Reg {
    // All sixteen, by number.
    pub const ALL: [Reg; 16] = [
        Reg::R0,
        Reg::R1,
        Reg::R2,
        Reg::R3,
        Reg::R4,
        Reg::R5,
        Reg::R6,
        Reg::R7,
        Reg::R8,
        Reg::R9,
        Reg::R10,
        Reg::R11,
        Reg::R12,
        Reg::R13,
        Reg::R14,
        Reg::R15,
    ];

    // The register with this number, which is refused above 15.
    pub fn from_u8(bits: u8) -> Result<Reg, Fault>
        ensures answer { AnswersNumber reg_number bits result }
    {
        Reg::try_from(bits)
    }

    // The register that the low four bits number.
    pub(crate) fn from_low_bits(bits: u16) -> Reg
        ensures { result ≡ reg_at bits }
    {
        Reg::ALL[(bits % 16) as usize]
    }

    // From 0 to 15.
    pub fn number(&self) -> u8
        ensures value { result ≡ reg_number self.now }
    {
        *self as u8
    }

    // The name that it is printed under.
    pub fn name(&self) -> &'static [u8]
        ensures value { result.now ≡ reg_name self.now }
    {
        REG_NAMES[*self as usize]
    }
}

impl TryFrom<u8> for Reg {
    type Error = Fault;

    ghost try_from_gives = { AnswersNumber reg_number };

    fn try_from(bits: u8) -> Result<Reg, Fault> {
        Reg::ALL.get(bits as usize).copied().ok_or(Fault::Register)
    }
}
