// The operands of an instruction.
use crate::bank::Bank;
use crate::creg::CReg;
use crate::reg::Reg;
use crate::shift::RegShift;
use crate::status::StatusRegMask;

// An operand. Where two flags follow an address, the first adds the offset rather than taking it off, and the second writes the
// address back.
#[derive(Clone, Copy)]
pub enum Operand {
    Reg(Reg),
    // A register, and whether it is written back.
    RegWBack(Reg, bool),
    // Registers, by the bits 0 to 15.
    RegList(u16),
    RegDeref(Reg),
    RegShift(RegShift),
    RegDerefPostindexRegShift(Reg, RegShift, bool, bool),
    RegDerefPreindexRegShift(Reg, RegShift, bool, bool),
    RegDerefPostindexOffset(Reg, u16, bool, bool),
    RegDerefPreindexOffset(Reg, u16, bool, bool),
    RegDerefPostindexReg(Reg, Reg, bool, bool),
    RegDerefPreindexReg(Reg, Reg, bool, bool),
    Imm12(u16),
    Imm32(u32),
    // A distance in words.
    BranchOffset(i32),
    // A distance in halfwords.
    BranchThumbOffset(i32),
    // Never made by a decoder, and never printed.
    Coprocessor(u8),
    CoprocOption(u8),
    CReg(CReg),
    BankedReg(Bank, Reg),
    BankedSPSR(Bank),
    StatusRegMask(StatusRegMask),
    APSR,
    SPSR,
    CPSR,
    // No operand: what fills the places past the last one.
    Nothing,
}
