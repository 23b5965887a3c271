// What is done with each kind of operand, and the choice among the kinds.
ghost use Rattle.std.specs.Prelude.{ℕ, Result};
ghost use Rattle.armv7.specs.declared.operand.Operand.{Operand};

use armv7::{Bank, CReg, Operand, Reg, RegShift, StatusRegMask};

// Kept: a method for each kind of operand, and base, offset, add and wback one by one: the interface is the original printer's.
pub trait OperandVisitor {
    type Ok;

    type Error;

    // What a visit of an operand does: with the visitor before it, the answer, and the visitor after it.
    ghost answers: { Operand → Self → Result Self.Ok Self.Error → Self → Type 0 };

    fn visit_reg(&mut self, reg: Reg) -> Result<Self::Ok, Self::Error>
        ensures answered { answers (Operand.Reg reg) self.old result self.new };

    fn visit_reg_wback(&mut self, reg: Reg, wback: bool) -> Result<Self::Ok, Self::Error>
        ensures answered { answers (Operand.RegWBack reg wback) self.old result self.new };

    fn visit_reglist(&mut self, list: u16) -> Result<Self::Ok, Self::Error>
        ensures answered { answers (Operand.RegList list) self.old result self.new };

    fn visit_reg_deref(&mut self, reg: Reg) -> Result<Self::Ok, Self::Error>
        ensures answered { answers (Operand.RegDeref reg) self.old result self.new };

    fn visit_reg_shift(&mut self, shift: RegShift) -> Result<Self::Ok, Self::Error>
        ensures answered { answers (Operand.RegShift shift) self.old result self.new };

    fn visit_reg_deref_postindex_reg_shift(
        &mut self,
        base: Reg,
        shift: RegShift,
        add: bool,
        wback: bool,
    ) -> Result<Self::Ok, Self::Error>
        ensures answered { answers (Operand.RegDerefPostindexRegShift base shift add wback) self.old result self.new };

    fn visit_reg_deref_preindex_reg_shift(
        &mut self,
        base: Reg,
        shift: RegShift,
        add: bool,
        wback: bool,
    ) -> Result<Self::Ok, Self::Error>
        ensures answered { answers (Operand.RegDerefPreindexRegShift base shift add wback) self.old result self.new };

    fn visit_reg_deref_postindex_offset(
        &mut self,
        base: Reg,
        offset: u16,
        add: bool,
        wback: bool,
    ) -> Result<Self::Ok, Self::Error>
        ensures answered { answers (Operand.RegDerefPostindexOffset base offset add wback) self.old result self.new };

    fn visit_reg_deref_preindex_offset(
        &mut self,
        base: Reg,
        offset: u16,
        add: bool,
        wback: bool,
    ) -> Result<Self::Ok, Self::Error>
        ensures answered { answers (Operand.RegDerefPreindexOffset base offset add wback) self.old result self.new };

    fn visit_reg_deref_postindex_reg(
        &mut self,
        base: Reg,
        offset: Reg,
        add: bool,
        wback: bool,
    ) -> Result<Self::Ok, Self::Error>
        ensures answered { answers (Operand.RegDerefPostindexReg base offset add wback) self.old result self.new };

    fn visit_reg_deref_preindex_reg(
        &mut self,
        base: Reg,
        offset: Reg,
        add: bool,
        wback: bool,
    ) -> Result<Self::Ok, Self::Error>
        ensures answered { answers (Operand.RegDerefPreindexReg base offset add wback) self.old result self.new };

    fn visit_imm12(&mut self, imm: u16) -> Result<Self::Ok, Self::Error>
        ensures answered { answers (Operand.Imm12 imm) self.old result self.new };

    fn visit_imm32(&mut self, imm: u32) -> Result<Self::Ok, Self::Error>
        ensures answered { answers (Operand.Imm32 imm) self.old result self.new };

    fn visit_branch_offset(&mut self, offset: i32) -> Result<Self::Ok, Self::Error>
        ensures answered { answers (Operand.BranchOffset offset) self.old result self.new };

    fn visit_blx_offset(&mut self, offset: i32) -> Result<Self::Ok, Self::Error>
        ensures answered { answers (Operand.BranchThumbOffset offset) self.old result self.new };

    fn visit_coprocessor_option(&mut self, nr: u8) -> Result<Self::Ok, Self::Error>
        ensures answered { answers (Operand.CoprocOption nr) self.old result self.new };

    fn visit_creg(&mut self, creg: CReg) -> Result<Self::Ok, Self::Error>
        ensures answered { answers (Operand.CReg creg) self.old result self.new };

    fn visit_banked_reg(&mut self, bank: Bank, reg: Reg) -> Result<Self::Ok, Self::Error>
        ensures answered { answers (Operand.BankedReg bank reg) self.old result self.new };

    fn visit_banked_spsr(&mut self, bank: Bank) -> Result<Self::Ok, Self::Error>
        ensures answered { answers (Operand.BankedSPSR bank) self.old result self.new };

    fn visit_status_reg_mask(&mut self, mask: StatusRegMask) -> Result<Self::Ok, Self::Error>
        ensures answered { answers (Operand.StatusRegMask mask) self.old result self.new };

    fn visit_apsr(&mut self) -> Result<Self::Ok, Self::Error>
        ensures answered { answers Operand.APSR self.old result self.new };

    fn visit_spsr(&mut self) -> Result<Self::Ok, Self::Error>
        ensures answered { answers Operand.SPSR self.old result self.new };

    fn visit_cpsr(&mut self) -> Result<Self::Ok, Self::Error>
        ensures answered { answers Operand.CPSR self.old result self.new };

    // What fills the places past the last operand, and a coprocessor's number.
    fn visit_other(&mut self) -> Result<Self::Ok, Self::Error>
        ensures nothing { answers Operand.Nothing self.old result self.new }
        ensures number { (n : ℕ) → answers (Operand.Coprocessor n) self.old result self.new };
}

// Has the visitor visit the operand by the method of its kind.
pub fn visit<V: OperandVisitor>(operand: &Operand, visitor: &mut V) -> Result<V::Ok, V::Error>
    ensures answered { V.answers operand.now visitor.old result visitor.new }
{
    match *operand {
        Operand::Reg(reg) => visitor.visit_reg(reg),
        Operand::RegWBack(reg, wback) => visitor.visit_reg_wback(reg, wback),
        Operand::RegList(list) => visitor.visit_reglist(list),
        Operand::RegDeref(reg) => visitor.visit_reg_deref(reg),
        Operand::RegShift(shift) => visitor.visit_reg_shift(shift),
        Operand::RegDerefPostindexRegShift(base, shift, add, wback) =>
            visitor.visit_reg_deref_postindex_reg_shift(base, shift, add, wback),
        Operand::RegDerefPreindexRegShift(base, shift, add, wback) =>
            visitor.visit_reg_deref_preindex_reg_shift(base, shift, add, wback),
        Operand::RegDerefPostindexOffset(base, offset, add, wback) =>
            visitor.visit_reg_deref_postindex_offset(base, offset, add, wback),
        Operand::RegDerefPreindexOffset(base, offset, add, wback) =>
            visitor.visit_reg_deref_preindex_offset(base, offset, add, wback),
        Operand::RegDerefPostindexReg(base, offset, add, wback) =>
            visitor.visit_reg_deref_postindex_reg(base, offset, add, wback),
        Operand::RegDerefPreindexReg(base, offset, add, wback) =>
            visitor.visit_reg_deref_preindex_reg(base, offset, add, wback),
        Operand::Imm12(imm) => visitor.visit_imm12(imm),
        Operand::Imm32(imm) => visitor.visit_imm32(imm),
        Operand::BranchOffset(offset) => visitor.visit_branch_offset(offset),
        Operand::BranchThumbOffset(offset) => visitor.visit_blx_offset(offset),
        Operand::CoprocOption(nr) => visitor.visit_coprocessor_option(nr),
        Operand::CReg(creg) => visitor.visit_creg(creg),
        Operand::BankedReg(bank, reg) => visitor.visit_banked_reg(bank, reg),
        Operand::BankedSPSR(bank) => visitor.visit_banked_spsr(bank),
        Operand::StatusRegMask(mask) => visitor.visit_status_reg_mask(mask),
        Operand::APSR => visitor.visit_apsr(),
        Operand::SPSR => visitor.visit_spsr(),
        Operand::CPSR => visitor.visit_cpsr(),
        Operand::Coprocessor(_) => visitor.visit_other(),
        Operand::Nothing => visitor.visit_other(),
    }
}
