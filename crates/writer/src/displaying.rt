// A visitor that writes each operand to a sink.
ghost use Rattle.visitor.specs.Operands.{operand_items, operand_refused};
ghost use Rattle.visitor.specs.Visits.{PrintsUnless};
ghost use Rattle.writer.specs.Writing.{Written};

use crate::address::{
    write_deref, write_postindex, write_postindex_reg_shift, write_preindex, write_reg_wback,
};
use crate::creg::write_creg;
use crate::shift::write_shift;
use armv7::{Bank, CReg, Fault, Operand, Place, Reg, RegShift, StatusRegMask};
use sink::DisplaySink;
use text::{
    write_banked_reg, write_banked_spsr, write_branch, write_list, write_option, write_prefixed,
    write_reg, write_spanned,
};
use visitor::{OperandVisitor, admit_distance, visit};

#[derive(Drop)]
pub struct DisplayingOperandVisitor<'a, T> {
    pub f: &'a mut T,
}

impl<T: DisplaySink> OperandVisitor for DisplayingOperandVisitor<'_, T> {
    type Ok = ();

    type Error = Fault;

    ghost answers = { Written T.DisplaySink.sink };

    fn visit_reg(&mut self, reg: Reg) -> Result<(), Fault> {
        write_reg(self.f, reg)
    }

    fn visit_reg_wback(&mut self, reg: Reg, wback: bool) -> Result<(), Fault> {
        write_reg_wback(self.f, reg, wback)
    }

    fn visit_reglist(&mut self, list: u16) -> Result<(), Fault> {
        write_list(self.f, list)
    }

    fn visit_reg_deref(&mut self, reg: Reg) -> Result<(), Fault> {
        write_deref(self.f, reg)
    }

    fn visit_reg_shift(&mut self, shift: RegShift) -> Result<(), Fault> {
        write_shift(self.f, shift)
    }

    fn visit_reg_deref_postindex_reg_shift(
        &mut self,
        base: Reg,
        shift: RegShift,
        add: bool,
        wback: bool,
    ) -> Result<(), Fault> {
        if wback {
            return Err(Fault::WriteBack(Place::First));
        }
        write_postindex_reg_shift(self.f, base, shift, add)
    }

    fn visit_reg_deref_preindex_reg_shift(
        &mut self,
        base: Reg,
        shift: RegShift,
        add: bool,
        wback: bool,
    ) -> Result<(), Fault> {
        write_preindex(self.f, base, shift, add, wback)
    }

    // It is not shown whether the address is written back.
    fn visit_reg_deref_postindex_offset(
        &mut self,
        base: Reg,
        offset: u16,
        add: bool,
        _wback: bool,
    ) -> Result<(), Fault> {
        write_postindex(self.f, base, offset, add, false)
    }

    fn visit_reg_deref_preindex_offset(
        &mut self,
        base: Reg,
        offset: u16,
        add: bool,
        wback: bool,
    ) -> Result<(), Fault> {
        write_preindex(self.f, base, offset, add, wback)
    }

    fn visit_reg_deref_postindex_reg(
        &mut self,
        base: Reg,
        offset: Reg,
        add: bool,
        wback: bool,
    ) -> Result<(), Fault> {
        write_postindex(self.f, base, offset, add, wback)
    }

    fn visit_reg_deref_preindex_reg(
        &mut self,
        base: Reg,
        offset: Reg,
        add: bool,
        wback: bool,
    ) -> Result<(), Fault> {
        write_preindex(self.f, base, offset, add, wback)
    }

    fn visit_imm12(&mut self, imm: u16) -> Result<(), Fault> {
        write_prefixed(self.f, u32::from(imm))
    }

    fn visit_imm32(&mut self, imm: u32) -> Result<(), Fault> {
        write_prefixed(self.f, imm)
    }

    // Kept: two lines each for the two kinds of branch: one function over the scale would take those two lines and save none.
    fn visit_branch_offset(&mut self, offset: i32) -> Result<(), Fault> {
        admit_distance(offset, 4, Place::First)?;
        write_branch(self.f, 4, offset)
    }

    fn visit_blx_offset(&mut self, offset: i32) -> Result<(), Fault> {
        admit_distance(offset, 2, Place::First)?;
        write_branch(self.f, 2, offset)
    }

    fn visit_coprocessor_option(&mut self, nr: u8) -> Result<(), Fault> {
        write_option(self.f, nr)
    }

    fn visit_creg(&mut self, creg: CReg) -> Result<(), Fault> {
        write_creg(self.f, creg)
    }

    fn visit_banked_reg(&mut self, bank: Bank, reg: Reg) -> Result<(), Fault> {
        write_banked_reg(self.f, reg.name(), bank)
    }

    fn visit_banked_spsr(&mut self, bank: Bank) -> Result<(), Fault> {
        write_banked_spsr(self.f, bank)
    }

    fn visit_status_reg_mask(&mut self, mask: StatusRegMask) -> Result<(), Fault> {
        write_spanned(self.f, mask.name())
    }

    fn visit_apsr(&mut self) -> Result<(), Fault> {
        write_spanned(self.f, b"apsr")
    }

    fn visit_spsr(&mut self) -> Result<(), Fault> {
        write_spanned(self.f, b"spsr")
    }

    fn visit_cpsr(&mut self) -> Result<(), Fault> {
        write_spanned(self.f, b"cpsr")
    }

    fn visit_other(&mut self) -> Result<(), Fault> {
        Err(Fault::DeadOperand(Place::First))
    }
}

// Any operand, by one visit. Not inline: inline, it makes registers slower.
#[inline(never)]
fn write_visited<T: DisplaySink>(out: &mut T, operand: &Operand) -> Result<(), Fault>
    ensures printed_or_refused { PrintsUnless T.sink (operand_refused 0 operand.now) (operand_items operand.now) out.old result out.new }
{
    let mut visitor = DisplayingOperandVisitor { f: out };
    visit(operand, &mut visitor)
}

// Writes the text of the operand, or refuses it before anything is written.
// Kept: registers with no visit. By a visit, a line of a typical program takes 37 instructions more, and misses its bar
// (docs/SPEED.md).
#[inline(always)]
pub fn write_operand<T: DisplaySink>(out: &mut T, operand: &Operand) -> Result<(), Fault>
    ensures printed_or_refused { PrintsUnless T.sink (operand_refused 0 operand.now) (operand_items operand.now) out.old result out.new }
{
    match *operand {
        Operand::Reg(reg) => write_reg(out, reg),
        _ => write_visited(out, operand),
    }
}
