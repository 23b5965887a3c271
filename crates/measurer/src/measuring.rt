// A visitor that tells how many bytes the text of an operand has, and writes nothing.
ghost use Rattle.measurer.specs.Measures.{Measured, Measures};

use crate::size::{
    decimal_size, flag_size, list_size, offset_size, prefixed_size, reg_size, shift_size,
};
use armv7::{Bank, CReg, Fault, Operand, Place, Reg, RegShift, StatusRegMask};
use visitor::{OperandVisitor, admit_distance, visit};

#[derive(Clone, Copy)]
pub struct Measurer;

impl OperandVisitor for Measurer {
    type Ok = usize;

    type Error = Fault;

    ghost answers = { Measures };

    fn visit_reg(&mut self, reg: Reg) -> Result<usize, Fault> {
        Ok(reg_size(reg))
    }

    fn visit_reg_wback(&mut self, reg: Reg, wback: bool) -> Result<usize, Fault> {
        Ok(reg_size(reg) + flag_size(wback))
    }

    fn visit_reglist(&mut self, list: u16) -> Result<usize, Fault> {
        Ok(list_size(list))
    }

    fn visit_reg_deref(&mut self, reg: Reg) -> Result<usize, Fault> {
        Ok(2 + reg_size(reg))
    }

    fn visit_reg_shift(&mut self, shift: RegShift) -> Result<usize, Fault> {
        Ok(shift_size(shift))
    }

    fn visit_reg_deref_postindex_reg_shift(
        &mut self,
        base: Reg,
        shift: RegShift,
        add: bool,
        wback: bool,
    ) -> Result<usize, Fault> {
        if wback {
            return Err(Fault::WriteBack(Place::First));
        }
        Ok(5 + reg_size(base) + flag_size(!add) + shift_size(shift))
    }

    fn visit_reg_deref_preindex_reg_shift(
        &mut self,
        base: Reg,
        shift: RegShift,
        add: bool,
        wback: bool,
    ) -> Result<usize, Fault> {
        Ok(4 + reg_size(base) + flag_size(!add) + shift_size(shift) + flag_size(wback))
    }

    fn visit_reg_deref_postindex_offset(
        &mut self,
        base: Reg,
        offset: u16,
        add: bool,
        _wback: bool,
    ) -> Result<usize, Fault> {
        Ok(2 + reg_size(base) + offset_size(offset, add))
    }

    fn visit_reg_deref_preindex_offset(
        &mut self,
        base: Reg,
        offset: u16,
        add: bool,
        wback: bool,
    ) -> Result<usize, Fault> {
        Ok(2 + reg_size(base) + offset_size(offset, add) + flag_size(wback))
    }

    fn visit_reg_deref_postindex_reg(
        &mut self,
        base: Reg,
        offset: Reg,
        add: bool,
        wback: bool,
    ) -> Result<usize, Fault> {
        Ok(4 + reg_size(base) + flag_size(!add) + reg_size(offset) + flag_size(wback))
    }

    // Kept: as long as the one behind the address, but of another text, and a size is plainer than a call of that one.
    fn visit_reg_deref_preindex_reg(
        &mut self,
        base: Reg,
        offset: Reg,
        add: bool,
        wback: bool,
    ) -> Result<usize, Fault> {
        Ok(4 + reg_size(base) + flag_size(!add) + reg_size(offset) + flag_size(wback))
    }

    fn visit_imm12(&mut self, imm: u16) -> Result<usize, Fault> {
        Ok(prefixed_size(u32::from(imm)))
    }

    fn visit_imm32(&mut self, imm: u32) -> Result<usize, Fault> {
        Ok(prefixed_size(imm))
    }

    // Kept: two lines each for the two kinds of branch: one function over the scale would take those two lines and save none.
    fn visit_branch_offset(&mut self, offset: i32) -> Result<usize, Fault> {
        admit_distance(offset, 4, Place::First)?;
        Ok(2 + prefixed_size(4 * offset.unsigned_abs()))
    }

    fn visit_blx_offset(&mut self, offset: i32) -> Result<usize, Fault> {
        admit_distance(offset, 2, Place::First)?;
        Ok(2 + prefixed_size(2 * offset.unsigned_abs()))
    }

    fn visit_coprocessor_option(&mut self, nr: u8) -> Result<usize, Fault> {
        Ok(2 + prefixed_size(u32::from(nr)))
    }

    fn visit_creg(&mut self, creg: CReg) -> Result<usize, Fault> {
        Ok(1 + decimal_size(creg.number()))
    }

    fn visit_banked_reg(&mut self, _bank: Bank, reg: Reg) -> Result<usize, Fault> {
        Ok(4 + reg_size(reg))
    }

    fn visit_banked_spsr(&mut self, _bank: Bank) -> Result<usize, Fault> {
        Ok(8)
    }

    fn visit_status_reg_mask(&mut self, mask: StatusRegMask) -> Result<usize, Fault> {
        Ok(mask.name().len())
    }

    fn visit_apsr(&mut self) -> Result<usize, Fault> {
        Ok(4)
    }

    fn visit_spsr(&mut self) -> Result<usize, Fault> {
        Ok(4)
    }

    fn visit_cpsr(&mut self) -> Result<usize, Fault> {
        Ok(4)
    }

    fn visit_other(&mut self) -> Result<usize, Fault> {
        Err(Fault::DeadOperand(Place::First))
    }
}

// How many bytes the text of the operand has, or why it has none.
pub fn measure(operand: &Operand) -> Result<usize, Fault>
    ensures measured { Measured operand.now result }
{
    let mut visitor = Measurer;
    visit(operand, &mut visitor)
}
