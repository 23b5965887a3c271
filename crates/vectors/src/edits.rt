// The printer's line, rewritten as the original writes it: an edit for each listed difference.
use crate::difference::Difference;
use crate::family::exchange_of;
use crate::line::Draft;
use armv7::{ConditionCode, Instruction, Opcode, Operand, RegShift, RegShiftStyle, ShiftStyle};
use kind::{Kind, Suffixes, kind_by};
use lines::{is_nothing, letter_count, stack_form};
use std::alloc::AllocError;
use wording::Characters;

// The same block transfer without the user flag, which the original does not ask for where it prints a pop or a push.
fn without_user_flag(asked: &Instruction) -> Instruction {
    let opcode = match asked.opcode {
        Opcode::LDM(add, pre, wback, _) => Opcode::LDM(add, pre, wback, false),
        Opcode::STM(add, pre, wback, _) => Opcode::STM(add, pre, wback, false),
        other => other,
    };
    Instruction { opcode, ..*asked }
}

// How a shift by the amount 0 is shown here and there.
fn zero_shift(shift: RegShift) -> Option<(&'static [u8], &'static [u8], Difference)> {
    let RegShiftStyle::RegImm(by) = shift.into_shift() else {
        return None;
    };
    if by.imm != 0 {
        return None;
    }
    match by.stype {
        ShiftStyle::LSL => None,
        ShiftStyle::LSR => Some((b", lsr 32", b", lsr 0", Difference::ShiftByZero)),
        ShiftStyle::ASR => Some((b", asr 32", b", asr 0", Difference::ShiftByZero)),
        ShiftStyle::ROR => Some((b", rrx", b", ror 0", Difference::RotateByZero)),
    }
}

fn shift_in(operand: Operand) -> Option<RegShift> {
    match operand {
        Operand::RegShift(shift)
        | Operand::RegDerefPostindexRegShift(_, shift, _, _)
        | Operand::RegDerefPreindexRegShift(_, shift, _, _) => Some(shift),
        _ => None,
    }
}

impl Draft {
    // `pop` and `push` for `ldm sp!,` and `stmdb sp!,`.
    fn stack_with_user(&mut self, load: bool) -> Result<(), AllocError> {
        let base = self.line.word_end().saturating_add(1);
        self.drop_first_register()?;
        if !self.put(base, b"sp!, ", b"")? {
            return Ok(());
        }
        if load {
            self.rewrite(0, b"ldm", b"pop", Difference::UserStack)
        } else {
            self.rewrite(0, b"stmdb", b"push", Difference::UserStack)
        }
    }

    // No `^`.
    fn without_user(&mut self) -> Result<bool, AllocError> {
        let end = self.line.text.len();
        self.put(end.saturating_sub(1), b"^", b"")
    }

    fn block_as_written(&mut self, asked: &Instruction) -> Result<(), AllocError> {
        let (Opcode::LDM(add, pre, _, user) | Opcode::STM(add, pre, _, user)) = asked.opcode else {
            return Ok(());
        };
        if user {
            let shown = self.without_user()?;
            if let Some(form) = stack_form(&without_user_flag(asked)) {
                return self.stack_with_user(form.load);
            }
            if shown {
                self.seen.add(Difference::User);
            }
        }
        if add && pre {
            self.rewrite(3, b"ib", b"ia", Difference::AddAndPre)?;
        }
        Ok(())
    }

    // `t` for `x`, and `b` for nothing.
    fn exchange_as_written(&mut self, exchange: bool) -> Result<(), AllocError> {
        if exchange {
            self.rewrite(6, b"x", b"t", Difference::Exchanged)
        } else {
            self.rewrite(5, b"d", b"db", Difference::NotExchanged)
        }
    }

    // `.w` before the condition, in a word with this many letters behind both.
    fn width_as_written(
        &mut self,
        condition: ConditionCode,
        letters: usize,
    ) -> Result<(), AllocError> {
        let suffixes = letters.saturating_add(4);
        let at = self.line.word_end().saturating_sub(suffixes);
        let name = Characters(condition.name());
        let ours = format!(in self.heap; "{name}.w")?;
        let theirs = format!(in self.heap; ".w{name}")?;
        self.rewrite(at, ours.as_bytes(), theirs.as_bytes(), Difference::Width)
    }

    // No condition.
    fn without_condition(&mut self, condition: ConditionCode) -> Result<(), AllocError> {
        let at = self.line.word_end().saturating_sub(2);
        self.rewrite(at, condition.name(), b"", Difference::TransferCondition)
    }

    fn shift_as_written(&mut self, shift: RegShift) -> Result<(), AllocError> {
        if let Some((ours, theirs, difference)) = zero_shift(shift)
            && let Some(at) = self.line.find(0, ours)
        {
            self.rewrite(at, ours, theirs, difference)?;
        }
        Ok(())
    }

    fn shifts_as_written(&mut self, operands: [Operand; 4]) -> Result<(), AllocError> {
        for index in 0..4 {
            let operand = operands[index];
            if is_nothing(operand) {
                break;
            }
            if let Some(shift) = shift_in(operand) {
                self.shift_as_written(shift)?;
            }
        }
        Ok(())
    }

    // With flags above 7 the original shows a place for letters that are not there.
    fn cps_as_written(&mut self, operands: [Operand; 4]) -> Result<(), AllocError> {
        let Operand::Imm12(flags) = operands[0] else {
            return Ok(());
        };
        if flags == 0 || flags % 8 != 0 {
            return Ok(());
        }
        let at = self.line.word_end();
        let _ = match operands[1] {
            Operand::Imm12(_) => self.put(at, b" #", b" , #")?,
            _ => self.put(at, b"", b" ")?,
        };
        Ok(())
    }

    // What the original does with the word's suffix.
    fn suffix_as_written(&mut self, asked: &Instruction) -> Result<(), AllocError> {
        let condition = asked.condition;
        if condition == ConditionCode::AL {
            return Ok(());
        }
        match (kind_by(asked.opcode), asked.operands[1]) {
            (Kind::Coprocessor(codes), _) if matches!(codes.suffixes, Suffixes::Conditional) => {
                self.without_condition(condition)
            }
            (Kind::Coprocessor(codes), _) if matches!(codes.suffixes, Suffixes::Bare) => Ok(()),
            (Kind::It, Operand::Imm32(mask)) if asked.thumb_w => {
                self.width_as_written(condition, letter_count(mask))
            }
            _ if asked.thumb_w => self.width_as_written(condition, 0),
            _ => Ok(()),
        }
    }

    // Rewrites the line of the repaired instruction as the original writes the one that was asked for.
    pub(crate) fn as_written(&mut self, asked: &Instruction) -> Result<(), AllocError> {
        self.shifts_as_written(asked.operands)?;
        self.far_branches(asked.operands)?;
        match kind_by(asked.opcode) {
            Kind::Coprocessor(codes) => self.codes_as_written(codes)?,
            Kind::Cps => self.cps_as_written(asked.operands)?,
            _ => {}
        }
        self.suffix_as_written(asked)?;
        self.block_as_written(asked)?;
        if let Some(exchange) = exchange_of(asked.opcode) {
            self.exchange_as_written(exchange)?;
        }
        Ok(())
    }
}
