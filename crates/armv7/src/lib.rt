// The parts of an ARMv7 instruction, with the names that they are printed under and the refusals that guard them.
#![tactic(auto)]

pub mod bank;
pub mod call;
pub mod condition;
pub mod creg;
pub mod fault;
pub mod instruction;
pub mod operand;
pub mod reg;
pub mod shift;
pub mod status;

pub use bank::Bank;
pub use call::Call;
pub use condition::ConditionCode;
pub use creg::CReg;
pub use fault::{Fault, Place};
pub use instruction::Instruction;
pub use opcode::Opcode;
pub use operand::Operand;
pub use reg::Reg;
pub use shift::{RegImmShift, RegRegShift, RegShift, RegShiftStyle, ShiftStyle};
pub use status::StatusRegMask;
