// The visitor that writes operands to a sink.
#![tactic(auto)]

mod address;
mod creg;
pub mod displaying;
mod shift;

pub use address::write_reg_wback;
pub use displaying::{DisplayingOperandVisitor, write_operand};
