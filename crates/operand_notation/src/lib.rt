// The notation of operands.
#![tactic(auto)]

mod operand;

pub use operand::read_operands;
