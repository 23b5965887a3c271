// The text of an operand, and what a visitor of operands does.
#![tactic(auto)]

pub mod distance;
pub mod visitor;

pub use distance::admit_distance;
pub use visitor::{OperandVisitor, visit};
