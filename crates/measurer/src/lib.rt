// The visitor that measures operands.
#![tactic(auto)]

pub mod measuring;
mod size;

pub use measuring::{Measurer, measure};
pub use size::{decimal_size, flag_size};
