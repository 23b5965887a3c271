// Lines: which instructions have one, what it shows, and which are printed under another name.
#![tactic(auto)]

mod admission;
mod alias;
mod coprocessor;
mod form;
mod letters;
mod operands;
mod suffix;

pub use admission::admit;
pub use alias::{StackForm, Stacked, stack_form, stack_word};
pub use form::{Block, Form, ItBlock, Reached};
pub use letters::letter_count;
pub use operands::is_nothing;
pub use suffix::Suffix;
