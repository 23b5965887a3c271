// The notation of a fault record: the tokens of a line, and what can stand in an argument's place.
#![tactic(auto)]

mod cursor;
mod leaf;
mod lex;
mod part;

pub use cursor::{Cursor, Slip};
pub use leaf::row_of;
pub use lex::Token;
pub use part::Part;
