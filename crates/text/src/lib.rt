// Writers of the texts that operands are made of: register names, numbers and register lists.
#![tactic(auto)]

mod list;
mod number;
mod piece;

pub use list::write_list;
pub use number::{write_branch, write_decimal, write_option, write_prefixed};
pub use piece::{
    write_banked_reg, write_banked_spsr, write_either, write_flagged, write_reg, write_spanned,
    write_text, write_twice_spanned,
};
