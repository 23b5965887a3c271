// What is said of a line that cannot be read.
#![tactic(auto)]

mod given;
mod messages;
mod misread;

pub use given::Given;
pub use messages::Message;
pub use misread::{Expected, Misread};
