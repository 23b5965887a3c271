// Pages: lines one below the other on any sink that tells its room.
#![tactic(auto)]

pub mod closed;
pub mod entry;
pub mod page;
mod row;

pub use closed::ClosedPage;
pub use entry::{Entry, PageFault};
pub use page::Page;
