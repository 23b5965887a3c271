// A call of a page, with its answer beside it.
use armv7::{Call, Fault};

// A fault, and how many lines the page had.
#[derive(Clone, Copy, PartialEq, Eq)]
pub struct PageFault {
    pub fault: Fault,
    pub count: u64,
}

#[derive(Clone, Copy)]
pub struct Entry {
    pub call: Call,
    pub answer: Result<u64, PageFault>,
}
