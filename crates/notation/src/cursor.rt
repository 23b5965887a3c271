// A place in a line.
ghost use Rattle.std.specs.Prelude.{◌≡◌, ◌≤◌, None, length};

use armv7::Fault;
use misreading::Expected;

// The bytes of a line from `at` on are still to be read.
#[derive(Drop)]
pub struct Cursor<'a> {
    pub line: &'a [u8],
    pub at: usize,
    ghost inside: { at ≤ length line.now },
}

// What is wrong with the token that a cursor stops before.
#[derive(Clone, Copy)]
pub struct Slip {
    pub expected: Expected,
    // Why a number that was read is none of a register or of a shift.
    pub refusal: Option<Fault>,
}

impl Slip {
    // Another token was expected.
    pub fn new(expected: Expected) -> Slip
        ensures value { result ≡ record { expected = expected; refusal = None } }
    {
        Slip {
            expected,
            refusal: None,
        }
    }
}
