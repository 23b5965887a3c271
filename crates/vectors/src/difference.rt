// The listed differences, and those that a case shows.
use armv7::Fault;
use std::fmt;

// Where the original's answer is not the printer's.
#[derive(Clone, Copy)]
pub enum Difference {
    AddAndPre,
    User,
    UserStack,
    Width,
    CodeAboveNine,
    TransferCondition,
    PairCodes,
    ShiftByZero,
    RotateByZero,
    Exchanged,
    NotExchanged,
    ShiftWord,
    Code,
    ItConditionCut,
    ItMask,
    CpsFlags,
    CpsUnshown,
    Distance,
    BlockShape,
    ItShape,
    ModeShape,
    ItCondition,
    Coprocessor,
    WriteBack,
}

// How many differences there are.
pub const COUNT: usize = 24;

impl Difference {
    // Each, in the order in which they are told.
    pub const ALL: [Difference; COUNT] = [
        Difference::AddAndPre,
        Difference::User,
        Difference::UserStack,
        Difference::Width,
        Difference::CodeAboveNine,
        Difference::TransferCondition,
        Difference::PairCodes,
        Difference::ShiftByZero,
        Difference::RotateByZero,
        Difference::Exchanged,
        Difference::NotExchanged,
        Difference::ShiftWord,
        Difference::Code,
        Difference::ItConditionCut,
        Difference::ItMask,
        Difference::CpsFlags,
        Difference::CpsUnshown,
        Difference::Distance,
        Difference::BlockShape,
        Difference::ItShape,
        Difference::ModeShape,
        Difference::ItCondition,
        Difference::Coprocessor,
        Difference::WriteBack,
    ];

    // Whether this is a refusal with which the printer answers where the original shows the difference.
    fn refuses(self, fault: Fault) -> bool {
        match fault {
            Fault::ShiftWord => matches!(self, Difference::ShiftWord),
            Fault::CodeNumber => matches!(self, Difference::Code),
            Fault::Shape => matches!(
                self,
                Difference::BlockShape | Difference::ItShape | Difference::ModeShape
            ),
            Fault::Field(_) => matches!(
                self,
                Difference::ItConditionCut
                    | Difference::ItMask
                    | Difference::CpsFlags
                    | Difference::ItCondition
            ),
            Fault::DeadOperand(_) => {
                matches!(self, Difference::CpsUnshown | Difference::Coprocessor)
            }
            Fault::WriteBack(_) => matches!(self, Difference::CpsUnshown | Difference::WriteBack),
            Fault::Displacement(_) => matches!(self, Difference::CpsUnshown | Difference::Distance),
            _ => false,
        }
    }
}

impl fmt::Display for Difference {
    fn fmt<W: fmt::Write>(&self, f: &mut fmt::Formatter<W>) -> fmt::Result {
        f.write_str(match self {
            Difference::AddAndPre => "add and pre: ib, not ia",
            Difference::User => "user registers: ^",
            Difference::UserStack => "pop and push with the user flag",
            Difference::Width => "the width behind the condition",
            Difference::CodeAboveNine => "codes above 9 in decimal",
            Difference::TransferCondition => "the condition of LDC, LDCL, STC, STCL",
            Difference::PairCodes => "the codes of MCRR, MRRC",
            Difference::ShiftByZero => "lsr and asr by 0 mean 32",
            Difference::RotateByZero => "ror by 0 means rrx",
            Difference::Exchanged => "exchanged halves: x, not t",
            Difference::NotExchanged => "halves not exchanged: nothing, not b",
            Difference::ShiftWord => "a shift word that is none: refused with 2",
            Difference::Code => "a code above 15: refused with 3",
            Difference::ItConditionCut => {
                "an IT condition that is cut to a byte: refused with 5"
            }
            Difference::ItMask => "an IT mask above 15: refused with 5",
            Difference::CpsFlags => "CPS flags above 7: refused with 5",
            Difference::CpsUnshown => {
                "a second operand of CPS that is not shown: refused with 6, 7 or 8"
            }
            Difference::Distance => {
                "a distance that the scale takes out of 32 bits: refused with 8"
            }
            Difference::BlockShape => "panic, LDM or STM of another shape: refused with 4",
            Difference::ItShape => "panic, IT of another shape: refused with 4",
            Difference::ModeShape => "panic, CPS or SETEND of another shape: refused with 4",
            Difference::ItCondition => "panic, an IT condition of 15 to 255: refused with 5",
            Difference::Coprocessor => "panic, Coprocessor: refused with 6",
            Difference::WriteBack => "panic, a post-indexed shift with write-back: refused with 7",
        })
    }
}

// The differences that a case shows.
// Kept: a flag for each, since a set on the heap could fail wherever one is added, also where nothing else allocates.
#[derive(Clone, Copy)]
pub struct Seen {
    shown: [bool; COUNT],
}

impl Seen {
    pub(crate) fn nothing() -> Seen {
        Seen {
            shown: [false; COUNT],
        }
    }

    pub(crate) fn add(&mut self, difference: Difference) {
        self.shown[difference as usize] = true;
    }

    pub(crate) fn has(&self, difference: Difference) -> bool {
        self.shown[difference as usize]
    }

    pub(crate) fn is_empty(&self) -> bool {
        !self.shown.contains(&true)
    }

    // These, and those.
    pub(crate) fn joined(&self, other: Seen) -> Seen {
        let mut all = *self;
        for (shown, also) in all.shown.iter_mut().zip(other.shown) {
            *shown |= also;
        }
        all
    }

    // Whether one of the differences is refused so.
    pub(crate) fn refuse(&self, fault: Fault) -> bool {
        Difference::ALL.iter().any(|difference| self.has(*difference) && difference.refuses(fault))
    }
}
