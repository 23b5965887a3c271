// Refusals: each has a number, a word and the place of the operand that it is about.
ghost use Rattle.std.specs.Prelude.{◌≡◌, MatchOption};
ghost use Rattle.armv7.specs.Faults.{place_index, no_operand, refusal, fault_word};

// The place of an operand in its instruction.
#[derive(Clone, Copy, PartialEq, Eq)]
pub enum Place {
    First,
    Second,
    Third,
    Fourth,
}

// Why something was refused.
#[derive(Clone, Copy, PartialEq, Eq)]
pub enum Fault {
    // A register was to be made from a number above 15.
    Register,
    // A shift word was to be made from a number that is none.
    ShiftWord,
    // A number inside a coprocessor form's opcode is above 15.
    CodeNumber,
    // The operands have not the cases that the opcode asks for.
    Shape,
    // A condition, a mask or flags are out of range.
    Field(Place),
    // An operand that has no text.
    DeadOperand(Place),
    // A post-indexed shifted register with write-back.
    WriteBack(Place),
    // A branch distance that its scale takes out of range.
    Displacement(Place),
    // The text is longer than the sink's room.
    SinkFull,
    // The line and its end are longer than the page's room.
    PageFull,
    // The manual's spelling is wanted of an instruction that has none.
    NoManualForm,
}

impl Place {
    // All four, in order.
    pub const ALL: [Place; 4] = [Place::First, Place::Second, Place::Third, Place::Fourth];

    // From 0 for the first operand to 3 for the last.
    pub fn index(&self) -> u8
        ensures value { result ≡ place_index self.now }
    {
        *self as u8
    }
}

impl Fault {
    // From 1 to 11.
    // Kept: which number a refusal has is a rule of the project.
    pub fn number(&self) -> u8
        ensures value { result ≡ (refusal self.now).number }
    {
        match *self {
            Fault::Register => 1,
            Fault::ShiftWord => 2,
            Fault::CodeNumber => 3,
            Fault::Shape => 4,
            Fault::Field(_) => 5,
            Fault::DeadOperand(_) => 6,
            Fault::WriteBack(_) => 7,
            Fault::Displacement(_) => 8,
            Fault::SinkFull => 9,
            Fault::PageFull => 10,
            Fault::NoManualForm => 11,
        }
    }

    // What the trade calls it.
    pub fn word(&self) -> &'static [u8]
        ensures value { result.now ≡ fault_word self.now }
    {
        match *self {
            Fault::Register => b"register",
            Fault::ShiftWord => b"shift word",
            Fault::CodeNumber => b"code number",
            Fault::Shape => b"shape",
            Fault::Field(_) => b"field",
            Fault::DeadOperand(_) => b"dead operand",
            Fault::WriteBack(_) => b"write-back",
            Fault::Displacement(_) => b"displacement",
            Fault::SinkFull => b"sink full",
            Fault::PageFull => b"page full",
            Fault::NoManualForm => b"no manual form",
        }
    }

    // The place of the operand that the fault is about, if it is about one.
    pub fn operand(&self) -> Option<Place>
        ensures value { MatchOption result ((refusal self.now).place ≡ no_operand) (λ p. (refusal self.now).place ≡ place_index p) }
    {
        match *self {
            Fault::Field(at)
            | Fault::DeadOperand(at)
            | Fault::WriteBack(at)
            | Fault::Displacement(at) => Some(at),
            _ => None,
        }
    }

    // The operand's place, 0 to 3, or 4 where the fault is about none.
    // Kept: 4 in place of `None` is a rule of the project.
    pub fn place(&self) -> u8
        ensures value { result ≡ (refusal self.now).place }
    {
        self.operand().map_or(4, |at| at.index())
    }
}
