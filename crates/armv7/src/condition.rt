// The conditions under which an instruction is carried out.
ghost use Rattle.std.specs.Prelude.{◌≡◌, ◌<◌, length, MatchOption};
ghost use Rattle.armv7.specs.Conditions.{condition_number, condition_name};

// A condition; AL is always.
#[derive(Clone, Copy, PartialEq, Eq)]
pub enum ConditionCode {
    EQ,
    NE,
    HS,
    LO,
    MI,
    PL,
    VS,
    VC,
    HI,
    LS,
    GE,
    LT,
    GT,
    LE,
    AL,
}

const CONDITION_NAMES: [&[u8]; 15] = [
    b"eq", b"ne", b"hs", b"lo", b"mi", b"pl", b"vs", b"vc", b"hi", b"ls", b"ge", b"lt", b"gt",
    b"le", b"al",
];

impl ConditionCode {
    // All of them, by the manual's number.
    pub const ALL: [ConditionCode; 15] = [
        ConditionCode::EQ,
        ConditionCode::NE,
        ConditionCode::HS,
        ConditionCode::LO,
        ConditionCode::MI,
        ConditionCode::PL,
        ConditionCode::VS,
        ConditionCode::VC,
        ConditionCode::HI,
        ConditionCode::LS,
        ConditionCode::GE,
        ConditionCode::LT,
        ConditionCode::GT,
        ConditionCode::LE,
        ConditionCode::AL,
    ];

    // The two letters that it is printed under.
    pub fn name(&self) -> &'static [u8]
        ensures value { result.now ≡ condition_name self.now }
        ensures size { length result.now ≡ 2 }
    {
        CONDITION_NAMES[*self as usize]
    }

    // The condition with the manual's number, where there is one: 0 to 14.
    pub fn build(value: u8) -> Option<ConditionCode>
        ensures value { MatchOption result (14 < value) (λ c. condition_number c ≡ value) }
    {
        ConditionCode::ALL.get(value as usize).copied()
    }
}
