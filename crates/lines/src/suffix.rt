// What stands behind the name of an instruction.
ghost use Rattle.std.specs.Prelude.{◌≡◌};
ghost use Rattle.lines.specs.Lines.{suffixed};
ghost use Rattle.lines.specs.Forms.{suffix_in, suffix_text};

use armv7::{ConditionCode, Instruction};
use kind::Suffixes;

// The flag s, the condition and the width.
#[derive(Clone, Copy)]
pub struct Suffix {
    pub s: bool,
    pub condition: ConditionCode,
    pub w: bool,
}

impl Suffix {
    pub fn of(instruction: &Instruction) -> Suffix
        ensures value { result ≡ suffix_in instruction.now }
    {
        Suffix {
            s: instruction.s,
            condition: instruction.condition,
            w: instruction.thumb_w,
        }
    }

    // As much of it as a coprocessor form shows.
    pub fn shown(suffixes: Suffixes, instruction: &Instruction) -> Suffix
        ensures text { suffix_text result ≡ suffixed suffixes instruction.now }
    {
        let bare = Suffix {
            s: false,
            condition: ConditionCode::AL,
            w: false,
        };
        match suffixes {
            Suffixes::Bare => bare,
            Suffixes::Conditional => Suffix {
                condition: instruction.condition,
                ..bare
            },
            Suffixes::Full => Suffix::of(instruction),
        }
    }
}
