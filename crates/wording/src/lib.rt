// What the programs say in words: of a refusal, of a block transfer, of lines that could not be read and of a whole record.
#![tactic(auto)]

mod bytes;
mod fault;
mod misreadings;
mod registers;
mod totals;
mod transfer;

pub use bytes::Characters;
pub use fault::Refusal;
pub use misreadings::Misreadings;
pub use totals::Totals;
pub use transfer::Transfer;

#[cfg(test)]
mod tests {
    use super::*;
    use armv7::{ConditionCode, Fault, Place, Reg};
    use blocks::fields::Sheet;
    use std::test::Fail;

    fn pop(mask: u16) -> Sheet {
        Sheet {
            load: true,
            add: true,
            pre: false,
            base: Reg::R13,
            wback: true,
            mask,
            condition: ConditionCode::AL,
            s: false,
            w: false,
            user: false,
        }
    }

    #[test]
    fn refusals(rt: HostRuntime) -> Result<(), Fail> {
        let cases = [
            (Fault::SinkFull, "9, sink full"),
            (Fault::PageFull, "10, page full"),
            (Fault::NoManualForm, "11, no manual form"),
            (
                Fault::Displacement(Place::First),
                "8, displacement, operand 0",
            ),
            (Fault::Field(Place::Fourth), "5, field, operand 3"),
        ];
        for (fault, words) in cases {
            assert_eq!(rt; Refusal(fault).to_string(rt.alloc())?.as_str(), words);
        }
        Ok(())
    }

    #[test]
    fn transfers(rt: HostRuntime) -> Result<(), Fail> {
        let push = Sheet {
            load: false,
            add: false,
            pre: true,
            ..pop(0x4030)
        };
        let returning = Sheet {
            user: true,
            ..pop(0x8010)
        };
        let cases = [
            (
                push,
                "stores r4 r5 lr; base sp, downwards, before each, base is changed",
            ),
            (
                returning,
                "loads r4 pc; base sp, upwards, after each, base is changed, status restored",
            ),
            (
                Sheet {
                    wback: false,
                    ..pop(0)
                },
                "loads nothing; base sp, upwards, after each, base stays",
            ),
        ];
        for (sheet, words) in cases {
            assert_eq!(rt; Transfer(&sheet).to_string(rt.alloc())?.as_str(), words);
        }
        Ok(())
    }

    #[test]
    fn totals(rt: HostRuntime) -> Result<(), Fail> {
        let totals = Totals {
            printed: 10,
            gaps: 1,
            refused: 1,
            misread: 0,
        };
        let words = totals.to_string(rt.alloc())?;
        assert_eq!(rt; words.as_str(), "10 printed, 1 gaps, 1 refused, 0 not read");
        Ok(())
    }

    #[test]
    fn misreadings(rt: HostRuntime) -> Result<(), Fail> {
        let mut misreadings = Misreadings::none(rt.alloc());
        misreadings.add(rt.alloc(), "line 1")?;
        misreadings.add(rt.alloc(), "line 4")?;
        assert_eq!(rt; misreadings.text.as_str(), "line 1\nline 4\n");
        assert_eq!(rt; misreadings.count, 2);
        Ok(())
    }

    // A byte above 127 is two bytes of text.
    #[test]
    fn characters(rt: HostRuntime) -> Result<(), Fail> {
        let text = Characters(&[b'a', 0xe9]).to_string(rt.alloc())?;
        assert_eq!(rt; text.as_str(), "aé");
        Ok(())
    }
}
