// Tests of the record reader: lines that are read, and lines that are damaged.
#![tactic(auto)]

#[cfg(test)]
mod tests {
    use armv7::{Call, Fault};
    use record::{Message, read_line};
    use std::alloc::{AllocError, Global};
    use std::test::Fail;

    // Damaged lines, each with what is said of it as line 7.
    const DAMAGED: [(&[u8], &str); 15] = [
        (
            b"gop",
            "line 7, column 1: gap or Instruction was expected, found gop",
        ),
        (
            b" gap gap",
            "line 7, column 6: the end of the line was expected, found gap",
        ),
        (
            b"gap \xff\xfe",
            "line 7, column 5: the end of the line was expected, found \\xff",
        ),
        (
            b"\xc3\xa9 gap",
            "line 7, column 1: gap or Instruction was expected, found \\xc3",
        ),
        (
            b"Instruction",
            "line 7, column 12: { was expected, found the end of the line",
        ),
        (
            b"Instruction {",
            "line 7, column 14: condition was expected, found the end of the line",
        ),
        (
            b"Instruction { condition: XX",
            "line 7, column 26: a condition was expected, found XX",
        ),
        (
            b"Instruction { condition: AL, opcode: FOO",
            "line 7, column 38: an opcode was expected, found FOO",
        ),
        (
            b"Instruction { condition: AL, opcode: MRC2(256, 0, 0)",
            "line 7, column 43: a number from 0 to 255 was expected, found 256",
        ),
        (
            b"Instruction { condition: AL, opcode: LDM(true, 1",
            "line 7, column 48: true or false was expected, found 1",
        ),
        (
            b"Instruction { condition: AL, opcode: ADD, operands: [Reg(Reg { bits: 16 })",
            "line 7, column 70: a register number from 0 to 15 was expected, found 16 (refusal 1: register)",
        ),
        (
            b"Instruction { condition: AL, opcode: ADD, operands: [RegShift(RegShift { data: 4096 })",
            "line 7, column 80: a shift word was expected, found 4096 (refusal 2: shift word)",
        ),
        (
            b"Instruction { condition: AL, opcode: B, operands: [BranchOffset(-2147483649)",
            "line 7, column 66: a number from -2147483648 to 2147483647 was expected, found 2147483649",
        ),
        (
            b"gap gap",
            "line 7, column 5: the end of the line was expected, found gap",
        ),
        (
            b"Instr",
            "line 7, column 1: gap or Instruction was expected, found Instr",
        ),
    ];

    fn said(heap: Global, line: &[u8]) -> Result<Option<String>, AllocError> {
        match read_line(line) {
            Ok(_) => Ok(None),
            Err(misread) => Ok(Some(Message { line: 7, misread }.to_string(heap)?)),
        }
    }

    #[test]
    fn damage_is_told(rt: HostRuntime) -> Result<(), Fail> {
        for (line, text) in DAMAGED {
            assert_eq!(rt; said(rt.alloc(), line)?.as_deref(), Some(text));
        }
        Ok(())
    }

    fn refusal(line: &[u8]) -> Option<Fault> {
        read_line(line).err().and_then(|misread| misread.refusal)
    }

    #[test]
    fn refusals_are_told(rt: HostRuntime) {
        assert!(rt; refusal(DAMAGED[10].0) == Some(Fault::Register));
        assert!(rt; refusal(DAMAGED[11].0) == Some(Fault::ShiftWord));
        assert!(rt; refusal(DAMAGED[0].0) == None);
        assert!(rt; refusal(DAMAGED[13].0) == None);
    }

    #[test]
    fn blanks_comments_and_gaps_are_read(rt: HostRuntime) {
        assert!(rt; matches!(read_line(b" \t"), Ok(None)));
        assert!(rt; matches!(read_line(b"  # anything { at all"), Ok(None)));
        assert!(rt; matches!(read_line(b"  # anything { at all \xff"), Ok(None)));
        assert!(rt; matches!(read_line(b" gap\r"), Ok(Some(Call::Gap))));
    }
}
