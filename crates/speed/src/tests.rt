// What is printed, by the arguments.
use crate::options::{Options, given};
use crate::{instructions, printing};
use std::alloc::{AllocError, Global};
use std::test::Fail;

// A record of two lines, `cmp r4, 0x0` and `pop {r3}`, a gap, and an instruction that is refused.
const RECORD: &[u8] = b"# A comment.
Instruction { condition: AL, opcode: CMP, operands: [Reg(Reg { bits: 4 }), Imm12(0), Nothing, Nothing], s: false, wide: false, thumb_w: false, thumb: false }
gap
Instruction { condition: AL, opcode: LDR, operands: [Reg(Reg { bits: 3 }), RegDerefPostindexOffset(Reg { bits: 13 }, 4, true, false), Nothing, Nothing], s: false, wide: false, thumb_w: false, thumb: false }
Instruction { condition: AL, opcode: B, operands: [BranchOffset(536870912), Nothing, Nothing, Nothing], s: false, wide: false, thumb_w: false, thumb: false }
";

// A command, and how many bytes it prints.
const PRINTED: [(&str, usize); 5] = [
    ("speed sink 3", 57),
    ("speed buffer 3", 57),
    ("speed page 3", 63),
    ("speed none 3", 0),
    ("speed page 0", 0),
];

const REFUSED: [(&str, &str); 4] = [
    (
        "speed sheet 3",
        "sheet is no way to print; usage: speed sink|buffer|page|none ROUNDS, with a record on standard input",
    ),
    (
        "speed page few",
        "few is no number of rounds; usage: speed sink|buffer|page|none ROUNDS, with a record on standard input",
    ),
    (
        "speed page",
        "usage: speed sink|buffer|page|none ROUNDS, with a record on standard input",
    ),
    (
        "speed page 3 3",
        "usage: speed sink|buffer|page|none ROUNDS, with a record on standard input",
    ),
];

fn asked(heap: Global, command: &str) -> anyhow::Result<Options> {
    let mut words = Vec::new(heap);
    for word in command.split(' ') {
        words.push(String::from_str(heap, word)?)?;
    }
    given(words.into_iter())
}

// What is said of an error.
fn said<T: Drop>(heap: Global, answer: anyhow::Result<T>) -> Result<Option<String>, AllocError> {
    match answer {
        Ok(_) => Ok(None),
        Err(error) => Ok(Some(error.to_string(heap)?)),
    }
}

#[test]
fn each_way_prints_the_lines(rt: HostRuntime) -> Result<(), Fail> {
    let heap = rt.alloc();
    let instructions = instructions::of(heap, RECORD)?;
    assert_eq!(rt; instructions.len(), 3);
    for (command, bytes) in PRINTED {
        let options = asked(heap, command)?;
        let printed = printing::print_all(heap, instructions.as_slice(), options)?;
        assert_eq!(rt; printed, bytes, "by {command}");
    }
    Ok(())
}

#[test]
fn other_arguments_are_refused(rt: HostRuntime) -> Result<(), Fail> {
    let heap = rt.alloc();
    for (command, told) in REFUSED {
        assert_eq!(rt; said(heap, asked(heap, command))?.as_deref(), Some(told));
    }
    Ok(())
}

#[test]
fn a_line_that_cannot_be_read_is_told(rt: HostRuntime) -> Result<(), Fail> {
    let heap = rt.alloc();
    let told = said(heap, instructions::of(heap, b"gap\ngap x\n"))?;
    assert_eq!(rt;
        told.as_deref(),
        Some("line 2, column 5: the end of the line was expected, found x")
    );
    Ok(())
}
