// What the program writes, by its options.
use crate::options::{Options, given};
use crate::written::{self, Written};
use std::alloc::{AllocError, Global};
use std::test::Fail;

// A short record, whose last call is refused.
const RECORD: &[u8] =
    b"Instruction { condition: AL, opcode: LDM(true, false, true, false), operands: [RegWBack(Reg { bits: 13 }, true), RegList(32784), Nothing, Nothing], s: false, wide: false, thumb_w: false, thumb: false }
Instruction { condition: AL, opcode: CMP, operands: [Reg(Reg { bits: 4 }), Imm12(0), Nothing, Nothing], s: false, wide: false, thumb_w: false, thumb: false }
Instruction { condition: AL, opcode: LDR, operands: [Reg(Reg { bits: 3 }), RegDerefPostindexOffset(Reg { bits: 13 }, 4, true, false), Nothing, Nothing], s: false, wide: false, thumb_w: false, thumb: false }
gap
Instruction { condition: AL, opcode: B, operands: [BranchOffset(536870912), Nothing, Nothing, Nothing], s: false, wide: false, thumb_w: false, thumb: false }
";

// A command, and what it writes to standard output and to standard error.
const WRITTEN: [(&str, &str, &str); 6] = [
    (
        "panel",
        "ldm sp!, {r4, pc}
cmp r4, 0x0
pop {r3}

page lines: 4
line 1: page line 1, ldm sp!, {r4, pc}  (loads r4 pc; base sp, upwards, after each, base is changed)
line 2: page line 2, cmp r4, 0x0
line 3: page line 3, pop {r3}  (loads r3; base sp, upwards, after each, base is changed)
line 4: page line 4, gap
line 5: refused with 8, displacement, operand 0, after page line 4: b
3 printed, 1 gaps, 1 refused, 0 not read
",
        "",
    ),
    (
        "panel --page",
        "ldm sp!, {r4, pc}
cmp r4, 0x0
pop {r3}

",
        "page lines: 4
line 1: page line 1, ldm sp!, {r4, pc}  (loads r4 pc; base sp, upwards, after each, base is changed)
line 2: page line 2, cmp r4, 0x0
line 3: page line 3, pop {r3}  (loads r3; base sp, upwards, after each, base is changed)
line 4: page line 4, gap
line 5: refused with 8, displacement, operand 0, after page line 4: b
3 printed, 1 gaps, 1 refused, 0 not read
",
    ),
    // A print is refused, a shorter one fills the page, and a gap is refused.
    (
        "panel --room 27",
        "ldm sp!, {r4, pc}
pop {r3}
page lines: 2
line 1: page line 1, ldm sp!, {r4, pc}  (loads r4 pc; base sp, upwards, after each, base is changed)
line 2: refused with 10, page full, after page line 1: cmp
line 3: page line 2, pop {r3}  (loads r3; base sp, upwards, after each, base is changed)
line 4: refused with 10, page full, after page line 2: gap
line 5: refused with 8, displacement, operand 0, after page line 2: b
2 printed, 0 gaps, 3 refused, 0 not read
",
        "",
    ),
    (
        "panel --marks --room 27",
        "ldm sp!, {r4, pc}
pop {r3}
page lines: 2
opcode starts at 0
opcode ends at 3
register starts at 4
register ends at 6
register starts at 10
register ends at 12
register starts at 14
register ends at 16
opcode starts at 18
opcode ends at 21
register starts at 23
register starts at 23
register ends at 25
register ends at 25
line 1: page line 1, ldm sp!, {r4, pc}  (loads r4 pc; base sp, upwards, after each, base is changed)
line 2: refused with 10, page full, after page line 1: cmp
line 3: page line 2, pop {r3}  (loads r3; base sp, upwards, after each, base is changed)
line 4: refused with 10, page full, after page line 2: gap
line 5: refused with 8, displacement, operand 0, after page line 2: b
2 printed, 0 gaps, 3 refused, 0 not read
",
        "",
    ),
    (
        "panel --manual",
        "ldm sp!, {r4, pc}
cmp r4, 0x0
pop {r3}

page lines: 4
line 1: page line 1, ldm sp!, {r4, pc}  (loads r4 pc; base sp, upwards, after each, base is changed)  manual: pop {r4, pc}
line 2: page line 2, cmp r4, 0x0
line 3: page line 3, pop {r3}  (loads r3; base sp, upwards, after each, base is changed)  manual: pop {r3}
line 4: page line 4, gap
line 5: refused with 8, displacement, operand 0, after page line 4: b
3 printed, 1 gaps, 1 refused, 0 not read
",
        "",
    ),
    (
        "panel --color --page",
        "\x1b[33mldm\x1b[0m \x1b[36msp\x1b[0m!, {\x1b[36mr4\x1b[0m, \x1b[36mpc\x1b[0m}
\x1b[33mcmp\x1b[0m \x1b[36mr4\x1b[0m, 0x0
\x1b[33mpop\x1b[0m {\x1b[36mr3\x1b[0m}

",
        "page lines: 4
line 1: page line 1, \x1b[33mldm\x1b[0m \x1b[36msp\x1b[0m!, {\x1b[36mr4\x1b[0m, \x1b[36mpc\x1b[0m}  (loads r4 pc; base sp, upwards, after each, base is changed)
line 2: page line 2, \x1b[33mcmp\x1b[0m \x1b[36mr4\x1b[0m, 0x0
line 3: page line 3, \x1b[33mpop\x1b[0m {\x1b[36mr3\x1b[0m}  (loads r3; base sp, upwards, after each, base is changed)
line 4: page line 4, gap
line 5: refused with 8, displacement, operand 0, after page line 4: b
3 printed, 1 gaps, 1 refused, 0 not read
",
    ),
];

// A command that is refused, and what is said of it.
const REFUSED: [(&str, &str); 4] = [
    ("panel --colour", "--colour is not known: see panel --help"),
    (
        "panel --page --room",
        "--room wants a number of bytes: see panel --help",
    ),
    (
        "panel --room --page",
        "--room wants a number of bytes, and not --page: see panel --help",
    ),
    (
        "panel first.txt --page second.txt",
        "first.txt and second.txt are two files: see panel --help",
    ),
];

fn asked(heap: Global, command: &str) -> anyhow::Result<Options> {
    let mut words = Vec::new(heap);
    for word in command.split(' ') {
        words.push(String::from_str(heap, word)?)?;
    }
    given(words.into_iter())
}

fn written(heap: Global, command: &str, record: &[u8]) -> anyhow::Result<Written> {
    let options = asked(heap, command)?;
    Ok(written::of(heap, record, &options)?)
}

// What is written one behind the other.
fn joined(heap: Global, texts: [&str; 2]) -> Result<String, AllocError> {
    let [first, second] = texts;
    format!(in heap; "{first}{second}")
}

// What is said of a command that is refused.
fn said(heap: Global, command: &str) -> Result<Option<String>, AllocError> {
    match asked(heap, command) {
        Ok(_) => Ok(None),
        Err(error) => Ok(Some(error.to_string(heap)?)),
    }
}

#[test]
fn options_are_followed(rt: HostRuntime) -> Result<(), Fail> {
    for (command, output, messages) in WRITTEN {
        let written = written(rt.alloc(), command, RECORD)?;
        assert_eq!(rt;
            joined(rt.alloc(), written.output())?.as_str(),
            output,
            "by {command}"
        );
        assert_eq!(rt;
            joined(rt.alloc(), written.messages())?.as_str(),
            messages,
            "by {command}"
        );
        assert_eq!(rt; written.misreadings.count, 0);
    }
    Ok(())
}

#[test]
fn other_options_are_refused(rt: HostRuntime) -> Result<(), Fail> {
    for (command, told) in REFUSED {
        assert_eq!(rt; said(rt.alloc(), command)?.as_deref(), Some(told));
    }
    Ok(())
}

#[test]
fn a_file_and_help_are_taken(rt: HostRuntime) -> Result<(), Fail> {
    let options = asked(rt.alloc(), "panel --page record.txt")?;
    assert!(rt; options.page);
    assert_eq!(rt; options.file.as_deref(), Some("record.txt"));
    assert!(rt; asked(rt.alloc(), "panel --help")?.help);
    Ok(())
}

// A damaged line, of any bytes, costs no other; a line may end with a carriage return.
#[test]
fn damaged_lines_are_told(rt: HostRuntime) -> Result<(), Fail> {
    let record = b"gap\r\ngap \xff\r\n# \xe9\r\n\r\nInstruction { \r\ngap";
    let written = written(rt.alloc(), "panel", record)?;
    let output = "

page lines: 2
line 1: page line 1, gap
line 6: page line 2, gap
0 printed, 2 gaps, 0 refused, 2 not read
";
    let messages = "line 2, column 5: the end of the line was expected, found \\xff
line 5, column 16: condition was expected, found the end of the line
";
    assert_eq!(rt; joined(rt.alloc(), written.output())?.as_str(), output);
    assert_eq!(rt; joined(rt.alloc(), written.messages())?.as_str(), messages);
    assert_eq!(rt; written.misreadings.count, 2);
    Ok(())
}
