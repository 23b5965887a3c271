// Sinks with a byte too little, just enough, and a byte too much.
use crate::printed::LINES;
use armv7::{ConditionCode, Fault, Instruction, Opcode, Operand, Reg};
use display::visit_inst;
use measure::measure;
use sink::{Edge, Mark, MarkSink, Span, TextSink};

// More memory than any line takes.
pub(crate) const MEMORY: usize = 400;

// The longest line.
pub(crate) const LONGEST: Instruction = Instruction {
    condition: ConditionCode::EQ,
    opcode: Opcode::MCRR(15, 15),
    operands: [Operand::RegList(0xffff); 4],
    s: true,
    wide: true,
    thumb_w: true,
    thumb: true,
};

pub(crate) fn add() -> Instruction {
    let operands = [
        Operand::Reg(Reg::R0),
        Operand::Reg(Reg::R1),
        Operand::Reg(Reg::R2),
        Operand::Nothing,
    ];
    Instruction::plain(Opcode::ADD, operands)
}

// A byte too little for the line.
const SHORT: usize = 13;

// What that room, and rooms of a byte and of two bytes more, come to hold: the answer, the length of the text, the marks, and the
// memory of 16 bytes of which the room is a part.
const HELD: [(Result<(), Fault>, usize, usize, [u8; 16]); 3] = [
    (Err(Fault::SinkFull), 13, 7, *b"add r0, r1, r---"),
    (Ok(()), 14, 8, *b"add r0, r1, r2--"),
    (Ok(()), 14, 8, *b"add r0, r1, r2--"),
];

const NO_MARK: Mark = Mark {
    at: 99,
    ..Mark::BLANK
};

fn mark(edge: Edge, span: Span, at: usize) -> Mark {
    Mark { edge, span, at }
}

// The marks of the whole line.
fn marks() -> [Mark; 8] {
    [
        mark(Edge::Start, Span::Opcode, 0),
        mark(Edge::End, Span::Opcode, 3),
        mark(Edge::Start, Span::Register, 4),
        mark(Edge::End, Span::Register, 6),
        mark(Edge::Start, Span::Register, 8),
        mark(Edge::End, Span::Register, 10),
        mark(Edge::Start, Span::Register, 12),
        mark(Edge::End, Span::Register, 14),
    ]
}

// The answer, and how many bytes and marks there are.
fn marked(
    instruction: &Instruction,
    buf: &mut [u8],
    row: &mut [Mark],
) -> (Result<(), Fault>, usize, usize) {
    let mut out = MarkSink::new(buf, row);
    let answer = visit_inst(instruction, &mut out);
    let (size, count) = out.end();
    (answer, size, count)
}

fn written(instruction: &Instruction, buf: &mut [u8]) -> (Result<(), Fault>, usize) {
    let mut out = TextSink::new(buf);
    let answer = visit_inst(instruction, &mut out);
    (answer, out.end())
}

// Does this room come to hold as much of a line of this size as fits, with the answer to that, and nothing past it?
fn is_printed_in(instruction: &Instruction, size: usize, room: usize) -> bool {
    let room = room.min(MEMORY);
    let held = size.min(room);
    let answer = if room < size {
        Err(Fault::SinkFull)
    } else {
        Ok(())
    };
    let mut whole = [b'-'; MEMORY];
    let mut part = [b'-'; MEMORY];
    written(instruction, &mut whole) == (Ok(()), size)
        && written(instruction, &mut part[..room]) == (answer, held)
        && part[..held] == whole[..held]
        && part.iter().skip(held).all(|b| *b == b'-')
}

// No room, a byte too little, just enough, and a byte too much.
fn is_printed_in_each_room(instruction: &Instruction, size: usize) -> bool {
    let short = size.saturating_sub(1);
    let long = size.saturating_add(1);
    [0, short, size, long]
        .iter()
        .all(|room| is_printed_in(instruction, size, *room))
}

#[test]
fn lines_are_printed_in_each_room(rt: HostRuntime) {
    assert!(rt; is_printed_in_each_room(&LONGEST, 285));
    for (condition, opcode, operands, text) in LINES {
        let instruction = Instruction {
            condition,
            ..Instruction::plain(opcode, operands)
        };
        assert!(rt; is_printed_in_each_room(&instruction, text.len()));
    }
}

#[test]
fn text_stops_where_the_room_ends(rt: HostRuntime) {
    for (more, (answer, size, _, memory)) in HELD.iter().enumerate() {
        let mut buf = [b'-'; 16];
        assert!(rt; written(&add(), &mut buf[..SHORT + more]) == (*answer, *size));
        assert!(rt; buf == *memory);
    }
}

#[test]
fn marks_stop_with_the_text(rt: HostRuntime) {
    for (more, (answer, size, count, memory)) in HELD.iter().enumerate() {
        let mut buf = [b'-'; 16];
        let mut row = [NO_MARK; 8];
        let held = marked(&add(), &mut buf[..SHORT + more], &mut row);
        assert!(rt; held == (*answer, *size, *count));
        assert!(rt; buf == *memory);
        for ((place, mark), written) in row.iter().enumerate().zip(marks()) {
            let expected = if place < *count { written } else { NO_MARK };
            assert!(rt; *mark == expected);
        }
    }
}

#[test]
fn the_longest_line_is_285_bytes_and_130_marks(rt: HostRuntime) {
    let mut buf = [0u8; 300];
    let mut row = [NO_MARK; 140];
    assert!(rt; marked(&LONGEST, &mut buf, &mut row) == (Ok(()), 285, 130));
    assert!(rt; matches!(measure(&LONGEST), Ok(285)));
}
