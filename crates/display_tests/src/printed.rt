// Worked lines, of each form.
use crate::rooms::MEMORY;
use armv7::{CReg, ConditionCode, Instruction, Opcode, Operand, Reg, RegShift};
use display::visit_inst;
use measure::measure;
use sink::TextSink;
use std::test::Fail;

const NONE: Operand = Operand::Nothing;

pub(crate) const LINES: [(ConditionCode, Opcode, [Operand; 4], &[u8]); 14] = [
    (
        ConditionCode::AL,
        Opcode::LDM(true, false, false, false),
        [
            Operand::RegWBack(Reg::R13, true),
            Operand::RegList(0x8010),
            NONE,
            NONE,
        ],
        b"pop {r4, pc}",
    ),
    (
        ConditionCode::AL,
        Opcode::LDM(true, false, true, false),
        [
            Operand::RegWBack(Reg::R13, true),
            Operand::RegList(0x8010),
            NONE,
            NONE,
        ],
        b"ldm sp!, {r4, pc}",
    ),
    (
        ConditionCode::EQ,
        Opcode::STM(false, true, false, false),
        [
            Operand::RegWBack(Reg::R13, true),
            Operand::RegList(0x4010),
            NONE,
            NONE,
        ],
        b"pusheq {r4, lr}",
    ),
    (
        ConditionCode::AL,
        Opcode::LDR,
        [
            Operand::Reg(Reg::R3),
            Operand::RegDerefPostindexOffset(Reg::R13, 4, true, false),
            NONE,
            NONE,
        ],
        b"pop {r3}",
    ),
    (
        ConditionCode::AL,
        Opcode::STR,
        [
            Operand::Reg(Reg::R3),
            Operand::RegDerefPreindexOffset(Reg::R13, 4, false, true),
            NONE,
            NONE,
        ],
        b"push {r3}",
    ),
    (
        ConditionCode::AL,
        Opcode::LDR,
        [
            Operand::Reg(Reg::R3),
            Operand::RegDerefPostindexOffset(Reg::R13, 8, true, false),
            NONE,
            NONE,
        ],
        b"ldr r3, [sp], 0x8",
    ),
    (
        ConditionCode::AL,
        Opcode::IT,
        [Operand::Imm32(1), Operand::Imm32(12), NONE, NONE],
        b"itt ne",
    ),
    (
        ConditionCode::AL,
        Opcode::IT,
        [Operand::Imm32(0), Operand::Imm32(12), NONE, NONE],
        b"ite eq",
    ),
    (
        ConditionCode::AL,
        Opcode::CPS(false),
        [Operand::Imm12(3), Operand::Imm12(0x13), NONE, NONE],
        b"cpsie if, #0x13",
    ),
    (
        ConditionCode::AL,
        Opcode::SETEND,
        [Operand::Imm12(1), NONE, NONE, NONE],
        b"setend be",
    ),
    (
        ConditionCode::AL,
        Opcode::MRC2(15, 0, 2),
        [
            Operand::Reg(Reg::R0),
            Operand::CReg(CReg::C1),
            Operand::CReg(CReg::C2),
            NONE,
        ],
        b"mrc2 p15, 0, r0, c1, c2, 2",
    ),
    (
        ConditionCode::AL,
        Opcode::B,
        [Operand::BranchOffset(-2), NONE, NONE, NONE],
        b"b $-0x8",
    ),
    (
        ConditionCode::AL,
        Opcode::B,
        [Operand::BranchOffset(0), NONE, NONE, NONE],
        b"b $+0x0",
    ),
    (
        ConditionCode::AL,
        Opcode::B,
        [Operand::BranchOffset(536_870_911), NONE, NONE, NONE],
        b"b $+0x7ffffffc",
    ),
];

// Is the instruction printed as this text, and measured as that long?
fn has_line(instruction: &Instruction, text: &[u8]) -> bool {
    let mut memory = [0u8; MEMORY];
    let mut out = TextSink::new(&mut memory);
    let printed = visit_inst(instruction, &mut out).is_ok() && out.text() == text;
    let measured = matches!(measure(instruction), Ok(n) if n == text.len());
    printed && measured
}

#[test]
fn worked_lines_are_printed(rt: HostRuntime) {
    for (condition, opcode, operands, text) in LINES {
        let instruction = Instruction {
            condition,
            ..Instruction::plain(opcode, operands)
        };
        assert!(rt; has_line(&instruction, text));
    }
}

#[test]
fn suffixes_and_shifts_are_printed(rt: HostRuntime) -> Result<(), Fail> {
    let Ok(shift) = RegShift::from_raw(386) else {
        return Err(Fail::new("386 is a shift word"));
    };
    let instruction = Instruction {
        condition: ConditionCode::NE,
        opcode: Opcode::ADD,
        operands: [
            Operand::Reg(Reg::R0),
            Operand::Reg(Reg::R1),
            Operand::RegShift(shift),
            NONE,
        ],
        s: true,
        wide: true,
        thumb_w: true,
        thumb: true,
    };
    assert!(rt; has_line(&instruction, b"addsne.w r0, r1, r2, lsl 3"));
    Ok(())
}
