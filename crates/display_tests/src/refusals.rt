// Refusals 3 to 8, at each place that can have them.
use crate::rooms::MEMORY;
use armv7::{ConditionCode, Fault, Instruction, Opcode, Operand, Place, Reg, RegShift};
use display::visit_inst;
use lines::admit;
use measure::measure;
use sink::TextSink;
use std::test::Fail;
use writer::write_operand;

const NONE: Operand = Operand::Nothing;

const R0: Operand = Operand::Reg(Reg::R0);

// Each with the number and the place of its refusal; the place is 4 where it is about no operand.
const REFUSED: [(Opcode, [Operand; 4], (u8, u8)); 18] = [
    (Opcode::LDC(16), [R0, NONE, NONE, NONE], (3, 4)),
    (
        Opcode::LDC(16),
        [Operand::Coprocessor(0), NONE, NONE, NONE],
        (3, 4),
    ),
    (
        Opcode::CPS(true),
        [Operand::Imm12(8), Operand::Coprocessor(0), NONE, NONE],
        (5, 0),
    ),
    (Opcode::MCRR(15, 16), [NONE, NONE, NONE, NONE], (3, 4)),
    (Opcode::MRC2(0, 0, 16), [NONE, NONE, NONE, NONE], (3, 4)),
    (
        Opcode::LDM(true, false, false, false),
        [R0, Operand::RegList(1), NONE, NONE],
        (4, 4),
    ),
    (
        Opcode::STM(true, false, false, false),
        [
            Operand::RegWBack(Reg::R0, true),
            Operand::RegList(1),
            NONE,
            R0,
        ],
        (4, 4),
    ),
    (Opcode::IT, [Operand::Imm32(0), NONE, NONE, NONE], (4, 4)),
    (Opcode::CPS(false), [R0, NONE, NONE, NONE], (4, 4)),
    (Opcode::SETEND, [NONE, NONE, NONE, NONE], (4, 4)),
    (
        Opcode::IT,
        [Operand::Imm32(15), Operand::Imm32(16), NONE, NONE],
        (5, 0),
    ),
    (
        Opcode::IT,
        [Operand::Imm32(14), Operand::Imm32(16), NONE, NONE],
        (5, 1),
    ),
    (
        Opcode::CPS(true),
        [Operand::Imm12(8), NONE, NONE, NONE],
        (5, 0),
    ),
    (
        Opcode::CPS(true),
        [Operand::Imm12(7), Operand::Coprocessor(0), NONE, NONE],
        (6, 1),
    ),
    (
        Opcode::CPS(true),
        [
            Operand::Imm12(7),
            Operand::BranchOffset(536_870_912),
            NONE,
            NONE,
        ],
        (8, 1),
    ),
    (
        Opcode::B,
        [Operand::BranchOffset(-536_870_913), NONE, NONE, NONE],
        (8, 0),
    ),
    (
        Opcode::BLX,
        [Operand::BranchThumbOffset(1_073_741_824), NONE, NONE, NONE],
        (8, 0),
    ),
    (
        Opcode::BLX,
        [Operand::BranchThumbOffset(-1_073_741_825), NONE, NONE, NONE],
        (8, 0),
    ),
];

// Opcodes of which each operand before the first Nothing is looked at.
const REACHING: [Opcode; 4] = [Opcode::ADD, Opcode::LDR, Opcode::STR, Opcode::MCRR(0, 0)];

// Kept: the number and the place, by which the rules name a refusal, are what these tests show.
fn told(fault: Fault) -> (u8, u8) {
    (fault.number(), fault.place())
}

// Do the checks, the printer and the measure refuse it with this number and place, and is nothing written?
fn is_refused(instruction: &Instruction, why: (u8, u8)) -> bool {
    let mut memory = [0u8; MEMORY];
    let mut out = TextSink::new(&mut memory);
    let printed = matches!(visit_inst(instruction, &mut out), Err(fault) if told(fault) == why);
    let admitted = matches!(admit(instruction), Err(fault) if told(fault) == why);
    let measured = matches!(measure(instruction), Err(fault) if told(fault) == why);
    printed && admitted && measured && out.end() == 0
}

#[test]
fn rules_refuse(rt: HostRuntime) {
    for (opcode, operands, why) in REFUSED {
        assert!(rt; is_refused(&Instruction::plain(opcode, operands), why));
    }
}

#[test]
fn operands_are_refused_at_each_place(rt: HostRuntime) -> Result<(), Fail> {
    let Ok(shift) = RegShift::from_raw(0) else {
        return Err(Fail::new("0 is a shift word"));
    };
    let refused = [
        (Operand::Coprocessor(0), 6),
        (
            Operand::RegDerefPostindexRegShift(Reg::R0, shift, true, true),
            7,
        ),
        (Operand::BranchOffset(536_870_912), 8),
    ];
    for opcode in REACHING {
        // Kept: the place is a number here, as the refusal tells it.
        for place in 0..4u8 {
            for (operand, number) in refused {
                let mut operands = [R0; 4];
                operands[place as usize] = operand;
                assert!(rt; is_refused(&Instruction::plain(opcode, operands), (number, place)));
            }
        }
    }
    // Of a CPS only the second operand can be anything.
    for (operand, number) in refused {
        let operands = [Operand::Imm12(7), operand, NONE, NONE];
        assert!(rt;
            is_refused(
                &Instruction::plain(Opcode::CPS(true), operands),
                (number, 1)
            )
        );
    }
    Ok(())
}

// By itself, what has no text is refused at place 0, and nothing is written.
#[test]
fn a_visit_by_itself_is_refused(rt: HostRuntime) {
    for operand in [NONE, Operand::Coprocessor(0)] {
        let mut memory = [7u8; 4];
        let mut out = TextSink::new(&mut memory);
        assert!(rt; write_operand(&mut out, &operand) == Err(Fault::DeadOperand(Place::First)));
        assert_eq!(rt; out.end(), 0);
        assert!(rt; memory == [7; 4]);
        assert!(rt; measurer::measure(&operand) == Err(Fault::DeadOperand(Place::First)));
    }
}

#[test]
fn no_condition_is_above_14(rt: HostRuntime) {
    assert!(rt; ConditionCode::build(0) == Some(ConditionCode::EQ));
    assert!(rt; ConditionCode::build(14) == Some(ConditionCode::AL));
    assert!(rt; ConditionCode::build(15) == None);
}
