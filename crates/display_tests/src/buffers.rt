// A buffer holds one line at a time.
use crate::rooms::{LONGEST, add};
use armv7::{Fault, Instruction, Opcode, Operand, Place};
use buffer::InstructionTextBuffer;

#[test]
fn a_buffer_holds_the_last_line(rt: HostRuntime) {
    let mut buffer = InstructionTextBuffer::new();
    assert!(rt; buffer.text_str().is_empty());
    assert!(rt; buffer.format_inst(&LONGEST).is_ok());
    assert_eq!(rt; buffer.text_str().len(), 285);
    assert!(rt; buffer.format_inst(&add()).is_ok());
    assert_eq!(rt; buffer.text_str().len(), 14);
    assert!(rt; buffer.text_str().starts_with(b"add r0, r1, r2"));
}

#[test]
fn a_refusal_empties_a_buffer(rt: HostRuntime) {
    let mut buffer = InstructionTextBuffer::new();
    assert!(rt; buffer.format_inst(&add()).is_ok());
    let refused = Instruction::plain(Opcode::ADD, [Operand::Coprocessor(0); 4]);
    assert!(rt; buffer.format_inst(&refused) == Err(Fault::DeadOperand(Place::First)));
    assert!(rt; buffer.text_str().is_empty());
}
