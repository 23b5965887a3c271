// Tests of pages: on each sink, full ones, ones with few marks, ones with room for any line, and with refused calls in between.
#![tactic(auto)]

#[cfg(test)]
mod tests {
    use armv7::{Call, ConditionCode, Fault, Instruction, Opcode, Operand, Place, Reg};
    use cells::{Cell, CellSink, Ink};
    use page::{Entry, Page, PageFault};
    use runs::run;
    use sink::{DisplaySink, Mark, MarkSink, TextSink};

    // The line is `pop {r4, pc}`, of 12 bytes and 6 marks.
    fn pop() -> Call {
        let operands = [
            Operand::RegWBack(Reg::R13, true),
            Operand::RegList(0x8010),
            Operand::Nothing,
            Operand::Nothing,
        ];
        Call::Print(Instruction::plain(Opcode::LDM(true, false, false, false), operands))
    }

    // The longest line, of 285 bytes and 130 marks.
    fn longest() -> Call {
        Call::Print(Instruction {
            condition: ConditionCode::EQ,
            s: true,
            thumb_w: true,
            ..Instruction::plain(Opcode::MCRR(15, 15), [Operand::RegList(0xffff); 4])
        })
    }

    // Its second operand is one that has no text.
    fn dead() -> Call {
        let operands = [
            Operand::Reg(Reg::R0),
            Operand::Coprocessor(1),
            Operand::Nothing,
            Operand::Nothing,
        ];
        Call::Print(Instruction::plain(Opcode::ADD, operands))
    }

    // The refusal of the second operand.
    const NO_TEXT: Fault = Fault::DeadOperand(Place::Second);

    fn entry(call: Call) -> Entry {
        Entry {
            call,
            answer: Ok(0),
        }
    }

    // A refusal, where the page had so many lines.
    fn refused(fault: Fault, count: u64) -> Result<u64, PageFault> {
        Err(PageFault { fault, count })
    }

    #[test]
    fn a_print_fills_a_page(rt: HostRuntime) {
        let mut memory = [0u8; 13];
        let mut entries = [entry(pop()), entry(Call::Gap), entry(pop())];
        let closed = run(TextSink::new(&mut memory), &mut entries);
        assert_eq!(rt; closed.count(), 1);
        assert_eq!(rt; closed.end().end(), 13);
        assert!(rt; memory == *b"pop {r4, pc}\n");
        assert!(rt; entries[0].answer == Ok(1));
        assert!(rt; entries[1].answer == refused(Fault::PageFull, 1));
        assert!(rt; entries[2].answer == refused(Fault::PageFull, 1));
    }

    #[test]
    fn a_gap_fills_a_page(rt: HostRuntime) {
        let mut memory = [0u8; 14];
        let mut entries = [entry(pop()), entry(Call::Gap), entry(Call::Gap)];
        let closed = run(TextSink::new(&mut memory), &mut entries);
        assert_eq!(rt; closed.count(), 2);
        assert_eq!(rt; closed.end().end(), 14);
        assert!(rt; memory == *b"pop {r4, pc}\n\n");
        assert!(rt; entries[1].answer == Ok(2));
        assert!(rt; entries[2].answer == refused(Fault::PageFull, 2));
    }

    #[test]
    fn a_line_one_byte_too_long_is_refused(rt: HostRuntime) {
        let mut memory = [7u8; 12];
        let mut entries = [entry(pop()), entry(Call::Gap)];
        let closed = run(TextSink::new(&mut memory), &mut entries);
        assert_eq!(rt; closed.end().end(), 1);
        assert!(rt; memory == [10, 7, 7, 7, 7, 7, 7, 7, 7, 7, 7, 7]);
        assert!(rt; entries[0].answer == refused(Fault::PageFull, 0));
        assert!(rt; entries[1].answer == Ok(1));
    }

    #[test]
    fn refusals_leave_the_page(rt: HostRuntime) {
        let mut memory = [0u8; 20];
        let mut entries = [entry(dead()), entry(pop()), entry(dead()), entry(Call::Gap)];
        let closed = run(TextSink::new(&mut memory), &mut entries);
        assert_eq!(rt; closed.end().end(), 14);
        assert!(rt; entries[0].answer == refused(NO_TEXT, 0));
        assert!(rt; entries[1].answer == Ok(1));
        assert!(rt; entries[2].answer == refused(NO_TEXT, 1));
        assert!(rt; entries[3].answer == Ok(2));
    }

    #[test]
    fn the_longest_line_fits_just_its_room(rt: HostRuntime) {
        let mut memory = [0u8; 286];
        let mut row = [Mark::BLANK; 140];
        let mut entries = [entry(dead()), entry(longest()), entry(Call::Gap)];
        let closed = run(MarkSink::new(&mut memory, &mut row), &mut entries);
        assert_eq!(rt; closed.count(), 1);
        assert_eq!(rt; closed.end().end(), (286, 130));
        assert!(rt; memory[285] == 10);
        assert!(rt; entries[0].answer == refused(NO_TEXT, 0));
        assert!(rt; entries[1].answer == Ok(1));
        assert!(rt; entries[2].answer == refused(Fault::PageFull, 1));
    }

    #[test]
    fn the_longest_line_is_refused_a_byte_less(rt: HostRuntime) {
        let mut memory = [7u8; 285];
        let mut entries = [entry(longest())];
        let closed = run(TextSink::new(&mut memory), &mut entries);
        assert_eq!(rt; closed.end().end(), 0);
        assert!(rt; memory == [7; 285]);
        assert!(rt; entries[0].answer == refused(Fault::PageFull, 0));
    }

    #[test]
    fn a_page_of_cells_tells_its_room(rt: HostRuntime) {
        let blank = Cell {
            byte: 0,
            ink: Ink::Plain,
        };
        let mut memory = [blank; 13];
        let mut entries = [entry(pop()), entry(Call::Gap)];
        let closed = run(CellSink::new(&mut memory), &mut entries);
        assert_eq!(rt; closed.end().end(), 13);
        assert!(rt; memory.map(|cell| cell.byte) == *b"pop {r4, pc}\n");
        assert!(rt; memory[2].ink == Ink::Opcode && memory[5].ink == Ink::Register);
        assert!(rt; entries[1].answer == refused(Fault::PageFull, 1));
    }

    #[test]
    fn what_the_sink_held_stays(rt: HostRuntime) {
        let mut memory = [0u8; 16];
        let mut row = [Mark::BLANK; 4];
        let mut out = MarkSink::new(&mut memory, &mut row);
        let _ = out.write(b"ab\n");
        out.span_end_register();
        let mut entries = [entry(pop())];
        let closed = run(out, &mut entries);
        assert_eq!(rt; closed.end().end(), (16, 4));
        assert!(rt; memory == *b"ab\npop {r4, pc}\n");
        assert!(rt; row.map(|mark| mark.at) == [3, 3, 6, 8]);
        assert!(rt; entries[0].answer == Ok(1));
    }

    // How many marks a page of one pop keeps, of so many.
    fn kept(row: &mut [Mark]) -> (usize, usize) {
        let mut memory = [0u8; 13];
        let mut entries = [entry(pop())];
        let closed = run(MarkSink::new(&mut memory, row), &mut entries);
        closed.end().end()
    }

    #[test]
    fn marks_stop_at_their_limit(rt: HostRuntime) {
        let mut none = [Mark::BLANK; 0];
        let mut one = [Mark::BLANK; 1];
        let mut three = [Mark::BLANK; 3];
        let mut many = [Mark::BLANK; 8];
        assert_eq!(rt; kept(&mut none), (13, 0));
        assert_eq!(rt; kept(&mut one), (13, 1));
        assert_eq!(rt; kept(&mut three), (13, 3));
        assert_eq!(rt; kept(&mut many), (13, 6));
    }

    #[test]
    fn a_sink_of_no_room_takes_nothing(rt: HostRuntime) {
        let mut memory = [0u8; 1];
        let mut row = [Mark::BLANK; 1];
        let mut entries = [entry(pop()), entry(dead()), entry(Call::Gap)];
        let closed = run(
            MarkSink::new(&mut memory[0..0], &mut row[0..0]),
            &mut entries,
        );
        assert_eq!(rt; closed.count(), 0);
        assert_eq!(rt; closed.end().end(), (0, 0));
        assert!(rt; entries[0].answer == refused(Fault::PageFull, 0));
        assert!(rt; entries[1].answer == refused(NO_TEXT, 0));
        assert!(rt; entries[2].answer == refused(Fault::PageFull, 0));
    }

    #[test]
    fn a_page_is_called_by_hand(rt: HostRuntime) {
        let mut memory = [0u8; 2];
        let mut page = Page::new(TextSink::new(&mut memory));
        assert!(rt; matches!(page.gap(), Ok(1)));
        assert!(rt; matches!(page.gap(), Ok(2)));
        assert!(rt; page.gap().is_err());
        let closed = page.close();
        assert_eq!(rt; closed.count(), 2);
        assert_eq!(rt; closed.end().end(), 2);
    }
}
