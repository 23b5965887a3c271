// Tests of the manual line and of the cell sink: inks, refusals and a sink that is too short.
#![tactic(auto)]

#[cfg(test)]
mod tests {
    use armv7::{Fault, Instruction, Opcode, Operand, Reg};
    use cells::{Cell, CellSink, Ink};
    use display::visit_inst;
    use manual::visit_manual;

    const BLANK: Cell = Cell {
        byte: 32,
        ink: Ink::Plain,
    };

    fn pop_one(offset: u16) -> Instruction {
        let operands = [
            Operand::Reg(Reg::R3),
            Operand::RegDerefPostindexOffset(Reg::R13, offset, true, false),
            Operand::Nothing,
            Operand::Nothing,
        ];
        Instruction::plain(Opcode::LDR, operands)
    }

    // The inks of the cells, by number.
    // Kept: numbers are what the rule gives an ink, and they stand below the letters that they belong to.
    fn inks(cells: [Cell; 8]) -> [u8; 8] {
        cells.map(|cell| cell.ink.number())
    }

    fn text(cells: [Cell; 8]) -> [u8; 8] {
        cells.map(|cell| cell.byte)
    }

    #[test]
    fn nested_spans_are_inked(rt: HostRuntime) {
        let mut cells = [BLANK; 8];
        let mut out = CellSink::new(&mut cells);
        assert!(rt; visit_inst(&pop_one(4), &mut out) == Ok(()));
        assert_eq!(rt; out.cells().len(), 8);
        assert_eq!(rt; out.end(), 8);
        assert!(rt; text(cells) == *b"pop {r3}");
        assert!(rt; inks(cells) == [1, 1, 1, 0, 0, 2, 2, 0]);
    }

    #[test]
    fn no_manual_form_leaves_the_sink(rt: HostRuntime) {
        let mut cells = [BLANK; 8];
        let mut out = CellSink::new(&mut cells);
        assert!(rt; visit_manual(&pop_one(8), &mut out) == Err(Fault::NoManualForm));
        assert_eq!(rt; out.end(), 0);
        assert!(rt; text(cells) == *b"        ");
    }

    #[test]
    fn a_short_sink_keeps_the_beginning(rt: HostRuntime) {
        let mut cells = [BLANK; 8];
        let mut out = CellSink::new(&mut cells);
        let operands = [
            Operand::RegWBack(Reg::R13, true),
            Operand::RegList(0x8010),
            Operand::Nothing,
            Operand::Nothing,
        ];
        let instruction = Instruction::plain(Opcode::LDM(true, false, true, true), operands);
        assert!(rt; visit_manual(&instruction, &mut out) == Err(Fault::SinkFull));
        assert_eq!(rt; out.end(), 8);
        assert!(rt; text(cells) == *b"ldm sp!,");
        assert!(rt; inks(cells) == [1, 1, 1, 0, 2, 2, 0, 0]);
    }
}
