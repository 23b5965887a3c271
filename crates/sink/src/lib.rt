// Sinks: what a printer writes bytes and span edges to, by what they hold, and those on lent memory.
#![tactic(auto)]

pub mod lent;
pub mod marking;
pub mod sink;
pub mod text;

pub use marking::MarkSink;
pub use sink::{DisplaySink, Edge, Mark, RoomSink, Span};
pub use text::TextSink;

#[cfg(test)]
mod tests {
    use super::*;

    // Writes a word in a span, and a piece that a sink of eight bytes has no room for.
    fn fill<T: RoomSink>(out: &mut T) -> (bool, usize) {
        out.span_start_opcode();
        let word = out.write(b"ldm").is_ok();
        out.span_end_opcode();
        out.span_start_register();
        let rest = out.write(b" sp!, {r4}").is_ok();
        out.span_end_register();
        (word && !rest, out.room())
    }

    #[test]
    fn text_sink_fills(rt: HostRuntime) {
        let mut buf = [0u8; 8];
        let mut out = TextSink::new(&mut buf);
        assert_eq!(rt; fill(&mut out), (true, 0));
        assert!(rt; out.text() == b"ldm sp!,".as_slice());
        assert_eq!(rt; out.end(), 8);
        assert!(rt; buf == *b"ldm sp!,");
    }

    #[test]
    fn mark_sink_fills(rt: HostRuntime) {
        let mut buf = [0u8; 8];
        let mut row = [Mark::BLANK; 3];
        let mut out = MarkSink::new(&mut buf, &mut row);
        assert_eq!(rt; fill(&mut out), (true, 0));
        assert!(rt; out.text() == b"ldm sp!,".as_slice());
        assert_eq!(rt; out.marks().len(), 3);
        assert_eq!(rt; out.end(), (8, 3));
        assert_eq!(rt; row[1].at, 3);
        assert!(rt; (row[2].edge, row[2].span) == (Edge::Start, Span::Register));
    }
}
