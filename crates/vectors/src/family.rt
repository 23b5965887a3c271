// What the differences ask of an opcode, beside its kind.
use armv7::Opcode;
use kind::{Codes, Suffixes};

// How the original writes the codes of a coprocessor form.
#[derive(Clone, Copy)]
pub enum Style {
    // One that is above 9 as 1 and a character for the rest.
    Teens,
    // Each as one character.
    Characters,
    // Not at all.
    Unwritten,
}

pub(crate) fn style_of(codes: Codes) -> Style {
    match (codes.suffixes, codes.second) {
        (Suffixes::Full, _) => Style::Unwritten,
        (_, None) => Style::Teens,
        (_, Some(_)) => Style::Characters,
    }
}

// Whether halves are exchanged, of SMLALD and SMLSLD.
pub(crate) fn exchange_of(opcode: Opcode) -> Option<bool> {
    match opcode {
        Opcode::SMLALD(exchange) | Opcode::SMLSLD(exchange) => Some(exchange),
        _ => None,
    }
}

// A code, or 0 in place of one that is refused.
pub(crate) fn small(code: u8) -> u8 {
    if code > 15 { 0 } else { code }
}

// The opcode with small codes.
pub(crate) fn with_small_codes(opcode: Opcode) -> Opcode {
    match opcode {
        Opcode::LDC(a) => Opcode::LDC(small(a)),
        Opcode::LDCL(a) => Opcode::LDCL(small(a)),
        Opcode::STC(a) => Opcode::STC(small(a)),
        Opcode::STCL(a) => Opcode::STCL(small(a)),
        Opcode::LDC2(a) => Opcode::LDC2(small(a)),
        Opcode::LDC2L(a) => Opcode::LDC2L(small(a)),
        Opcode::STC2(a) => Opcode::STC2(small(a)),
        Opcode::STC2L(a) => Opcode::STC2L(small(a)),
        Opcode::MCRR2(a, b) => Opcode::MCRR2(small(a), small(b)),
        Opcode::MRRC2(a, b) => Opcode::MRRC2(small(a), small(b)),
        Opcode::MCRR(a, b) => Opcode::MCRR(small(a), small(b)),
        Opcode::MRRC(a, b) => Opcode::MRRC(small(a), small(b)),
        Opcode::MCR2(a, b, c) => Opcode::MCR2(small(a), small(b), small(c)),
        Opcode::MRC2(a, b, c) => Opcode::MRC2(small(a), small(b), small(c)),
        Opcode::CDP2(a, b, c) => Opcode::CDP2(small(a), small(b), small(c)),
        _ => opcode,
    }
}
