// The tokens that have to stand where they stand.
ghost use Rattle.std.specs.Prelude.{◌≡◌};
ghost use Rattle.misreading.specs.Givens.{text_of};

// A token of the notation that is no value: a name, a field or a mark.
#[derive(Clone, Copy)]
pub enum Given {
    Condition,
    Opcode,
    Operands,
    S,
    Wide,
    ThumbW,
    Thumb,
    Reg,
    CReg,
    RegShift,
    Bits,
    Data,
    OpenBrace,
    CloseBrace,
    OpenBracket,
    CloseBracket,
    OpenParen,
    CloseParen,
    Comma,
    Colon,
    // The end of the line, where there is no token.
    End,
}

impl Given {
    // As it is written; nothing at the end of the line.
    pub fn text(&self) -> &'static [u8]
        ensures text { result.now ≡ text_of self.now }
    {
        match *self {
            Given::Condition => b"condition",
            Given::Opcode => b"opcode",
            Given::Operands => b"operands",
            Given::S => b"s",
            Given::Wide => b"wide",
            Given::ThumbW => b"thumb_w",
            Given::Thumb => b"thumb",
            Given::Reg => b"Reg",
            Given::CReg => b"CReg",
            Given::RegShift => b"RegShift",
            Given::Bits => b"bits",
            Given::Data => b"data",
            Given::OpenBrace => b"{",
            Given::CloseBrace => b"}",
            Given::OpenBracket => b"[",
            Given::CloseBracket => b"]",
            Given::OpenParen => b"(",
            Given::CloseParen => b")",
            Given::Comma => b",",
            Given::Colon => b":",
            Given::End => b"",
        }
    }
}
