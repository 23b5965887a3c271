// The words that opcodes are written with.
ghost use Rattle.std.specs.Prelude.{◌≡◌};
ghost use Rattle.notation.specs.Parsing.{row};
ghost use Rattle.opcode_notation.specs.Opcodes.{plain, flow, data_words, memory, multiply, bits, system, parallel, forms};

use crate::form::{Form, FourFlags, OneCode, OneFlag, ThreeCodes, TwoCodes, TwoFlags};
use armv7::Opcode;
use notation::row_of;

// Branches, calls and exceptions.
const FLOW: [(&[u8], Opcode); 19] = [
    (b"Invalid", Opcode::Invalid),
    (b"POP", Opcode::POP),
    (b"PUSH", Opcode::PUSH),
    (b"B", Opcode::B),
    (b"BL", Opcode::BL),
    (b"BLX", Opcode::BLX),
    (b"BX", Opcode::BX),
    (b"BXJ", Opcode::BXJ),
    (b"TBB", Opcode::TBB),
    (b"TBH", Opcode::TBH),
    (b"CBZ", Opcode::CBZ),
    (b"CBNZ", Opcode::CBNZ),
    (b"IT", Opcode::IT),
    (b"ERET", Opcode::ERET),
    (b"BKPT", Opcode::BKPT),
    (b"HVC", Opcode::HVC),
    (b"SMC", Opcode::SMC),
    (b"UDF", Opcode::UDF),
    (b"SVC", Opcode::SVC),
];

// Data processing.
const DATA: [(&[u8], Opcode); 27] = [
    (b"AND", Opcode::AND),
    (b"EOR", Opcode::EOR),
    (b"SUB", Opcode::SUB),
    (b"RSB", Opcode::RSB),
    (b"ADD", Opcode::ADD),
    (b"ADC", Opcode::ADC),
    (b"SBC", Opcode::SBC),
    (b"RSC", Opcode::RSC),
    (b"TST", Opcode::TST),
    (b"TEQ", Opcode::TEQ),
    (b"CMP", Opcode::CMP),
    (b"CMN", Opcode::CMN),
    (b"ORR", Opcode::ORR),
    (b"ORN", Opcode::ORN),
    (b"MOV", Opcode::MOV),
    (b"MOVT", Opcode::MOVT),
    (b"BIC", Opcode::BIC),
    (b"MVN", Opcode::MVN),
    (b"LSL", Opcode::LSL),
    (b"LSR", Opcode::LSR),
    (b"ASR", Opcode::ASR),
    (b"RRX", Opcode::RRX),
    (b"ROR", Opcode::ROR),
    (b"ADR", Opcode::ADR),
    (b"MSR", Opcode::MSR),
    (b"MRS", Opcode::MRS),
    (b"CLZ", Opcode::CLZ),
];

// Loads and stores.
const MEMORY: [(&[u8], Opcode); 30] = [
    (b"LDREXH", Opcode::LDREXH),
    (b"STREXH", Opcode::STREXH),
    (b"LDREXB", Opcode::LDREXB),
    (b"STREXB", Opcode::STREXB),
    (b"LDREXD", Opcode::LDREXD),
    (b"STREXD", Opcode::STREXD),
    (b"LDREX", Opcode::LDREX),
    (b"STREX", Opcode::STREX),
    (b"LDR", Opcode::LDR),
    (b"STR", Opcode::STR),
    (b"LDRH", Opcode::LDRH),
    (b"STRH", Opcode::STRH),
    (b"LDRB", Opcode::LDRB),
    (b"STRB", Opcode::STRB),
    (b"LDRSH", Opcode::LDRSH),
    (b"LDRSHT", Opcode::LDRSHT),
    (b"LDRSB", Opcode::LDRSB),
    (b"LDRSBT", Opcode::LDRSBT),
    (b"STRD", Opcode::STRD),
    (b"LDRD", Opcode::LDRD),
    (b"LDRT", Opcode::LDRT),
    (b"STRT", Opcode::STRT),
    (b"LDRHT", Opcode::LDRHT),
    (b"STRHT", Opcode::STRHT),
    (b"LDRBT", Opcode::LDRBT),
    (b"STRBT", Opcode::STRBT),
    (b"SWP", Opcode::SWP),
    (b"SWPB", Opcode::SWPB),
    (b"PLD", Opcode::PLD),
    (b"PLI", Opcode::PLI),
];

// Multiplication and division.
const MULTIPLY: [(&[u8], Opcode); 19] = [
    (b"MUL", Opcode::MUL),
    (b"MLA", Opcode::MLA),
    (b"UMAAL", Opcode::UMAAL),
    (b"MLS", Opcode::MLS),
    (b"UMULL", Opcode::UMULL),
    (b"UMLAL", Opcode::UMLAL),
    (b"SMULL", Opcode::SMULL),
    (b"SMLAL", Opcode::SMLAL),
    (b"SMLSD", Opcode::SMLSD),
    (b"SMMLA", Opcode::SMMLA),
    (b"SMMLS", Opcode::SMMLS),
    (b"USADA8", Opcode::USADA8),
    (b"USAD8", Opcode::USAD8),
    (b"SMLAD", Opcode::SMLAD),
    (b"SMUSD", Opcode::SMUSD),
    (b"SMMUL", Opcode::SMMUL),
    (b"SMUAD", Opcode::SMUAD),
    (b"SDIV", Opcode::SDIV),
    (b"UDIV", Opcode::UDIV),
];

// Saturation, bit fields and extension.
const BITS: [(&[u8], Opcode); 31] = [
    (b"QDSUB", Opcode::QDSUB),
    (b"QDADD", Opcode::QDADD),
    (b"QSUB", Opcode::QSUB),
    (b"QADD", Opcode::QADD),
    (b"SSAT", Opcode::SSAT),
    (b"SSAT16", Opcode::SSAT16),
    (b"USAT", Opcode::USAT),
    (b"USAT16", Opcode::USAT16),
    (b"PKHTB", Opcode::PKHTB),
    (b"PKHBT", Opcode::PKHBT),
    (b"SBFX", Opcode::SBFX),
    (b"UBFX", Opcode::UBFX),
    (b"BFI", Opcode::BFI),
    (b"BFC", Opcode::BFC),
    (b"RBIT", Opcode::RBIT),
    (b"SEL", Opcode::SEL),
    (b"REV", Opcode::REV),
    (b"REV16", Opcode::REV16),
    (b"REVSH", Opcode::REVSH),
    (b"SXTH", Opcode::SXTH),
    (b"UXTH", Opcode::UXTH),
    (b"SXTB16", Opcode::SXTB16),
    (b"UXTB16", Opcode::UXTB16),
    (b"SXTB", Opcode::SXTB),
    (b"UXTB", Opcode::UXTB),
    (b"SXTAH", Opcode::SXTAH),
    (b"UXTAH", Opcode::UXTAH),
    (b"SXTAB16", Opcode::SXTAB16),
    (b"UXTAB16", Opcode::UXTAB16),
    (b"SXTAB", Opcode::SXTAB),
    (b"UXTAB", Opcode::UXTAB),
];

// Hints and system state.
const SYSTEM: [(&[u8], Opcode); 16] = [
    (b"WFE", Opcode::WFE),
    (b"WFI", Opcode::WFI),
    (b"SEV", Opcode::SEV),
    (b"CSDB", Opcode::CSDB),
    (b"YIELD", Opcode::YIELD),
    (b"HINT", Opcode::HINT),
    (b"NOP", Opcode::NOP),
    (b"LEAVEX", Opcode::LEAVEX),
    (b"ENTERX", Opcode::ENTERX),
    (b"CLREX", Opcode::CLREX),
    (b"DSB", Opcode::DSB),
    (b"DMB", Opcode::DMB),
    (b"ISB", Opcode::ISB),
    (b"SETEND", Opcode::SETEND),
    (b"CPS_modeonly", Opcode::CPS_modeonly),
    (b"DBG", Opcode::DBG),
];

// Parallel addition and subtraction.
const PARALLEL: [(&[u8], Opcode); 36] = [
    (b"SADD16", Opcode::SADD16),
    (b"QADD16", Opcode::QADD16),
    (b"SHADD16", Opcode::SHADD16),
    (b"SASX", Opcode::SASX),
    (b"QASX", Opcode::QASX),
    (b"SHASX", Opcode::SHASX),
    (b"SSAX", Opcode::SSAX),
    (b"QSAX", Opcode::QSAX),
    (b"SHSAX", Opcode::SHSAX),
    (b"SSUB16", Opcode::SSUB16),
    (b"QSUB16", Opcode::QSUB16),
    (b"SHSUB16", Opcode::SHSUB16),
    (b"SADD8", Opcode::SADD8),
    (b"QADD8", Opcode::QADD8),
    (b"SHADD8", Opcode::SHADD8),
    (b"SSUB8", Opcode::SSUB8),
    (b"QSUB8", Opcode::QSUB8),
    (b"SHSUB8", Opcode::SHSUB8),
    (b"UADD16", Opcode::UADD16),
    (b"UQADD16", Opcode::UQADD16),
    (b"UHADD16", Opcode::UHADD16),
    (b"UASX", Opcode::UASX),
    (b"UQASX", Opcode::UQASX),
    (b"UHASX", Opcode::UHASX),
    (b"USAX", Opcode::USAX),
    (b"UQSAX", Opcode::UQSAX),
    (b"UHSAX", Opcode::UHSAX),
    (b"USUB16", Opcode::USUB16),
    (b"UQSUB16", Opcode::UQSUB16),
    (b"UHSUB16", Opcode::UHSUB16),
    (b"UADD8", Opcode::UADD8),
    (b"UQADD8", Opcode::UQADD8),
    (b"UHADD8", Opcode::UHADD8),
    (b"USUB8", Opcode::USUB8),
    (b"UQSUB8", Opcode::UQSUB8),
    (b"UHSUB8", Opcode::UHSUB8),
];

// The opcodes that are told more in parentheses.
const FORMS: [(&[u8], Form); 28] = [
    (b"SMLAW", Form::Flag(OneFlag::Smlaw)),
    (b"CPS", Form::Flag(OneFlag::Cps)),
    (b"SMULW", Form::Flag(OneFlag::Smulw)),
    (b"SMLALD", Form::Flag(OneFlag::Smlald)),
    (b"SMLSLD", Form::Flag(OneFlag::Smlsld)),
    (b"SRS", Form::Flags(TwoFlags::Srs)),
    (b"RFE", Form::Flags(TwoFlags::Rfe)),
    (b"SMUL", Form::Flags(TwoFlags::Smul)),
    (b"SMLA", Form::Flags(TwoFlags::Smla)),
    (b"SMLAL_halfword", Form::Flags(TwoFlags::SmlalHalfword)),
    (b"SMAL", Form::Flags(TwoFlags::Smal)),
    (b"LDM", Form::Block(FourFlags::Ldm)),
    (b"STM", Form::Block(FourFlags::Stm)),
    (b"LDC", Form::Code(OneCode::Ldc)),
    (b"LDCL", Form::Code(OneCode::Ldcl)),
    (b"LDC2", Form::Code(OneCode::Ldc2)),
    (b"LDC2L", Form::Code(OneCode::Ldc2l)),
    (b"STC", Form::Code(OneCode::Stc)),
    (b"STCL", Form::Code(OneCode::Stcl)),
    (b"STC2", Form::Code(OneCode::Stc2)),
    (b"STC2L", Form::Code(OneCode::Stc2l)),
    (b"MCRR2", Form::Codes(TwoCodes::Mcrr2)),
    (b"MRRC2", Form::Codes(TwoCodes::Mrrc2)),
    (b"MCRR", Form::Codes(TwoCodes::Mcrr)),
    (b"MRRC", Form::Codes(TwoCodes::Mrrc)),
    (b"MCR2", Form::Operation(ThreeCodes::Mcr2)),
    (b"MRC2", Form::Operation(ThreeCodes::Mrc2)),
    (b"CDP2", Form::Operation(ThreeCodes::Cdp2)),
];

// Kept: a function for each table, since no proof was found of one that opens all seven.
fn flow_of(word: &[u8]) -> Option<Opcode>
    ensures { result ≡ row flow word.now }
{
    row_of(&FLOW, word)
}

fn data_of(word: &[u8]) -> Option<Opcode>
    ensures { result ≡ row data_words word.now }
{
    row_of(&DATA, word)
}

fn memory_of(word: &[u8]) -> Option<Opcode>
    ensures { result ≡ row memory word.now }
{
    row_of(&MEMORY, word)
}

fn multiply_of(word: &[u8]) -> Option<Opcode>
    ensures { result ≡ row multiply word.now }
{
    row_of(&MULTIPLY, word)
}

fn bits_of(word: &[u8]) -> Option<Opcode>
    ensures { result ≡ row bits word.now }
{
    row_of(&BITS, word)
}

fn system_of(word: &[u8]) -> Option<Opcode>
    ensures { result ≡ row system word.now }
{
    row_of(&SYSTEM, word)
}

fn parallel_of(word: &[u8]) -> Option<Opcode>
    ensures { result ≡ row parallel word.now }
{
    row_of(&PARALLEL, word)
}

pub(crate) fn form_of(word: &[u8]) -> Option<Form>
    ensures { result ≡ row forms word.now }
{
    row_of(&FORMS, word)
}

// The opcode that is written as this word alone.
pub(crate) fn plain_of(word: &[u8]) -> Option<Opcode>
    ensures { result ≡ plain word.now }
{
    flow_of(word)
        .or_else(|| data_of(word))
        .or_else(|| memory_of(word))
        .or_else(|| multiply_of(word))
        .or_else(|| bits_of(word))
        .or_else(|| system_of(word))
        .or_else(|| parallel_of(word))
}
