// A buffer for the text of one instruction.
#![tactic(auto)]

ghost use Rattle.std.specs.Prelude.{◌≡◌, ◌≤◌, [], ◌++◌, length, drop, replicate};
ghost use Rattle.sink.specs.Outcome.{outcome};
ghost use Rattle.lines.specs.Admission.{refused};
ghost use Rattle.lines.specs.Lines.{line};

use armv7::{Fault, Instruction};
use display::visit_inst;
use sink::TextSink;

const MAX_INSTRUCTION_LEN: usize = 512;

// The first `len` of the bytes are the text: a line has at most 285.
// Kept: a length beside the bytes, since a printer has fixed memory and no heap.
#[derive(Drop)]
pub struct InstructionTextBuffer {
    content: [u8; MAX_INSTRUCTION_LEN],
    len: usize,
    ghost within: { len ≤ 512 },
}

impl InstructionTextBuffer {
    ghost use Rattle.buffer.specs.Held.{memory_of, text_of, formatted};

    // A buffer with no text yet, and zero in all of its memory.
    pub fn new() -> InstructionTextBuffer
        ensures no_text { text_of result ≡ [] }
        ensures zeroed { memory_of result ≡ replicate 512 0 }
    {
        InstructionTextBuffer {
            content: [0; MAX_INSTRUCTION_LEN],
            len: 0,
        }
    }

    // Takes the line of the instruction in place of the text, or no text where the instruction is refused. Behind the text the memory
    // stays as it was.
    pub fn format_inst(&mut self, instruction: &Instruction) -> Result<(), Fault>
        ensures refusal { outcome result ≡ refused instruction.now }
        ensures text { text_of self.new ≡ formatted (refused instruction.now) (line instruction.now) }
        ensures memory { memory_of self.new ≡ text_of self.new ++ drop (length (text_of self.new)) (memory_of self.old) }
    {
        let mut out = TextSink::new(&mut self.content);
        let answer = visit_inst(instruction, &mut out);
        let size = out.end();
        self.len = size;
        answer
    }

    // The text.
    pub fn text_str(&self) -> &[u8]
        ensures text { result.now ≡ text_of self.now }
    {
        &self.content[..self.len]
    }
}
