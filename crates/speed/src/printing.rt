// The ways to print, each over and over. Each answers how many bytes were printed, of a page with its line breaks.
use crate::options::{Options, Way};
use armv7::Instruction;
use buffer::InstructionTextBuffer;
use display::visit_inst;
use measure::measure;
use page::Page;
use sink::TextSink;
use std::alloc::{AllocError, Global};

// The longest line has 285 bytes.
const LINE: usize = 512;

// Not inline, so that each way pays a call for each instruction.
#[inline(never)]
fn print_to_sink(instruction: &Instruction, memory: &mut [u8]) -> usize {
    let mut out = TextSink::new(memory);
    match visit_inst(instruction, &mut out) {
        Ok(()) => out.end(),
        Err(_) => 0,
    }
}

fn print_to_sinks(instructions: &[Instruction], rounds: usize) -> usize {
    let mut memory = [0u8; LINE];
    let mut bytes = 0usize;
    for _ in 0..rounds {
        for instruction in instructions {
            bytes = bytes.saturating_add(print_to_sink(instruction, &mut memory));
        }
    }
    bytes
}

#[inline(never)]
fn print_to_buffer(instruction: &Instruction, buffer: &mut InstructionTextBuffer) -> usize {
    match buffer.format_inst(instruction) {
        Ok(()) => buffer.text_str().len(),
        Err(_) => 0,
    }
}

fn print_to_one_buffer(instructions: &[Instruction], rounds: usize) -> usize {
    let mut buffer = InstructionTextBuffer::new();
    let mut bytes = 0usize;
    for _ in 0..rounds {
        for instruction in instructions {
            bytes = bytes.saturating_add(print_to_buffer(instruction, &mut buffer));
        }
    }
    bytes
}

// The room that a page needs for all rounds.
fn room_for(instructions: &[Instruction], rounds: usize) -> usize {
    instructions
        .iter()
        .map(|instruction| measure(instruction).map_or(0, |size| size.saturating_add(1)))
        .fold(0, usize::saturating_add)
        .saturating_mul(rounds)
}

#[inline(never)]
fn print_to_page(instruction: &Instruction, page: &mut Page<TextSink<'_>>) {
    let _ = page.print(instruction);
}

fn print_to_one_page(
    heap: Global,
    instructions: &[Instruction],
    rounds: usize,
    room: usize,
) -> Result<usize, AllocError> {
    let mut memory = vec![in heap; 0u8; room]?;
    let mut page = Page::new(TextSink::new(memory.as_mut_slice()));
    for _ in 0..rounds {
        for instruction in instructions {
            print_to_page(instruction, &mut page);
        }
    }
    Ok(page.close().end().end())
}

// Prints each instruction as often as there are rounds.
pub(crate) fn print_all(
    heap: Global,
    instructions: &[Instruction],
    Options { way, rounds }: Options,
) -> Result<usize, AllocError> {
    match way {
        Way::Sink => Ok(print_to_sinks(instructions, rounds)),
        Way::Buffer => Ok(print_to_one_buffer(instructions, rounds)),
        Way::Page => print_to_one_page(heap, instructions, rounds, room_for(instructions, rounds)),
        Way::None => print_to_one_page(heap, instructions, 0, room_for(instructions, rounds)),
    }
}
