// The size of a line's word.
ghost use Rattle.std.specs.Prelude.{◌≡◌, ◌≤◌, length};
ghost use Rattle.lines.specs.Lines.{condition_suffix};
ghost use Rattle.lines.specs.Forms.{suffix_text, word_of};

use armv7::{ConditionCode, Instruction};
use lines::{Form, Suffix, letter_count, stack_word};
use measurer::flag_size;

// AL has no letters, and each other condition two.
fn condition_size(condition: ConditionCode) -> usize
    ensures value { result ≡ length (condition_suffix condition) }
    ensures bound { result ≤ 2 }
{
    if condition == ConditionCode::AL { 0 } else { 2 }
}

fn suffix_size(suffix: Suffix) -> usize
    ensures value { result ≡ length (suffix_text suffix) }
    ensures bound { result ≤ 5 }
{
    flag_size(suffix.s) + condition_size(suffix.condition) + 2 * flag_size(suffix.w)
}

// The name that is shown, and what stands behind it.
pub(crate) fn word_size(form: Form<'_>, instruction: &Instruction) -> usize
    ensures value { result ≡ length (word_of form.entry instruction.now) }
    ensures bound { result ≤ 15 }
{
    let own = instruction.opcode.name().len();
    let suffix = suffix_size(Suffix::of(instruction));
    match form {
        Form::Stack(form) => stack_word(form.load).len() + suffix,
        Form::It(block) => own + suffix + letter_count(block.mask),
        Form::Coprocessor(codes, _) => {
            own + suffix_size(Suffix::shown(codes.suffixes, instruction))
        }
        Form::Plain(_) | Form::Block(_) | Form::Cps { .. } | Form::Setend { .. } => own + suffix,
    }
}
