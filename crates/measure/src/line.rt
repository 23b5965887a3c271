// The size of a line.
ghost use Rattle.std.specs.Prelude.{◌≡◌, length, IfOk};
ghost use Rattle.sink.specs.Items.{bytes};
ghost use Rattle.sink.specs.Outcome.{outcome};
ghost use Rattle.lines.specs.Admission.{refused};
ghost use Rattle.lines.specs.Lines.{line};

use crate::rows::rows_size;
use crate::word::word_size;
use armv7::{Fault, Instruction};
use lines::admit;

// Answers how many bytes the line of an instruction has, or why it has none.
pub fn measure(instruction: &Instruction) -> Result<usize, Fault>
    ensures refusal { outcome result ≡ refused instruction.now }
    ensures size { IfOk result (λ n. n ≡ length (bytes (line instruction.now))) }
{
    let form = admit(instruction)?;
    let word = word_size(form, instruction);
    let rows = rows_size(form);
    // The first row has a blank before it, and no comma.
    Ok(word + rows.saturating_sub(1))
}
