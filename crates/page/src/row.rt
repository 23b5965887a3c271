// One line of a page: written with its line break, or not at all.
ghost use Rattle.std.specs.Prelude.{◌≡◌, [], Some, None, length, IfOk, IfErr};
ghost use Rattle.armv7.specs.Faults.{refusal as refusal_of};
ghost use Rattle.sink.specs.Items.{bytes};
ghost use Rattle.sink.specs.Meaning.{room as room_of};
ghost use Rattle.sink.specs.Outcome.{outcome};
ghost use Rattle.lines.specs.Admission.{refused};
ghost use Rattle.lines.specs.Lines.{line};
ghost use Rattle.page.specs.Rows.{row_refused, PrintsRow};

use armv7::{Fault, Instruction};
use display::visit_inst;
use measure::measure;
use sink::{DisplaySink, RoomSink};
use text::write_text;

// A line has at most so many bytes.
const LONGEST: usize = 285;

// Refuses a line that is too long, with its line break, for the room.
fn fit<S: RoomSink>(out: &S, size: usize) -> Result<(), Fault>
    ensures refusal { outcome result ≡ row_refused None (room_of (S.DisplaySink.sink.meaning out.now)) size }
{
    if size < out.room() {
        Ok(())
    } else {
        Err(Fault::PageFull)
    }
}

// Where there may be no room for the longest line: refuses an instruction whose line is too long, with its line break, or that has
// no line.
// Kept: nothing is measured, and so nothing refused, where there is room for the longest line: with its measure, a print takes 314
// instructions more, and a page misses its bar (docs/SPEED.md).
fn fit_line<S: RoomSink>(instruction: &Instruction, out: &S) -> Result<(), Fault>
    ensures refusal { IfErr result (λ f. Some (refusal_of f)
        ≡ row_refused (refused instruction.now) (room_of (S.DisplaySink.sink.meaning out.now)) (length (bytes (line instruction.now)))) }
    ensures fits { IfOk result (λ _. refused instruction.now
        ≡ row_refused (refused instruction.now) (room_of (S.DisplaySink.sink.meaning out.now)) (length (bytes (line instruction.now)))) }
{
    if out.room() > LONGEST {
        return Ok(());
    }
    let size = measure(instruction)?;
    fit(out, size)
}

pub(crate) fn write_line<S: RoomSink>(instruction: &Instruction, out: &mut S) -> Result<(), Fault>
    ensures printed_or_refused { PrintsRow S.DisplaySink.sink (refused instruction.now) (line instruction.now) out.old result out.new }
{
    fit_line(instruction, out)?;
    visit_inst(instruction, out)?;
    write_text(out, b"\n")
}

pub(crate) fn write_gap<S: RoomSink>(out: &mut S) -> Result<(), Fault>
    ensures printed_or_refused { PrintsRow S.DisplaySink.sink None [] out.old result out.new }
{
    fit(out, 0)?;
    write_text(out, b"\n")
}
