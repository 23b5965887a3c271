// An open page, which takes prints and gaps.
ghost use Rattle.std.specs.Prelude.{◌≡◌};
ghost use Rattle.sink.specs.Outcome.{outcome};
ghost use Rattle.armv7.specs.declared.call.Call.TheVariants.{Print, Gap};
ghost use Rattle.page.specs.Answers.{told, told_by};
ghost use Rattle.page.specs.Spellings.{own};
ghost use Rattle.page.specs.Steps.{counted, counted_unless, Step, made_on};

use crate::closed::ClosedPage;
use crate::entry::PageFault;
use crate::row::{write_gap, write_line};
use armv7::{Call, Fault, Instruction};
use sink::RoomSink;

#[derive(Drop)]
pub struct Page<S> {
    sink: S,
    count: u64,
}

impl<S: RoomSink> Page<S> {
    // A page of no lines yet, whatever the sink already holds.
    pub fn new(sink: S) -> Page<S>
        ensures made { result ≡ made_on sink }
    {
        Page { sink, count: 0 }
    }

    // Counts a line that was written, or tells a refusal with the count.
    fn answer(&mut self, wrote: Result<(), Fault>) -> Result<u64, PageFault>
        ensures result_value { told result ≡ told_by (outcome wrote) self.old.count (counted self.old.count) }
        ensures sink_unchanged { self.new.sink ≡ self.old.sink }
        ensures count_after { self.new.count ≡ counted_unless (outcome wrote) self.old.count }
    {
        wrote.map_err(|fault| PageFault {
            fault,
            count: self.count,
        })?;
        self.count = self.count.saturating_add(1);
        Ok(self.count)
    }

    // Prints an instruction's line.
    pub fn print(&mut self, instruction: &Instruction) -> Result<u64, PageFault>
        ensures step { Step S.DisplaySink.sink own (Print instruction.now) self.old result self.new }
    {
        let wrote = write_line(instruction, &mut self.sink);
        self.answer(wrote)
    }

    // Leaves a line empty.
    pub fn gap(&mut self) -> Result<u64, PageFault>
        ensures step { Step S.DisplaySink.sink own Gap self.old result self.new }
    {
        let wrote = write_gap(&mut self.sink);
        self.answer(wrote)
    }

    // Makes a call, whichever it is.
    pub fn call(&mut self, call: Call) -> Result<u64, PageFault>
        ensures step { Step S.DisplaySink.sink own call self.old result self.new }
    {
        match call {
            Call::Print(instruction) => self.print(&instruction),
            Call::Gap => self.gap(),
        }
    }

    // A page that takes no more calls.
    pub fn close(self) -> ClosedPage<S>
        ensures same_sink { result.sink ≡ self.sink }
        ensures same_count { result.count ≡ self.count }
    {
        let Page { sink, count } = self;
        ClosedPage { sink, count }
    }
}
