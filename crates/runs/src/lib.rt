// Runs: whole pages, made, called and closed, and the law that every run keeps.
#![tactic(auto)]

ghost use Rattle.std.specs.Prelude.{map};
ghost use Rattle.runs.specs.Runs.{called, Run};
ghost use Rattle.page.specs.Spellings.{own};
ghost use Rattle.runs.specs.Chains.{StepsMakeRuns};

use page::{ClosedPage, Entry, Page};
use sink::RoomSink;

// Makes a page on the sink, makes every call in order, writes each answer beside its call, and closes the page.
pub fn run<S: RoomSink>(sink: S, entries: &mut [Entry]) -> ClosedPage<S>
    ensures law { Run S.DisplaySink.sink own sink (map called entries.old) entries.new result.sink result.count }
{
    let mut page = Page::new(sink);
    for entry in entries.iter_mut() {
        entry.answer = page.call(entry.call);
    }
    page.close()
}

// Whoever makes the calls of a page one by one gets the same.
pub fn steps_make_runs<S: RoomSink>()
    ensures any_chain { StepsMakeRuns S.DisplaySink.sink own }
{}
