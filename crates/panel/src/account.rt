// The account of a page: its count, its marks, and each call with what came of it.
use crate::calls::Calls;
use crate::colour::push_coloured;
use crate::options::Options;
use crate::printed::Printed;
use crate::spelling::push_manual;
use armv7::{Call, Instruction};
use blocks::transfer::sheet;
use page::{Entry, PageFault};
use sink::{Edge, Mark, Span};
use std::alloc::{AllocError, Global};
use std::fmt;
use std::fmt::Write;
use wording::{Characters, Refusal, Totals, Transfer};

#[derive(Drop)]
struct Account {
    text: String,
    totals: Totals,
}

// A mark that is shown as its span, its edge and its place.
#[derive(Clone, Copy)]
struct Marking<'a>(&'a Mark);

impl fmt::Display for Marking<'_> {
    fn fmt<W: fmt::Write>(&self, f: &mut fmt::Formatter<W>) -> fmt::Result {
        let Mark { edge, span, at } = self.0;
        let span = match span {
            Span::Opcode => "opcode",
            Span::Register => "register",
        };
        let edge = match edge {
            Edge::Start => "starts",
            Edge::End => "ends",
        };
        write!(f, "{span} {edge} at {at}")
    }
}

// What a printed line is, and in the spelling that was asked for.
fn push_line(
    text: &mut String,
    line: &str,
    instruction: &Instruction,
    options: &Options,
) -> Result<(), AllocError> {
    if options.color {
        push_coloured(text, instruction)?;
    } else {
        text.push_str(line)?;
    }
    if let Some(fields) = sheet(instruction) {
        write!(text, "  ({})", Transfer(&fields))?;
    }
    if options.manual {
        push_manual(text, instruction)?;
    }
    text.push_str("\n")
}

fn name_of(call: &Call) -> &'static [u8] {
    match call {
        Call::Print(instruction) => instruction.opcode.name(),
        Call::Gap => b"gap",
    }
}

impl Account {
    fn accepted(
        &mut self,
        count: u64,
        line: &str,
        call: &Call,
        options: &Options,
    ) -> Result<(), AllocError> {
        write!(self.text, "page line {count}, ")?;
        match call {
            Call::Print(instruction) => {
                self.totals.printed = self.totals.printed.saturating_add(1);
                push_line(&mut self.text, line, instruction, options)
            }
            Call::Gap => {
                self.totals.gaps = self.totals.gaps.saturating_add(1);
                self.text.push_str("gap\n")
            }
        }
    }

    fn refused(&mut self, fault: &PageFault, call: &Call) -> Result<(), AllocError> {
        self.totals.refused = self.totals.refused.saturating_add(1);
        writeln!(
            self.text,
            "refused with {}, after page line {}: {}",
            Refusal(fault.fault),
            fault.count,
            Characters(name_of(call))
        )
    }

    fn page(&mut self, page: &Printed, options: &Options) -> Result<(), AllocError> {
        writeln!(self.text, "page lines: {}", page.count)?;
        if options.marks {
            for mark in page.marks.iter() {
                writeln!(self.text, "{}", Marking(mark))?;
            }
        }
        Ok(())
    }
}

// The account of every call of a record.
pub(crate) fn of(
    heap: Global,
    calls: &Calls,
    page: &Printed,
    options: &Options,
) -> Result<String, AllocError> {
    let mut account = Account {
        text: String::new(heap),
        totals: Totals {
            misread: calls.misreadings.count,
            ..Totals::default()
        },
    };
    account.page(page, options)?;
    let mut rows = page.text.lines();
    for (line, entry) in calls.lines.iter().zip(calls.entries.iter()) {
        write!(account.text, "line {line}: ")?;
        match &entry.answer {
            Ok(count) => {
                let row = rows.next().unwrap_or("");
                account.accepted(*count, row, &entry.call, options)?;
            }
            Err(fault) => account.refused(fault, &entry.call)?,
        }
    }
    let totals = account.totals;
    writeln!(account.text, "{totals}")?;
    Ok(account.text)
}

// The page's lines, in colour where that was asked for.
pub(crate) fn lines(
    heap: Global,
    calls: &Calls,
    page: &Printed,
    options: &Options,
) -> Result<String, AllocError> {
    if !options.color {
        return page.text.clone();
    }
    let mut text = String::new(heap);
    for entry in calls.entries.iter() {
        push_accepted(&mut text, entry)?;
    }
    Ok(text)
}

fn push_accepted(text: &mut String, entry: &Entry) -> Result<(), AllocError> {
    match (&entry.answer, &entry.call) {
        (Ok(_), Call::Print(instruction)) => {
            push_coloured(text, instruction)?;
            text.push_str("\n")
        }
        (Ok(_), Call::Gap) => text.push_str("\n"),
        _ => Ok(()),
    }
}
