// Counts the verdicts, and tells them.
use crate::cases::judge_case;
use crate::difference::{COUNT, Difference, Seen};
use crate::judge::{Answer, Panicked, Verdict};
use crate::line::Stored;
use std::alloc::{AllocError, Global};
use std::fmt;
use std::fmt::Write;

#[derive(Drop)]
pub struct Tally {
    pub cases: u64,
    pub equal: u64,
    pub listed: u64,
    pub stopped: u64,
    pub unexplained: u64,
    // How many cases show each difference.
    shown: [u64; COUNT],
    // The cases that nothing explains.
    pub puzzles: String,
}

impl Tally {
    fn show(&mut self, seen: &Seen) {
        for difference in Difference::ALL {
            if seen.has(difference) {
                let shown = &mut self.shown[difference as usize];
                *shown = shown.saturating_add(1);
            }
        }
    }

    fn judge(&mut self, heap: Global, case: &str, answer: Answer<'_>) -> Result<(), AllocError> {
        let verdict = judge_case(heap, case.as_bytes(), answer)?;
        self.count(case, verdict)
    }

    fn count(&mut self, case: &str, verdict: Verdict) -> Result<(), AllocError> {
        self.cases = self.cases.saturating_add(1);
        match verdict {
            Verdict::Equal => self.equal = self.equal.saturating_add(1),
            Verdict::Listed(seen) => {
                self.listed = self.listed.saturating_add(1);
                self.show(&seen);
            }
            Verdict::Stopped(seen) => {
                self.stopped = self.stopped.saturating_add(1);
                self.show(&seen);
            }
            Verdict::Unexplained => {
                self.unexplained = self.unexplained.saturating_add(1);
                writeln!(self.puzzles, "unexplained: {case}")?;
            }
        }
        Ok(())
    }
}

impl fmt::Display for Tally {
    fn fmt<W: fmt::Write>(&self, f: &mut fmt::Formatter<W>) -> fmt::Result {
        let Tally {
            cases,
            equal,
            listed,
            stopped,
            unexplained,
            shown,
            puzzles: _,
        } = self;
        writeln!(
            f,
            "{cases} answers of the original: {equal} equal in text and marks, {listed} with listed differences, {stopped} panics, {unexplained} unexplained"
        )?;
        for difference in Difference::ALL {
            let number = shown[difference as usize];
            writeln!(f, "{number:>6}  {difference}")?;
        }
        Ok(())
    }
}

// A case is a line with an instruction, and then a line with the text and one with the marks, or one that tells a panic.
pub(crate) fn of(heap: Global, stored: &str) -> Result<Tally, AllocError> {
    let mut tally = Tally {
        cases: 0,
        equal: 0,
        listed: 0,
        stopped: 0,
        unexplained: 0,
        shown: [0; COUNT],
        puzzles: String::new(heap),
    };
    let mut case = "";
    let mut text = "";
    for line in stored.lines() {
        match line.as_bytes() {
            [b'=', ..] => text = line,
            [b'm', ..] => tally.judge(heap, case, Ok(Stored { text, marks: line }))?,
            [b'!', ..] => tally.judge(heap, case, Err(Panicked))?,
            _ => case = line,
        }
    }
    Ok(tally)
}
