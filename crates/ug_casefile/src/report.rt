// The cases whose answers differ from those that are wanted.
use crate::answer::Answer;
use crate::cases::Case;
use std::alloc::Global;
use ug_types::NoMemory;

/// At most so many bytes of a text are shown.
const SHOWN: usize = 2000;

#[derive(Drop)]
pub struct Report {
    lines: Answer,
    cases: u64,
    differing: u64,
}

fn front(text: &[u8]) -> &[u8] {
    &text[..text.len().min(SHOWN)]
}

impl Report {
    pub fn new(alloc: Global) -> Report {
        Report {
            lines: Answer::new(alloc),
            cases: 0,
            differing: 0,
        }
    }

    /// Adds a line of that number that isn't in the format.
    pub fn add_bad_line(&mut self, number: u64) {
        self.differing = self.differing.saturating_add(1);
        self.lines.add(b"line ");
        self.lines.add_number(number);
        self.lines.add(b": not in the format\n");
    }

    // A line with both texts.
    fn add_differing(&mut self, case: &Case, told: &[u8]) {
        self.differing = self.differing.saturating_add(1);
        self.lines.add(b"line ");
        self.lines.add_number(case.line);
        self.lines.add(b", ");
        self.lines.add_escaped(&case.kind);
        self.lines.add(b": wanted ");
        self.lines.add_quoted(front(&case.wanted));
        self.lines.add(b", told ");
        self.lines.add_quoted(front(told));
        self.lines.add(b"\n");
    }

    /// Counts a case, and adds a line with both texts where the answer isn't the one that is wanted.
    pub fn add(&mut self, case: &Case, told: &[u8]) {
        self.cases = self.cases.saturating_add(1);
        if told != case.wanted.as_slice() {
            self.add_differing(case, told);
        }
    }

    /// The lines, and how many cases there were and how many lines and cases were wrong.
    pub fn finish(mut self) -> Result<Vec<u8>, NoMemory> {
        self.lines.add_number(self.cases);
        self.lines.add(b" cases, ");
        self.lines.add_number(self.differing);
        self.lines.add(b" differ\n");
        self.lines.finish()
    }
}
