// An auditor in memory.
ghost use Rattle.std.specs.Prelude.{◌≡◌, [], Some};
ghost use Rattle.std.specs.Option.{option_copied};
ghost use Rattle.ug_types.specs.Ends.{IsCounted, Rose};
ghost use Rattle.ug_audit.specs.Auditors.{TakesEntryLine};

use crate::auditor::{Auditor, Noted};
use std::alloc::Global;

/// Keeps the text that it takes. The calls with the listed numbers, counted from 1, fail; so does one that finds no memory.
#[derive(Drop)]
pub struct TextAuditor {
    bytes: Vec<u8>,
    failing: Vec<u64>,
    calls: u64,
    faults: u64,
}

impl TextAuditor {
    pub fn new(alloc: Global, failing: Vec<u64>) -> TextAuditor
        ensures bytes { result.bytes.items ≡ [] }
        ensures failing { result.failing ≡ failing }
        ensures calls { result.calls ≡ 0 }
        ensures faults { result.faults ≡ 0 }
    {
        TextAuditor {
            bytes: Vec::new(alloc),
            failing,
            calls: 0,
            faults: 0,
        }
    }

    #[tactic(auto, using(crate::proofs::Fronts::nothing_taken, crate::proofs::Fronts::line_taken))]
    fn append(&mut self, line: &[u8]) -> Noted
        ensures text { TakesEntryLine (Some self.old.bytes.items)
            (Some self.new.bytes.items) line.now result }
        ensures faults { self.new.faults ≡ self.old.faults }
    {
        if self.bytes.extend_from_slice(line).is_err() {
            return Noted::Failed;
        }
        match self.bytes.push(b'\n') {
            Ok(()) => Noted::Done,
            Err(_) => Noted::Failed,
        }
    }

    fn fail(&mut self) -> Noted
        ensures result { result ≡ Noted.Failed }
        ensures bytes { self.new.bytes ≡ self.old.bytes }
        ensures counted { IsCounted self.old.faults self.new.faults }
        ensures rose { Rose self.old.faults self.new.faults }
    {
        self.faults = self.faults.saturating_add(1);
        Noted::Failed
    }
}

impl Auditor for TextAuditor {
    ghost text = { λ a. Some a.bytes.items };

    ghost faults = { λ a. a.faults };

    #[tactic(auto, using(crate::proofs::Fronts::nothing_taken))]
    fn note(&mut self, line: &[u8]) -> Noted {
        self.calls = self.calls.saturating_add(1);
        if self.failing.contains(&self.calls) {
            return self.fail();
        }
        match self.append(line) {
            Noted::Done => Noted::Done,
            Noted::Failed => self.fail(),
        }
    }

    fn taken(&self) -> Option<&[u8]>
        ensures { option_copied result ≡ Some self.now.bytes.items }
    {
        Some(self.bytes.as_slice())
    }

    fn faults(&self) -> u64 {
        self.faults
    }
}
