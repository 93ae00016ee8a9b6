// The machine that counts a script's journal in place of writing it.
ghost use Rattle.std.specs.Prelude.{◌≡◌, ◌≤◌, ◌++◌, ◌⊎◌, ℕ, List, Some, None, false};
ghost use Rattle.ug_types.specs.Ends.{Rose};
ghost use Rattle.ug_command_io.specs.Statuses.{AnswersLines, status_of};
ghost use Rattle.ug_command_io.specs.declared.results.Ended.{Ended};
ghost use Rattle.ug_kernel.specs.Kernel.{IsKernel};
ghost use Rattle.ug_iface.specs.Bus.{IsSoundBus};
ghost use Rattle.ug_sysfs.specs.Serving.{bus_in};
ghost use Rattle.ug_lines.specs.Lines.{lines_of};
ghost use Rattle.ug_script.specs.Laws.{coming_in};
ghost use Rattle.ug_script.specs.Against.{LacksNumbers, RefusesScript, SpeaksAgainst};
ghost use Rattle.ug_script.specs.CarriedOn.{CarriesThrough};
ghost use Rattle.ug_script.specs.LinesRead.{LineReads};
ghost use Rattle.ug_script.specs.Replay.{outcome_text};
ghost use Rattle.ug_script.specs.Summing.{Summary, TellsSummary, no_totals, summary_end, summary_of, summary_step, with_lines};
ghost use Rattle.ug_script.specs.Taking.{reported_by};

use crate::interpreter::Interpreter;
use crate::taken::Taken;
use crate::text::put;
use crate::totals::{Totals, line_of_totals};
use std::alloc::Global;
use ug_command_io::{Machine, Ran, run};
use ug_sysfs::SimKernel;
use ug_types::{Sink, Source};

/// A machine of `ug_command_io` that runs a script over the kernel that it is lent, and keeps four numbers of its journal.
#[derive(Drop)]
pub struct Summarizer {
    script: Interpreter,
    totals: Totals,
}

impl Summarizer {
    pub fn new() -> Summarizer
        ensures { summary_of result ≡ (None, no_totals) }
    {
        Summarizer {
            script: Interpreter::new(),
            totals: Totals::new(),
        }
    }

    fn count_text(&mut self, text: &[u8]) -> Ran
        ensures done { result ≡ Ran.Done }
        ensures script { self.new.script ≡ self.old.script }
        ensures totals { self.new.totals ≡ with_lines (lines_of text.now) self.old.totals }
    {
        self.totals = self.totals.with_text(text);
        Ran::Done
    }

    /// Counts the last event, and a text behind it.
    fn count_event(&mut self, alloc: Global, passed: &[u8]) -> Ran
        ensures done { (result ≡ Ran.Done) ⊎ (result ≡ Ran.Memory) }
        ensures script { self.new.script ≡ self.old.script }
        ensures totals { result ≡ Ran.Done → self.new.totals
            ≡ with_lines
            (lines_of (outcome_text (reported_by self.old.script.running) ++ passed.now))
            self.old.totals }
    {
        match self.script.event_totals(alloc, self.totals, passed) {
            Ok(totals) => {
                self.totals = totals;
                Ran::Done
            }
            Err(_) => Ran::Memory,
        }
    }
}

impl Machine<SimKernel> for Summarizer {
    ghost State = { Summary };

    ghost state = { summary_of };

    ghost step_of = { summary_step };

    ghost closing = { summary_end };

    ghost keeps = { λ m w. Unit {0} };

    ghost because = { λ p line fault.
        SpeaksAgainst (p.0.0, p.1) line fault ⊎ LacksNumbers (p.0.0, p.1) line };

    ghost holds = { λ p line. LineReads (p.0.0, p.1) line };

    fn step<K: Sink>(
        &mut self,
        alloc: Global,
        world: &mut SimKernel,
        line: &[u8],
        _out: &mut K,
    ) -> Ran {
        match self.script.take_line(alloc, world, line) {
            Taken::Silent => self.count_text(b""),
            Taken::Event(passed) => self.count_event(alloc, passed.as_slice()),
            Taken::Text(text) => self.count_text(text.as_slice()),
            Taken::Bad => Ran::Bad,
            Taken::TooLong => Ran::TooLong,
            Taken::Memory => Ran::Memory,
        }
    }

    fn finish<K: Sink>(&self, _alloc: Global, _world: &SimKernel, out: &mut K) -> Ran {
        if self.script.has_begun() {
            put(out, line_of_totals(&self.totals).bytes())
        } else {
            Ran::Bad
        }
    }
}

/// Runs the script that the input holds, and writes one line with numbers of its journal: how many events it has, and how many
/// lines `judged`, `wrote` and `unsettled`. A number of 2^64 or more is told as 2^64 - 1. The status is 0; 2 where a line isn't in the
/// grammar or a limit is passed; 4 for a read fault; 5 for a write fault; 6 for want of memory. With 2, 4 and 6 a fault line is all
/// that is written.
pub fn summarize<S: Source, K: Sink>(
    alloc: Global,
    input: &mut S,
    out: &mut K,
    kernel: &mut SimKernel,
) -> u8
    ensures answers { (all base : List ℕ) → S.left input.old ≡ Some all → K.held out.old ≡ Some base
        → (summary : Summary)
        × AnswersLines summary_step summary_end ((None, no_totals), kernel.old)
        all base (S.left input.new) (K.held out.new) (summary, kernel.new) result }
    ensures told { (all base : List ℕ) → S.left input.old ≡ Some all → K.held out.old ≡ Some base
        → TellsSummary kernel.old all base (K.held out.new) result }
    ensures why { (all : List ℕ) → S.left input.old ≡ Some all
        → kernel.old.ran_out ≡ false → IsSoundBus (bus_in kernel.old) → kernel.old.faults ≡ 0
        → coming_in kernel.old ≤ 1048576
        → result ≡ 2 → RefusesScript kernel.old (lines_of all) }
    ensures carries { (all base : List ℕ) → S.left input.old ≡ Some all → K.held out.old ≡ Some base
        → kernel.old.ran_out ≡ false → IsKernel kernel.old.kernel
        → result ≡ 0 → CarriesThrough kernel.old (lines_of all) }
    ensures ended { (ended : Ended) × (result ≡ status_of ended) }
    ensures read { result ≡ 4 → Rose (S.faults input.old) (S.faults input.new) }
    ensures written { result ≡ 5 → Rose (K.faults out.old) (K.faults out.new) }
{
    let mut summarizer = Summarizer::new();
    let status = run(alloc, input, out, &mut summarizer, kernel);
    summarizer.script.discard();
    status
}
