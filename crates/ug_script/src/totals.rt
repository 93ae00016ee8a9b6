// The numbers of a journal's lines.
ghost use Rattle.std.specs.Prelude.{◌≡◌, ◌+◌, ◌++◌, ◌∷◌, [], cond, IfOk, IfSome};
ghost use Rattle.ug_audit.specs.Lines.{entry_line};
ghost use Rattle.ug_lines.specs.Lines.{lines_of};
ghost use Rattle.ug_script.specs.Replay as replay;
ghost use Rattle.ug_script.specs.Replay.{lines_text};
ghost use Rattle.ug_script.specs.Summing.{count, bounded_count, no_totals, summary_line, with_lines};
ghost use Rattle.ug_script.specs.Taking.{reported};

use crate::kinds::{begins_event, is_of_sweep, sets_verdict, tells_unsettled, tells_write};
use crate::text::outcome_text;
use std::alloc::Global;
use ug_core::{Entry, Report};
use ug_lines::next_line;
use ug_types::{Line, NoMemory};

/// How many events a journal has, and how many verdicts, writes and unsettled devices.
#[derive(Clone, Copy)]
pub struct Totals {
    pub events: u64,
    pub judged: u64,
    pub writes: u64,
    pub unsettled: u64,
}

fn counted(total: u64, line: &[u8], front: &[u8]) -> u64
    ensures { result ≡ bounded_count (total + count front.now (line.now ∷ [])) }
{
    if line.starts_with(front) {
        total.saturating_add(1)
    } else {
        total
    }
}

fn counted_if(total: u64, counts: bool) -> u64
    ensures { result ≡ bounded_count (total + cond counts 1 0) }
{
    if counts {
        total.saturating_add(1)
    } else {
        total
    }
}

impl Totals {
    pub fn new() -> Totals
        ensures { result ≡ no_totals }
    {
        Totals {
            events: 0,
            judged: 0,
            writes: 0,
            unsettled: 0,
        }
    }

    fn with_line(self, line: &[u8]) -> Totals
        ensures { result ≡ with_lines (line.now ∷ []) self }
    {
        Totals {
            events: counted(self.events, line, b"event "),
            judged: counted(self.judged, line, b"judged "),
            writes: counted(self.writes, line, b"wrote "),
            unsettled: counted(self.unsettled, line, b"unsettled "),
        }
    }

    /// With those of the lines of a text.
    pub fn with_text(self, text: &[u8]) -> Totals
        ensures { result ≡ with_lines (lines_of text.now) self }
    {
        let mut totals = self;
        let mut rest = text;
        while !rest.is_empty() {
            let (line, more) = next_line(rest);
            totals = totals.with_line(line);
            rest = more;
        }
        totals
    }
}

impl Totals {
    /// With those of an entry's line.
    fn with_entry(self, entry: &Entry) -> Totals
        ensures { result ≡ with_lines (entry_line entry.now ∷ []) self }
    {
        Totals {
            events: counted_if(self.events, begins_event(entry)),
            judged: counted_if(self.judged, sets_verdict(entry)),
            writes: counted_if(self.writes, tells_write(entry)),
            unsettled: counted_if(self.unsettled, tells_unsettled(entry)),
        }
    }

    /// With those of the lines of a sweep's entries, without making these. Of other entries none are told.
    fn with_entries(self, entries: &[Entry]) -> Option<Totals>
        ensures { IfSome result (λ t. t ≡ with_lines (lines_of (lines_text entries.now)) self) }
    {
        let mut totals = self;
        for entry in entries {
            if !is_of_sweep(entry) {
                return None;
            }
            totals = totals.with_entry(entry);
        }
        Some(totals)
    }

    /// With those of an event's text. It is made where the event has an order.
    fn with_report(self, alloc: Global, report: &Report) -> Result<Totals, NoMemory>
        ensures { IfOk result (λ t. t
            ≡ with_lines (lines_of (replay.outcome_text (reported report.now))) self) }
    {
        if report.reply.is_none() {
            if let Some(totals) = self.with_entries(report.entries.as_slice()) {
                return Ok(totals);
            }
        }
        let text = outcome_text(alloc, report)?;
        Ok(self.with_text(text.as_slice()))
    }

    /// The same, and with those of the text behind it.
    pub fn with_event(
        self,
        alloc: Global,
        report: &Report,
        passed: &[u8],
    ) -> Result<Totals, NoMemory>
        ensures { IfOk result (λ t. t
            ≡ with_lines (lines_of (replay.outcome_text (reported report.now) ++ passed.now))
            self) }
    {
        let totals = self.with_report(alloc, report)?;
        Ok(totals.with_text(passed))
    }
}

/// The line that tells them.
#[tactic(auto, unfolding(crate::specs::Summing::summary_line))]
pub fn line_of_totals(totals: &Totals) -> Line
    ensures { result ≡ summary_line totals.now }
{
    let mut line = Line::of(b"summary events ");
    line.push_decimal(totals.events);
    line.push(b" judged ");
    line.push_decimal(totals.judged);
    line.push(b" writes ");
    line.push_decimal(totals.writes);
    line.push(b" unsettled ");
    line.push_decimal(totals.unsettled);
    line.push(b"\n");
    line
}
