// A journal's lines on an output of this machine.
ghost use Rattle.std.specs.Prelude.{◌≡◌, ◌∷◌, [], None};
ghost use Rattle.std.specs.Option.{option_copied};
ghost use Rattle.ug_types.specs.Ends.{IsCounted, Rose, Puts};
ghost use Rattle.ug_audit.specs.Auditors.{TakesEntryLine};

use std::io::Write;
use ug_audit::{Auditor, Noted};
use ug_files::put_all;
use ug_types::Put;

/// Writes each line of a journal and a newline behind it, and flushes them before the call returns. It keeps no text. Made over
/// standard output, it is the journal that a service manager or a shell reads.
#[derive(Drop)]
pub struct WriterAuditor<W> {
    writer: W,
    faults: u64,
}

// Writes the newline behind a line that was written, and flushes both.
#[tactic(auto, using(crate::proofs::Written::flushed, crate::proofs::Written::unflushed))]
fn end_line<W: Write>(writer: &mut W) -> Put
    ensures { Puts (W.contents writer.old) (W.contents writer.new) (10 ∷ []) result }
{
    match put_all(writer, b"\n") {
        Put::Done => match writer.flush() {
            Ok(()) => Put::Done,
            Err(_) => Put::Failed,
        },
        Put::Failed => Put::Failed,
    }
}

// Writes a line and a newline, and flushes them.
fn write_line<W: Write>(writer: &mut W, line: &[u8]) -> Noted
    ensures { TakesEntryLine (W.contents writer.old) (W.contents writer.new) line.now result }
{
    match put_all(writer, line) {
        Put::Done => match end_line(writer) {
            Put::Done => Noted::Done,
            Put::Failed => Noted::Failed,
        },
        Put::Failed => Noted::Failed,
    }
}

impl<W: Write + Drop> WriterAuditor<W> {
    /// An auditor that writes there. It takes no memory.
    pub fn new(writer: W) -> WriterAuditor<W>
        ensures writer { result.writer ≡ writer }
        ensures faults { result.faults ≡ 0 }
    {
        WriterAuditor { writer, faults: 0 }
    }
}

impl<W: Write + Drop> Auditor for WriterAuditor<W> {
    ghost text = { λ a. W.contents a.writer };

    ghost faults = { λ a. a.faults };

    fn note(&mut self, line: &[u8]) -> Noted {
        let noted = write_line(&mut self.writer, line);
        if noted == Noted::Failed {
            self.faults = self.faults.saturating_add(1);
        }
        noted
    }

    fn taken(&self) -> Option<&[u8]>
        ensures { option_copied result ≡ None }
    {
        None
    }

    fn faults(&self) -> u64 {
        self.faults
    }
}
