// What is given each line of a journal.
ghost use Rattle.std.specs.Prelude.{◌≡◌, ℕ, List, Option};
ghost use Rattle.std.specs.Option.{option_copied};
ghost use Rattle.ug_types.specs.Ends.{IsCounted, Rose};
ghost use Rattle.ug_audit.specs.Auditors.{TakesEntryLine, IsTextTaken};

/// What became of a line that was given to an auditor.
#[derive(Clone, Copy)]
pub enum Noted {
    Done,
    Failed,
}

/// Keeps a journal: a file, a terminal, a service.
pub trait Auditor: Drop {
    /// The text that was taken, where the auditor tells it.
    ghost text: { Self → Option (List ℕ) };

    /// How many calls have failed.
    ghost faults: { Self → ℕ };

    /// Takes the line and a newline.
    fn note(&mut self, line: &[u8]) -> Noted
        ensures text { TakesEntryLine (text self.old) (text self.new) line.now result }
        ensures counted { IsCounted (faults self.old) (faults self.new) }
        ensures cause { result ≡ Noted.Failed → Rose (faults self.old) (faults self.new) };

    /// The text that was taken, or none from an auditor that doesn't keep it.
    fn taken(&self) -> Option<&[u8]>
        ensures { IsTextTaken (option_copied result) (text self.now) };

    /// How many calls have failed.
    fn faults(&self) -> u64
        ensures { result ≡ faults self.now };
}
