// The entries of the daemon's start.
ghost use Rattle.std.specs.Prelude.{◌≤◌, length};
ghost use Rattle.ug_audit.specs.Journal.{members};
ghost use Rattle.ug_audit.specs.Noting.{NotesLine, NotesStart};
ghost use Rattle.ug_audit.specs.StartLines.{start_line};
ghost use Rattle.ug_serve.specs.Causes.{refusal_entries};
ghost use Rattle.ug_serve.specs.Opening.{unused_entries};

use crate::not_started::NotStarted;
use ug_audit::{Auditor, Panel, StartEntry};

/// Notes an entry. The clause on the panel's size holds of each panel: with it, this is proved for whatever auditors the caller has.
fn note_start(panel: &mut Panel, entry: &StartEntry)
    requires { length panel.old.auditors.items ≤ 64 }
    ensures { NotesLine (start_line entry.now)
        (members (λ b. ⟦<dyn Auditor as Auditor>⟧ b.vtable) panel.old)
        (members (λ b. ⟦<dyn Auditor as Auditor>⟧ b.vtable) panel.new) }
{
    panel.note_start(entry);
}

/// Notes each line of the settings whose key isn't used.
pub fn note_unused(panel: &mut Panel, lines: &[u64])
    ensures { NotesStart (unused_entries lines.now)
        (members (λ b. ⟦<dyn Auditor as Auditor>⟧ b.vtable) panel.old)
        (members (λ b. ⟦<dyn Auditor as Auditor>⟧ b.vtable) panel.new) }
{
    for line in lines {
        note_start(panel, &StartEntry::UnusedKey { line: *line });
    }
}

/// Notes a part that isn't taken.
pub fn note_refusal(panel: &mut Panel, why: NotStarted)
    ensures { NotesStart (refusal_entries why)
        (members (λ b. ⟦<dyn Auditor as Auditor>⟧ b.vtable) panel.old)
        (members (λ b. ⟦<dyn Auditor as Auditor>⟧ b.vtable) panel.new) }
{
    if let NotStarted::Refused(part, bad) = why {
        let entry = StartEntry::Refused {
            part,
            line: bad.line,
            kind: bad.kind,
            place: bad.place,
        };
        note_start(panel, &entry);
    }
}
