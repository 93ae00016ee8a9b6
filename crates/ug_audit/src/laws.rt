// What the lines of entries come to.
ghost use Rattle.std.specs.Prelude.{◌≡◌, ℕ, List, [], ◌∷◌, ◌++◌};
ghost use Rattle.ug_types.specs.Elements.{Has};
ghost use Rattle.ug_audit.specs.declared.entry.Entry.{Entry};
ghost use Rattle.ug_audit.specs.declared.start_entry.StartEntry.{StartEntry};
ghost use Rattle.ug_audit.specs.Lines.{entry_line};
ghost use Rattle.ug_audit.specs.StartLines.{IsStartEntry, start_line};
ghost use Rattle.ug_audit.specs.Noting.{NotesEntries, NotesLine, without_drops};
ghost use Rattle.ug_audit.specs.Panels.{Member, live};
ghost use Rattle.ug_audit.specs.Texts.{TookAll, entries_text};
ghost use Rattle.ug_audit.specs.Printed.{IsEntry, as_printed};

/// No entry has the line of another: where two have one line, they are the same in all that is printed. An entry is one line.
pub fn entries_law()
    ensures one { (a b : Entry) → IsEntry a → IsEntry b → entry_line a ≡ entry_line b
        → as_printed a ≡ as_printed b }
    ensures line { (e : Entry) → IsEntry e → ¬ Has (entry_line e) 10 }
{}

/// What the members of a panel took of entries that were noted: all of their text, or a front of it where a call failed. Where no
/// member is left, none of the entries tells that one is dropped. And entries that are noted behind others are noted with them.
pub fn noted_law()
    ensures texts { (es : List Entry) (before after : List Member) → NotesEntries es before after
        → TookAll (entries_text es) before after }
    ensures alone { (es : List Entry) (before after : List Member) → live before ≡ 0
        → NotesEntries es before after
        → without_drops es ≡ es }
    ensures behind { (es more : List Entry) (before between after : List Member)
        → NotesEntries es before between
        → NotesEntries more between after → NotesEntries (es ++ more) before after }
{}

/// No entry of the start has the line of another, or of an entry of an event. It is one line.
pub fn start_entries_law()
    ensures one { (a b : StartEntry) → IsStartEntry a → IsStartEntry b → start_line a ≡ start_line b
        → a ≡ b }
    ensures apart { (a : StartEntry) (e : Entry) → IsStartEntry a → IsEntry e
        → ¬ (start_line a ≡ entry_line e) }
    ensures line { (a : StartEntry) → IsStartEntry a → ¬ Has (start_line a) 10 }
{}

/// What the members of a panel took of a line and the `dropped` entries behind it. Where no member is left there are none of these.
pub fn start_noted_law()
    ensures texts { (line : List ℕ) (before after : List Member) (h : NotesLine line before after)
        → TookAll ((line ++ 10 ∷ []) ++ entries_text h.drops) before after }
    ensures none { (line : List ℕ) (before after : List Member) (h : NotesLine line before after)
        → live before ≡ 0
        → h.drops ≡ [] }
{}
