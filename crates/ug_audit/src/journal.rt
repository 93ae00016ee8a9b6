// What is noted of an event, while it goes on.
ghost use Rattle.std.specs.Prelude.{◌≡◌, ◌≤◌, ◌<◌, ◌+◌, ◌++◌, ◌∷◌, [], false, OnOk, OnErr};
ghost use Rattle.arrayvec.specs.ArrayVec.{array_vec_len};
ghost use Rattle.ug_audit.specs.Lines.{entry_line};
ghost use Rattle.ug_audit.specs.Panels.{NotesAll, newly_dropped};

use crate::entries::Entries;
use crate::entry::Entry;
use crate::lines::line_of;
use crate::panel::{Panel, take_first};
use arrayvec::ArrayVec;
use ug_types::NoMemory;

/// The entries of the event that goes on, which are noted one by one, each where there is room for it. Each is given to the
/// panel's members at once; beside the room there is a place for the `dropped` entry of each member that isn't dropped.
#[derive(Drop)]
pub struct Journal<'a> {
    panel: &'a mut Panel,
    entries: &'a mut Entries,
}

impl<'a> Journal<'a> {
    ghost use Rattle.ug_audit.specs.Journal.{live_in, members, noted_in, SameEntries};
    ghost use Rattle.ug_audit.specs.Noting.{tells_drop};

    /// Notes into this panel and these entries, and has the room of the entries but for the members' places. It takes no memory.
    pub fn join(panel: &'a mut Panel, entries: &'a mut Entries) -> Journal<'a>
        requires { live_in panel.old ≤ entries.old.spare }
        ensures same_panel { result.panel.ghost_name ≡ panel.entry.ghost_name }
        ensures same_entries { result.entries.ghost_name ≡ entries.entry.ghost_name }
        ensures panel { result.panel.now ≡ panel.old }
        ensures now { result.entries.now ≡ entries.old }
    {
        Journal { panel, entries }
    }

    /// Makes room for n entries. A refusal changes nothing.
    pub fn reserve(&mut self, n: usize) -> Result<(), NoMemory>
        ensures same { SameEntries Auditor-box self.old self.new }
        ensures entries { (noted_in self.new).entries ≡ (noted_in self.old).entries }
        ensures all { self.new.entries.now.entries ≡ self.old.entries.now.entries }
        ensures panel { self.new.panel.now ≡ self.old.panel.now }
        ensures ok { OnOk result (n ≤ (noted_in self.new).spare) }
        ensures more { (noted_in self.old).spare ≤ (noted_in self.new).spare }
        ensures room { (noted_in self.old).room ≤ (noted_in self.new).room }
        ensures enough { OnOk result (n ≤ (noted_in self.new).room) }
        ensures err { OnErr result (self.new.entries.now ≡ self.old.entries.now) }
    {
        match n.checked_add(64) {
            Some(places) => self.entries.reserve(places),
            None => Err(NoMemory),
        }
    }

    /// Gives an entry's line to the panel, and appends the entry.
    fn note(&mut self, entry: Entry, due: &mut ArrayVec<u8, 64>)
        requires spare { 0 < self.old.entries.now.spare }
        requires few { array_vec_len due.old + live_in self.old.panel.now ≤ 64 }
        ensures same_panel { self.new.panel.ghost_name ≡ self.old.panel.ghost_name }
        ensures same_entries { self.new.entries.ghost_name ≡ self.old.entries.ghost_name }
        ensures entries { self.new.entries.now.entries
            ≡ self.old.entries.now.entries ++ entry ∷ [] }
        ensures spare { self.new.entries.now.spare + 1 ≡ self.old.entries.now.spare }
        ensures room { self.new.entries.now.room ≡ self.old.entries.now.room }
        ensures each { NotesAll (entry_line entry) (members Auditor-box self.old.panel.now)
            (members Auditor-box self.new.panel.now) }
        ensures due { due.new.items
            ≡ due.old.items
            ++ newly_dropped 0 (members Auditor-box self.old.panel.now)
            (members Auditor-box self.new.panel.now) }
        ensures live { live_in self.new.panel.now + array_vec_len due.new
            ≡ live_in self.old.panel.now + array_vec_len due.old }
    {
        let line = line_of(&entry);
        self.panel.give_line(line.bytes(), due);
        self.entries.push(entry);
    }

    /// Notes an entry, for which there is room, and behind it a `dropped` entry for each member that fails at its line or at the
    /// line of such an entry, in the order in which they fail. It takes no memory.
    pub fn push(&mut self, entry: Entry)
        requires spare { 0 < (noted_in self.old).spare }
        requires kind { tells_drop entry ≡ false }
        ensures same { SameEntries Auditor-box self.old self.new }
        ensures entries { (noted_in self.new).entries ≡ (noted_in self.old).entries ++ entry ∷ [] }
        ensures spare { (noted_in self.new).spare + 1 ≡ (noted_in self.old).spare }
        ensures places { self.new.entries.now.spare + 1 + live_in self.old.panel.now
            ≡ self.old.entries.now.spare + live_in self.new.panel.now }
        ensures room { (noted_in self.new).room ≡ (noted_in self.old).room }
    {
        let mut due = ArrayVec::new();
        self.note(entry, &mut due);
        while let Some(member) = take_first(&mut due) {
            self.note(Entry::Dropped { member }, &mut due);
        }
    }
}
