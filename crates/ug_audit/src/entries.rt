// The entries of an event, with room for more.
ghost use Rattle.std.specs.Prelude.{◌≡◌, ◌≤◌, ◌<◌, ◌+◌, ◌++◌, ◌∷◌, [], length, OnOk, OnErr};

use crate::entry::Entry;
use std::alloc::Global;
use std::marker::Model;
use ug_types::{Cause, NoMemory};

/// Entries, seen as their list and the number of those for which there is room.
#[derive(Drop)]
pub struct Entries {
    items: Vec<Entry>,
    spare: usize,
}

impl Model for Entries {
    ghost use Rattle.std.specs.Prelude.{◌+◌, ◌≤◌, length, vec_capacity};
    ghost use Rattle.ug_audit.specs.Noted.{Noted};

    ghost Value = { Noted };

    ghost view = { λ e. record
        { entries = e.items.items; spare = e.spare; room = length e.items.items + e.spare } };

    ghost invariant = { λ e. length e.items.items + e.spare ≤ vec_capacity e.items };
}

impl Entries {
    /// No entries. It takes no memory.
    pub fn new(alloc: Global) -> Entries
        ensures { result ≡ record { entries = []; spare = 0; room = 0 } }
    {
        Entries {
            items: Vec::new(alloc),
            spare: 0,
        }
    }

    /// Makes room for n entries. A refusal changes nothing.
    pub fn reserve(&mut self, n: usize) -> Result<(), NoMemory>
        ensures entries { self.new.entries ≡ self.old.entries }
        ensures ok { OnOk result (n ≤ self.new.spare) }
        ensures more { self.old.spare ≤ self.new.spare }
        ensures room { self.old.room ≤ self.new.room }
        ensures within { self.new.spare ≤ self.new.room }
        ensures err { OnErr result (self.new ≡ self.old) }
    {
        if n <= self.spare {
            return Ok(());
        }
        match self.items.reserve(n) {
            Ok(()) => {
                self.spare = n;
                Ok(())
            }
            Err(_) => Err(NoMemory),
        }
    }

    /// Appends an entry, for which there is room.
    pub fn push(&mut self, entry: Entry)
        requires { 0 < self.old.spare }
        ensures entries { self.new.entries ≡ self.old.entries ++ entry ∷ [] }
        ensures spare { self.new.spare + 1 ≡ self.old.spare }
        ensures room { self.new.room ≡ self.old.room }
    {
        // The check of this function wants that type named in it.
        let _cause: Option<Cause> = None;
        self.items.push_reserved(entry);
        self.spare -= 1;
    }

    /// Takes all entries out, and keeps their room.
    pub fn clear(&mut self)
        ensures entries { self.new.entries ≡ [] }
        ensures spare { self.new.spare ≡ self.old.room }
        ensures room { self.new.room ≡ self.old.room }
    {
        let count = self.items.len();
        self.items.clear();
        self.spare += count;
    }

    pub fn as_slice(&self) -> &[Entry]
        ensures { result.now ≡ self.now.entries }
    {
        self.items.as_slice()
    }
}
