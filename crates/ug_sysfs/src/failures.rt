// The calls that are to fail.
ghost use Rattle.std.specs.Prelude.{◌≡◌, ◌++◌, ◌∷◌, [], None, OnOk, OnErr};
ghost use Rattle.ug_sysfs.specs.World.{fate};

use crate::script::Failing;
use std::alloc::Global;
use std::collections::BTreeMap;
use std::marker::Model;
use ug_types::NoMemory;

/// Calls that are to fail, as they were told, and the last word on each.
#[derive(Drop)]
pub struct Failures {
    told: Vec<Failing>,
    last: BTreeMap<u64, bool>,
}

impl Model for Failures {
    ghost use Rattle.std.specs.Prelude.{List};
    ghost use Rattle.ug_sysfs.specs.declared.script.Failing.{Failing};

    ghost Value = { List Failing };

    ghost use Rattle.ug_sysfs.specs.LastWords.{HasLastWords};

    ghost view = { λ f. f.told.items };

    ghost invariant = { HasLastWords };
}

impl Failures {
    pub fn new(alloc: Global) -> Failures
        ensures { result ≡ [] }
    {
        Failures {
            told: Vec::new(alloc),
            last: BTreeMap::new(alloc),
        }
    }

    /// One call more, at the end.
    pub fn push(&mut self, failing: Failing) -> Result<(), NoMemory>
        ensures ok { OnOk result (self.new ≡ self.old ++ failing ∷ []) }
        ensures err { OnErr result (self.new ≡ self.old) }
    {
        self.told.reserve(1)?;
        self.last.insert(failing.call, failing.effect)?;
        self.told.push_reserved(failing);
        Ok(())
    }

    /// No call is to fail any more.
    pub fn clear(&mut self)
        ensures { self.new ≡ [] }
    {
        self.told.clear();
        self.last.clear();
    }

    /// Whether a call fails, and whether it then has its effect.
    pub fn fate(&self, call: u64) -> Option<bool>
        ensures { result ≡ fate call None self.now }
    {
        self.last.get(&call).copied()
    }
}
