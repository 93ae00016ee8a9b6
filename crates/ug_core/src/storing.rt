// What became of the save of an order's change.
ghost use Rattle.std.specs.Prelude.{◌≡◌};
ghost use Rattle.ug_core.specs.Storing.{after_saving, refused_by};

use ug_store::Saved;
use ug_types::Refusal;

/// What became of an order's change: it is in force exactly where nothing had to be saved, or the save was done.
#[derive(Clone, Copy)]
pub enum Stored {
    /// There is no change, or none of permanent rules.
    NotNeeded,
    /// The permanent rules with the change were saved.
    Done,
    /// The save failed: the disk's count of faults.
    Failed { count: u64 },
    /// The text of the permanent rules would have more than 67,108,864 bytes.
    TooLong,
    Memory,
}

impl Stored {
    /// By what became of a save.
    pub fn of(saved: Saved) -> Stored
        ensures { result ≡ after_saving saved }
    {
        match saved {
            Saved::Done => Stored::Done,
            Saved::Failed(count) => Stored::Failed { count },
            Saved::Memory => Stored::Memory,
        }
    }

    /// Why the change isn't in force.
    pub fn refusal(self) -> Option<Refusal>
        ensures { result ≡ refused_by self }
    {
        match self {
            Stored::NotNeeded => None,
            Stored::Done => None,
            Stored::Failed { count } => Some(Refusal::StoreFault { count }),
            Stored::TooLong => Some(Refusal::RulesFull),
            Stored::Memory => Some(Refusal::Memory { stands: false }),
        }
    }
}
