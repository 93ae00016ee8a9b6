// Changes of a list of rules.
use ug_policy::Mark;
use ug_types::{After, Rule};

/// A change of the list: usbguard(1), append-rule and remove-rule, and the device orders with `permanent`.
#[derive(Drop)]
pub enum Edit {
    /// A new rule.
    Insert {
        after: After,
        rule: Rule,
        mark: Mark,
    },
    /// The rule of that id goes.
    Remove {
        id: u64,
    },
    /// The rule of that id gets the target of this one, from which it differs in nothing else.
    Retarget {
        id: u64,
        rule: Rule,
    },
}

impl Edit {
    /// Drops it. A crate that calls this need not prove how its parts are dropped.
    pub fn discard(self) {
        match self {
            Edit::Insert {
                after: _,
                rule,
                mark: _,
            } => rule.discard(),
            Edit::Remove { id: _ } => {}
            Edit::Retarget { id: _, rule } => rule.discard(),
        }
    }
}
