// What orders change of rules and settings: usbguard(1).
ghost use Rattle.std.specs.Prelude.{◌≡◌};
ghost use Rattle.ug_core.specs.Changes.{change_entry, parameter_at, with_parameter};

use crate::classes::Classes;
use ug_audit::{Entry, RuleChange};
use ug_ruleset::Edit;
use ug_types::{Parameter, ParameterName};

/// A change of rules or settings.
#[derive(Drop)]
pub enum Change {
    Rules(Edit),
    /// A setting gets that value until the daemon ends.
    Set(Parameter),
}

fn edit_entry(edit: &Edit, next: u64) -> Entry
    ensures { result ≡ change_entry (Change.Rules edit.now) next }
{
    match edit {
        Edit::Insert { .. } => Entry::Rules {
            change: RuleChange::Added,
            id: next,
        },
        Edit::Remove { id } => Entry::Rules {
            change: RuleChange::Removed,
            id: *id,
        },
        Edit::Retarget { id, .. } => Entry::Rules {
            change: RuleChange::Changed,
            id: *id,
        },
    }
}

impl Change {
    /// Drops it.
    pub fn discard(self) {
        match self {
            Change::Rules(edit) => edit.discard(),
            Change::Set(_) => {}
        }
    }

    /// What the journal tells of it, where that is the next rule's id.
    pub fn entry(&self, next: u64) -> Entry
        ensures { result ≡ change_entry self.now next }
    {
        match self {
            Change::Rules(edit) => edit_entry(edit, next),
            Change::Set(parameter) => Entry::Parameter(*parameter),
        }
    }
}

impl Classes {
    /// The setting of that name.
    pub fn parameter(&self, name: ParameterName) -> Parameter
        ensures { result ≡ parameter_at name self.now }
    {
        match name {
            ParameterName::ImplicitPolicyTarget => Parameter::ImplicitPolicyTarget(self.implicit),
            ParameterName::InsertedDevicePolicy => Parameter::InsertedDevicePolicy(self.inserted),
        }
    }

    /// Gives a setting that value.
    pub fn set(&mut self, parameter: Parameter)
        ensures { self.new ≡ with_parameter parameter self.old }
    {
        match parameter {
            Parameter::ImplicitPolicyTarget(target) => self.implicit = target,
            Parameter::InsertedDevicePolicy(inserted) => self.inserted = inserted,
        }
    }
}
