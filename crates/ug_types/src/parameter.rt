// Settings that can be asked for and changed while the daemon runs: usbguard(1), get-parameter and set-parameter.
ghost use Rattle.std.specs.Prelude.{◌≡◌, ◌≤◌, length};
ghost use Rattle.ug_types.specs.Parameters.{inserted_of, inserted_word, parameter_name, parameter_of, parameter_set, parameter_with, value_word};

use crate::verdict::Target;
use crate::word::is_word;

/// InsertedDevicePolicy of usbguard-daemon.conf(5): what is done with a device that comes later.
#[derive(Clone, Copy)]
pub enum Inserted {
    Block,
    Reject,
    /// The rules decide.
    Apply,
}

/// The name of such a setting.
#[derive(Clone, Copy)]
pub enum ParameterName {
    ImplicitPolicyTarget,
    InsertedDevicePolicy,
}

/// Such a setting with a value of its own.
#[derive(Clone, Copy)]
pub enum Parameter {
    ImplicitPolicyTarget(Target),
    InsertedDevicePolicy(Inserted),
}

impl Inserted {
    /// The word for it.
    pub fn word(self) -> &'static [u8]
        ensures text { result.now ≡ inserted_word self }
        ensures length { length result.now ≤ 12 }
    {
        match self {
            Inserted::Block => b"block",
            Inserted::Reject => b"reject",
            Inserted::Apply => b"apply-policy",
        }
    }

    /// The policy that the word is.
    #[tactic(auto, unfolding(crate::specs::Parameters::inserted_of))]
    pub fn named(word: &[u8]) -> Option<Inserted>
        ensures { result ≡ inserted_of word.now }
    {
        if is_word(word, b"block") {
            return Some(Inserted::Block);
        }
        if is_word(word, b"reject") {
            return Some(Inserted::Reject);
        }
        if is_word(word, b"apply-policy") {
            return Some(Inserted::Apply);
        }
        None
    }
}

impl ParameterName {
    /// The word for it.
    pub fn word(self) -> &'static [u8]
        ensures text { result.now ≡ parameter_name self }
        ensures length { length result.now ≤ 20 }
    {
        match self {
            ParameterName::ImplicitPolicyTarget => b"ImplicitPolicyTarget",
            ParameterName::InsertedDevicePolicy => b"InsertedDevicePolicy",
        }
    }

    /// The setting that the word names.
    #[tactic(auto, unfolding(crate::specs::Parameters::parameter_of))]
    pub fn named(word: &[u8]) -> Option<ParameterName>
        ensures { result ≡ parameter_of word.now }
    {
        if is_word(word, b"ImplicitPolicyTarget") {
            return Some(ParameterName::ImplicitPolicyTarget);
        }
        if is_word(word, b"InsertedDevicePolicy") {
            return Some(ParameterName::InsertedDevicePolicy);
        }
        None
    }

    /// The setting with the value that the word is, if it can have that.
    pub fn with_value(self, word: &[u8]) -> Option<Parameter>
        ensures { result ≡ parameter_with self word.now }
    {
        match self {
            ParameterName::ImplicitPolicyTarget => {
                Target::named(word).map(Parameter::ImplicitPolicyTarget)
            }
            ParameterName::InsertedDevicePolicy => {
                Inserted::named(word).map(Parameter::InsertedDevicePolicy)
            }
        }
    }
}

impl Parameter {
    /// Which setting it is.
    pub fn name(self) -> ParameterName
        ensures { result ≡ parameter_set self }
    {
        match self {
            Parameter::ImplicitPolicyTarget(_) => ParameterName::ImplicitPolicyTarget,
            Parameter::InsertedDevicePolicy(_) => ParameterName::InsertedDevicePolicy,
        }
    }

    /// The word for its value.
    pub fn value(self) -> &'static [u8]
        ensures text { result.now ≡ value_word self }
        ensures length { length result.now ≤ 12 }
    {
        match self {
            Parameter::ImplicitPolicyTarget(target) => target.word(),
            Parameter::InsertedDevicePolicy(inserted) => inserted.word(),
        }
    }
}
