// What a user or a group may do: usbguard-daemon.conf(5), IPC access control files.
ghost use Rattle.std.specs.Prelude.{◌≡◌, ◌≤◌, length};
ghost use Rattle.ug_types.specs.Access.{section_word, privilege_word, section_of, privilege_of};

use crate::word::is_word;

/// What a privilege is about.
#[derive(Clone, Copy)]
pub enum Section {
    Devices,
    Policy,
    Exceptions,
    Parameters,
}

/// What is allowed there.
#[derive(Clone, Copy)]
pub enum Privilege {
    Modify,
    List,
    Listen,
}

impl Section {
    /// The word for it.
    #[tactic(auto, unfolding(crate::specs::Access::section_word))]
    pub fn word(self) -> &'static [u8]
        ensures text { result.now ≡ section_word self }
        ensures length { length result.now ≤ 10 }
    {
        match self {
            Section::Devices => b"Devices",
            Section::Policy => b"Policy",
            Section::Exceptions => b"Exceptions",
            Section::Parameters => b"Parameters",
        }
    }

    /// The section that the word is.
    #[tactic(auto, unfolding(crate::specs::Access::section_of))]
    pub fn named(word: &[u8]) -> Option<Section>
        ensures { result ≡ section_of word.now }
    {
        if is_word(word, b"Devices") {
            return Some(Section::Devices);
        }
        if is_word(word, b"Policy") {
            return Some(Section::Policy);
        }
        if is_word(word, b"Exceptions") {
            return Some(Section::Exceptions);
        }
        if is_word(word, b"Parameters") {
            return Some(Section::Parameters);
        }
        None
    }
}

impl Privilege {
    /// The word for it.
    #[tactic(auto, unfolding(crate::specs::Access::privilege_word))]
    pub fn word(self) -> &'static [u8]
        ensures text { result.now ≡ privilege_word self }
        ensures length { length result.now ≤ 10 }
    {
        match self {
            Privilege::Modify => b"modify",
            Privilege::List => b"list",
            Privilege::Listen => b"listen",
        }
    }

    /// The privilege that the word is.
    #[tactic(auto, unfolding(crate::specs::Access::privilege_of))]
    pub fn named(word: &[u8]) -> Option<Privilege>
        ensures { result ≡ privilege_of word.now }
    {
        if is_word(word, b"modify") {
            return Some(Privilege::Modify);
        }
        if is_word(word, b"list") {
            return Some(Privilege::List);
        }
        if is_word(word, b"listen") {
            return Some(Privilege::Listen);
        }
        None
    }
}
