// The privileges of one section.
ghost use Rattle.std.specs.Prelude.{◌≡◌};
ghost use Rattle.ug_acl.specs.Pairs.{all_pairs, holds_privilege};
ghost use Rattle.ug_acl.specs.Words as words;
ghost use Rattle.ug_acl.specs.Words.{given_by_word, no_privileges, has_privilege};

use ug_types::{Privilege, Section};

/// Some of the privileges that a section can have.
#[derive(Clone, Copy)]
pub struct Privileges {
    pub modify: bool,
    pub list: bool,
    pub listen: bool,
}

/// Whether the section has the privilege at all.
pub fn is_privilege(section: Section, privilege: Privilege) -> bool
    ensures { result ≡ holds_privilege all_pairs section privilege }
{
    match (section, privilege) {
        (Section::Policy, Privilege::Listen) => false,
        (Section::Exceptions, Privilege::Modify) => false,
        (Section::Exceptions, Privilege::List) => false,
        _ => true,
    }
}

fn gives(section: Section, privilege: Privilege, word: &[u8]) -> bool
    ensures { result ≡ words.gives section privilege word.now }
{
    is_privilege(section, privilege) && (word == b"ALL".as_slice() || word == privilege.word())
}

impl Privileges {
    pub fn none() -> Privileges
        ensures { result ≡ no_privileges }
    {
        Privileges {
            modify: false,
            list: false,
            listen: false,
        }
    }

    /// What a word behind the section gives: the privilege that it names, or each for `ALL`.
    pub fn of_word(section: Section, word: &[u8]) -> Privileges
        ensures { result ≡ given_by_word section word.now }
    {
        Privileges {
            modify: gives(section, Privilege::Modify, word),
            list: gives(section, Privilege::List, word),
            listen: gives(section, Privilege::Listen, word),
        }
    }

    pub fn union(self, other: Privileges) -> Privileges
        ensures { result ≡ words.union self other }
    {
        Privileges {
            modify: self.modify || other.modify,
            list: self.list || other.list,
            listen: self.listen || other.listen,
        }
    }

    pub fn is_any(self) -> bool
        ensures { result ≡ words.is_any self }
    {
        self.modify || self.list || self.listen
    }

    pub fn has(self, privilege: Privilege) -> bool
        ensures { result ≡ has_privilege self privilege }
    {
        match privilege {
            Privilege::Modify => self.modify,
            Privilege::List => self.list,
            Privilege::Listen => self.listen,
        }
    }
}
