// What was granted.
ghost use Rattle.std.specs.Prelude.{◌≡◌};
ghost use Rattle.ug_acl.specs.Kept.{kept_in, pairs_kept};
ghost use Rattle.ug_acl.specs.Pairs.{all_pairs, holds_privilege};
ghost use Rattle.ug_acl.specs.Texts.{grants_privilege, pairs_given};

use crate::draft::Given;
use crate::privileges::{Privileges, is_privilege};
use std::marker::Model;
use ug_types::{Privilege, Section};

/// The privileges of each section.
#[derive(Clone, Copy)]
pub struct Kept {
    pub devices: Privileges,
    pub policy: Privileges,
    pub exceptions: Privileges,
    pub parameters: Privileges,
}

impl Kept {
    fn in_section(&self, section: Section) -> Privileges
        ensures { result ≡ kept_in self.now section }
    {
        match section {
            Section::Devices => self.devices,
            Section::Policy => self.policy,
            Section::Exceptions => self.exceptions,
            Section::Parameters => self.parameters,
        }
    }

    /// Whether the privilege is among them, and one of the section.
    pub fn has(&self, section: Section, privilege: Privilege) -> bool
        ensures { result ≡ holds_privilege (pairs_kept self.now) section privilege }
    {
        self.in_section(section).has(privilege) && is_privilege(section, privilege)
    }
}

/// Privileges in sections, seen as their pairs in the order of usbguard-daemon.conf(5), each once.
#[derive(Drop)]
pub struct Grants {
    kept: Kept,
}

impl Model for Grants {
    ghost use Rattle.std.specs.Prelude.{List};
    ghost use Rattle.ug_acl.specs.Pairs.{Pair};
    ghost use Rattle.ug_acl.specs.Kept.{pairs_kept};

    ghost Value = { List Pair };

    ghost view = { λ g. pairs_kept g.kept };
}

// Whether some line gives the privilege.
fn gives(given: &[Given], section: Section, privilege: Privilege) -> bool
    ensures { result ≡ grants_privilege given.now section privilege }
{
    for g in given {
        if g.section == section && g.privileges.has(privilege) {
            return true;
        }
    }
    false
}

fn given_in(given: &[Given], section: Section) -> Privileges
    ensures modify { result.modify ≡ grants_privilege given.now section Privilege.Modify }
    ensures list { result.list ≡ grants_privilege given.now section Privilege.List }
    ensures listen { result.listen ≡ grants_privilege given.now section Privilege.Listen }
{
    Privileges {
        modify: gives(given, section, Privilege::Modify),
        list: gives(given, section, Privilege::List),
        listen: gives(given, section, Privilege::Listen),
    }
}

impl Grants {
    /// Every privilege of every section.
    pub fn all() -> Grants
        ensures { result ≡ all_pairs }
    {
        let all = Privileges {
            modify: true,
            list: true,
            listen: true,
        };
        Grants {
            kept: Kept {
                devices: all,
                policy: all,
                exceptions: all,
                parameters: all,
            },
        }
    }

    /// All that some line gives.
    pub fn of_lines(given: &[Given]) -> Grants
        ensures { result ≡ pairs_given given.now }
    {
        Grants {
            kept: Kept {
                devices: given_in(given, Section::Devices),
                policy: given_in(given, Section::Policy),
                exceptions: given_in(given, Section::Exceptions),
                parameters: given_in(given, Section::Parameters),
            },
        }
    }

    /// The grants as they are stored.
    pub fn kept(&self) -> Kept
        ensures { pairs_kept result ≡ self.now }
    {
        self.kept
    }

    /// Whether the privilege is among them.
    pub fn has(&self, section: Section, privilege: Privilege) -> bool
        ensures { result ≡ holds_privilege self.now section privilege }
    {
        self.kept.has(section, privilege)
    }
}
