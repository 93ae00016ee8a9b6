// What is asked for.
ghost use Rattle.std.specs.Prelude.{◌≡◌};
ghost use Rattle.ug_acl.specs.Pairs.{holds_privilege};
ghost use Rattle.ug_acl.specs.Asking.{listed_in, pairs_asked};

use crate::lists::{Listed, is_privilege};
use ug_types::{Privilege, Section};

/// Privileges that are asked for, by their sections. What a section doesn't have isn't asked for.
#[derive(Clone, Copy)]
pub struct Asked {
    pub devices: Listed,
    pub policy: Listed,
    pub exceptions: Listed,
    pub parameters: Listed,
}

impl Asked {
    fn in_section(&self, section: Section) -> Listed
        ensures { result ≡ listed_in self.now section }
    {
        match section {
            Section::Devices => self.devices,
            Section::Policy => self.policy,
            Section::Exceptions => self.exceptions,
            Section::Parameters => self.parameters,
        }
    }

    /// Whether the privilege is asked for.
    pub fn has(&self, section: Section, privilege: Privilege) -> bool
        ensures { result ≡ holds_privilege (pairs_asked self.now) section privilege }
    {
        self.in_section(section).has(privilege) && is_privilege(section, privilege)
    }
}
