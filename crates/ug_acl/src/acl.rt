// Who may do what.
ghost use Rattle.std.specs.Prelude.{◌≡◌, ◌&&◌, ◌++◌, ◌∷◌, [], OnOk, OnErr, IfOk};
ghost use Rattle.ug_acl.specs.Acls.{addition, is_allowed};
ghost use Rattle.ug_acl.specs.Kept.{pairs_kept};
ghost use Rattle.ug_acl.specs.Pairs.{all_pairs, holds_privilege};
ghost use Rattle.ug_types.specs.Principals.{same_principal};
ghost use Rattle.std.specs.List.{list_any};
ghost use Rattle.ug_acl.specs.Printed.{grants_text};
ghost use Rattle.ug_acl.specs.Texts.{access_read};

use crate::grants::{Grants, Kept};
use crate::print::print_all;
use std::alloc::Global;
use std::marker::Model;
use ug_types::{NoMemory, Principal, Privilege, Section, Text};

/// What was added for one user or group.
#[derive(Clone, Copy)]
pub struct Added {
    pub who: Principal,
    pub kept: Kept,
}

/// Grants to users and groups, seen as the list of what was added. Those of one user or group are united.
#[derive(Drop)]
pub struct Acl {
    all: Vec<Added>,
}

impl Model for Acl {
    ghost use Rattle.std.specs.Prelude.{List, map};
    ghost use Rattle.ug_acl.specs.Acls.{Addition, addition_of};

    ghost Value = { List Addition };

    ghost view = { λ acl. map addition_of acl.all.items };
}

fn is_added(all: &[Added], who: &Principal, section: Section, privilege: Privilege) -> bool
    ensures { result ≡ list_any
        (λ a. same_principal a.who who.now
        && holds_privilege (pairs_kept a.kept) section privilege) all.now }
{
    for a in all {
        if a.who == *who && a.kept.has(section, privilege) {
            return true;
        }
    }
    false
}

impl Acl {
    /// Nobody may do anything. It takes no memory.
    pub fn new(alloc: Global) -> Acl
        ensures { result ≡ [] }
    {
        Acl {
            all: Vec::new(alloc),
        }
    }

    /// Adds to what the user or the group may do. A refusal changes nothing.
    pub fn add(&mut self, who: Principal, grants: &Grants) -> Result<(), NoMemory>
        ensures ok { OnOk result (self.new ≡ self.old ++ addition who grants.now ∷ []) }
        ensures err { OnErr result (self.new ≡ self.old) }
    {
        match self.all.push(Added {
            who,
            kept: grants.kept(),
        }) {
            Ok(()) => Ok(()),
            Err(_) => Err(NoMemory),
        }
    }

    /// The user or the group may do everything: IPCAllowedUsers and IPCAllowedGroups of usbguard-daemon.conf(5). A refusal
    /// changes nothing.
    pub fn add_all(&mut self, who: Principal) -> Result<(), NoMemory>
        ensures ok { OnOk result (self.new ≡ self.old ++ addition who all_pairs ∷ []) }
        ensures err { OnErr result (self.new ≡ self.old) }
    {
        self.add(who, &Grants::all())
    }

    /// Whether the privilege was added for the user or the group. It takes no memory.
    #[tactic(auto, using(crate::proofs::Members::any_map))]
    pub fn allows(&self, who: &Principal, section: Section, privilege: Privilege) -> bool
        ensures { result ≡ is_allowed self.now who.now section privilege }
    {
        is_added(self.all.as_slice(), who, section, privilege)
    }

    /// The text of an access file with these grants: a line for each section that has some, with a newline.
    pub fn print(alloc: Global, grants: &Grants) -> Result<Text, NoMemory>
        ensures is { IfOk result (λ text. text ≡ grants_text grants.now) }
        ensures reads_back { IfOk result (λ text. access_read text ≡ Ok grants.now) }
    {
        let kept = grants.kept();
        let text = print_all(alloc, &kept)?;
        Ok(Text::from_vec(text))
    }
}
