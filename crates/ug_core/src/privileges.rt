// What a user or a group may ask for.
ghost use Rattle.std.specs.Prelude.{◌≡◌};
ghost use Rattle.ug_core.specs.Privileges.{is_granted, first_denied, denied_of};
ghost use Rattle.ug_proto.specs.Privileges.{needs};

use ug_acl::Acl;
use ug_proto::Request;
use ug_types::{Principal, Privilege, Refusal, Section};

/// The refusal of a request that the user or group may not make: it names the first of the privileges of which one is needed,
/// where none of them is held. It takes no memory.
pub fn denied(acl: &Acl, who: &Principal, request: &Request) -> Option<Refusal>
    ensures { result ≡ denied_of acl.now who.now (needs request.now) }
{
    let needed = request.needs();
    if has_one(acl, who, needed) {
        return None;
    }
    refuse_first(needed)
}

// Whether one of these privileges is held.
fn has_one(acl: &Acl, who: &Principal, needed: &[(Section, Privilege)]) -> bool
    ensures { result ≡ is_granted acl.now who.now needed.now }
{
    for (section, privilege) in needed {
        if acl.allows(who, *section, *privilege) {
            return true;
        }
    }
    false
}

fn refuse_first(needed: &[(Section, Privilege)]) -> Option<Refusal>
    ensures { result ≡ first_denied needed.now }
{
    match needed {
        [] => None,
        [(section, privilege), ..] => Some(Refusal::Denied {
            section: *section,
            privilege: *privilege,
        }),
    }
}
