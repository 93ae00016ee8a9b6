// Who may do what by the setup lines.
ghost use Rattle.std.specs.Prelude.{◌≡◌, ◌++◌, map, IfOk, OnOk};
ghost use Rattle.ug_script.specs.Setup as setups;
ghost use Rattle.ug_script.specs.Setup.{everything, granted};

use crate::setup::Setup;
use std::alloc::Global;
use ug_acl::Acl;
use ug_steps::AccessLine;
use ug_types::{NoMemory, Principal};

/// The users and groups may do everything.
fn allow_everything(acl: &mut Acl, users: &[Principal]) -> Result<(), NoMemory>
    ensures { OnOk result (acl.new ≡ acl.old ++ map everything users.now) }
{
    for who in users {
        acl.add_all(*who)?;
    }
    Ok(())
}

fn allow_granted(acl: &mut Acl, lines: &[AccessLine]) -> Result<(), NoMemory>
    ensures { OnOk result (acl.new ≡ acl.old ++ map granted lines.now) }
{
    for line in lines {
        acl.add(line.who, &line.grants)?;
    }
    Ok(())
}

/// What the settings and the lines of access allow.
pub fn access_of(alloc: Global, setup: &Setup) -> Result<Acl, NoMemory>
    ensures { IfOk result (λ acl. acl ≡ setups.access_of setup.now) }
{
    let mut acl = Acl::new(alloc);
    allow_everything(&mut acl, setup.settings.so_far().users.as_slice())?;
    allow_granted(&mut acl, setup.access.as_slice())?;
    Ok(acl)
}
