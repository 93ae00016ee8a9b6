// Binds a name whose parent is held.
ghost use Rattle.std.specs.Prelude.{◌≡◌, ℕ, List, Some, IsSome};
ghost use Rattle.ug_types.specs.Names.{parent_of};
ghost use Rattle.ug_kernel.specs.Tree.{Runs};
ghost use Rattle.ug_kernel.specs.Bind.{binding_under, asking_parent};
ghost use Rattle.ug_kernel.specs.Bound.{TellsFault};
ghost use Rattle.ug_kernel.specs.CallOrder.{BindsUnderInOrder};
ghost use Rattle.ug_kernel.specs.Under.{BindsUnder};

use crate::calls::{Opened, Probe};
use crate::control::{Control, Held};
use crate::failed::failed_call;
use crate::files::{OwnFiles, read_own, read_parent};
use crate::held::reprobe;
use crate::identity::{Binding, end_binding};
use crate::sysfs::Sysfs;
use std::alloc::Global;
use ug_types::NodeName;

/// Finds the device of a name whose parent's `authorized` file is held, as `bind` does. Where that file is found alive, the
/// parent's files aren't read: the answer has none of its attributes, and the device is a child of the one that is held. A
/// probe of it that fails isn't told.
pub fn bind_under<Y: Sysfs>(alloc: Global, sysfs: &mut Y, name: &NodeName, parent: Held) -> Binding
    requires { IsSome (parent_of name.now) }
    ensures runs { (above : List ℕ) → parent_of name.now ≡ Some above
        → Runs Y.gives sysfs.old (binding_under name.now above parent.0) result sysfs.new }
    ensures law { BindsUnder Y.told sysfs.old name.now parent.0 result sysfs.new }
    ensures order { BindsUnderInOrder Y.gives sysfs.old name.now parent.0 result sysfs.new }
    ensures fault { TellsFault (Y.faults sysfs.old) (Y.calls sysfs.new)
        (Y.faults sysfs.new) result }
{
    match name.parent() {
        Some(above) => bind_beside(alloc, sysfs, name, &above, parent),
        None => Binding::Absent,
    }
}

#[tactic(auto, unfolding(crate::specs::Bind::binding_under), using(crate::proofs::Runs::runs_then))]
fn bind_beside<Y: Sysfs>(
    alloc: Global,
    sysfs: &mut Y,
    name: &NodeName,
    above: &NodeName,
    parent: Held,
) -> Binding
    ensures { Runs Y.gives sysfs.old (binding_under name.now above.now parent.0) result sysfs.new }
{
    let held = match sysfs.open_control(alloc, name, Control::Authorized) {
        Opened::Token(held) => held,
        Opened::Absent => return Binding::Absent,
        Opened::Failed => return Binding::Failed(failed_call(sysfs)),
        Opened::Memory => return Binding::Memory,
    };
    match read_own(alloc, sysfs, name, held) {
        Ok(own) => ask_parent(alloc, sysfs, above, parent, held, own),
        Err(stop) => stop.into(),
    }
}

// Reads the parent's files unless its held file is found alive, and probes the new one.
#[tactic(auto, using(crate::proofs::Runs::runs_then))]
fn ask_parent<Y: Sysfs>(
    alloc: Global,
    sysfs: &mut Y,
    above: &NodeName,
    parent: Held,
    held: Held,
    own: OwnFiles,
) -> Binding
    ensures { Runs Y.gives sysfs.old
        (asking_parent held.0 own above.now parent.0) result sysfs.new }
{
    match reprobe(sysfs, parent) {
        Probe::Alive(_) => end_binding(sysfs, held, own, None),
        _ => match read_parent(alloc, sysfs, above, held) {
            Ok(theirs) => end_binding(sysfs, held, own, Some(theirs)),
            Err(stop) => stop.into(),
        },
    }
}
