// Binds a name.
ghost use Rattle.std.specs.Prelude.{◌≡◌};
ghost use Rattle.ug_types.specs.Names.{parent_of};
ghost use Rattle.ug_kernel.specs.Tree.{Runs};
ghost use Rattle.ug_kernel.specs.Bind.{binding, asking_alive};
ghost use Rattle.ug_kernel.specs.Bound.{TellsBinding, TellsFault};
ghost use Rattle.ug_kernel.specs.CallOrder.{BindsInOrder};

use crate::calls::{FailedCall, Opened, Probe};
use crate::control::{Control, Held};
use crate::failed::failed_call;
use crate::files::{OwnFiles, Stop, read_own, read_parent};
use crate::sysfs::Sysfs;
use std::alloc::Global;
use ug_types::{Attrs, NodeName};

/// A device that lived from the opening of its file to the probe of it, with its own files and its parent's.
#[derive(Drop)]
pub struct Bound {
    pub held: Held,
    pub attrs: Attrs,
    /// A file was too long that its children's parent hash is made of: its descriptors, its product or its serial number.
    pub core_long: bool,
    pub parent: Option<Attrs>,
    pub on: bool,
}

/// The answer to a binding. The held file is closed on each answer but `Bound`.
#[derive(Drop)]
pub enum Binding {
    Bound(Bound),
    /// No device of the name lived through the call.
    Absent,
    /// The device went away meanwhile: no device of the name lived through the call.
    Vanished,
    Failed(FailedCall),
    Memory,
}

impl From<Stop> for Binding {
    ghost use Rattle.std.specs.Prelude.{◌≡◌};
    ghost use Rattle.ug_kernel.specs.Bind.{binding_of};

    ghost from_gives = { λ stop binding. binding ≡ binding_of stop };

    fn from(stop: Stop) -> Binding {
        match stop {
            Stop::Vanished => Binding::Vanished,
            Stop::Fault(failed) => Binding::Failed(failed),
            Stop::Memory => Binding::Memory,
        }
    }
}

/// Finds the device of a name: opens its `authorized`, reads its four files and its parent's three, and probes
/// the held file last. What is read by name is so known to be of the device that is held.
pub fn bind<Y: Sysfs>(alloc: Global, sysfs: &mut Y, name: &NodeName) -> Binding
    ensures runs { Runs Y.gives sysfs.old (binding name.now (parent_of name.now)) result sysfs.new }
    ensures law { TellsBinding Y.told sysfs.old name.now result sysfs.new }
    ensures order { BindsInOrder Y.gives sysfs.old name.now result sysfs.new }
    ensures fault { TellsFault (Y.faults sysfs.old) (Y.calls sysfs.new)
        (Y.faults sysfs.new) result }
{
    bind_below(alloc, sysfs, name, name.parent())
}

#[tactic(auto, unfolding(crate::specs::Bind::binding), using(crate::proofs::Runs::runs_then))]
fn bind_below<Y: Sysfs>(
    alloc: Global,
    sysfs: &mut Y,
    name: &NodeName,
    parent: Option<NodeName>,
) -> Binding
    ensures { Runs Y.gives sysfs.old (binding name.now parent) result sysfs.new }
{
    let held = match sysfs.open_control(alloc, name, Control::Authorized) {
        Opened::Token(held) => held,
        Opened::Absent => return Binding::Absent,
        Opened::Failed => return Binding::Failed(failed_call(sysfs)),
        Opened::Memory => return Binding::Memory,
    };
    let own = match read_own(alloc, sysfs, name, held) {
        Ok(own) => own,
        Err(stop) => return stop.into(),
    };
    let parent_attrs = match parent {
        None => None,
        Some(parent) => match read_parent(alloc, sysfs, &parent, held) {
            Ok(attrs) => Some(attrs),
            Err(stop) => return stop.into(),
        },
    };
    end_binding(sysfs, held, own, parent_attrs)
}

// Probes the held file, behind all that is read.
pub(crate) fn end_binding<Y: Sysfs>(
    sysfs: &mut Y,
    held: Held,
    own: OwnFiles,
    parent: Option<Attrs>,
) -> Binding
    ensures { Runs Y.gives sysfs.old (asking_alive held.0 own parent) result sysfs.new }
{
    match sysfs.probe(held) {
        Probe::Alive(on) => Binding::Bound(Bound {
            held,
            attrs: own.attrs,
            core_long: own.core_long,
            parent,
            on,
        }),
        Probe::Gone => {
            sysfs.close(held);
            Binding::Vanished
        }
        Probe::Failed => {
            let failed = failed_call(sysfs);
            sysfs.close(held);
            Binding::Failed(failed)
        }
    }
}
