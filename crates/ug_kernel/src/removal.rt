// Opens a second file of a held device: the one by which it is removed, or that of a root hub's default.
ghost use Rattle.std.specs.Prelude.{◌≡◌};
ghost use Rattle.ug_kernel.specs.declared.control.Control.TheVariants.{Remove, Default};
ghost use Rattle.ug_kernel.specs.Kernel.{IsOpenable};
ghost use Rattle.ug_kernel.specs.Tree.{Runs};
ghost use Rattle.ug_kernel.specs.Removal.{holding, HoldsFile, TellsHoldFault};

use crate::calls::{FailedCall, Opened, Probe};
use crate::control::{Control, Held};
use crate::failed::failed_call;
use crate::sysfs::Sysfs;
use std::alloc::Global;
use ug_types::NodeName;

/// The answer to the opening of a second file of a device. The file is closed on each answer but `Ready`.
#[derive(Clone, Copy)]
pub enum RemoveHold {
    /// The file of that very device.
    Ready(Held),
    /// The device is gone.
    Gone,
    Failed(FailedCall),
    Memory,
}

/// Opens the `remove` file of the device behind a held file: opens it by the device's name, and then probes the held
/// file. So what was opened is known to be of the device that is held, and of no other that has its name by now.
pub fn hold_remove<Y: Sysfs>(
    alloc: Global,
    sysfs: &mut Y,
    name: &NodeName,
    held: Held,
) -> RemoveHold
    ensures runs { Runs Y.gives sysfs.old (holding Remove name.now held.0) result sysfs.new }
    ensures law { HoldsFile Y.told Remove sysfs.old name.now held.0 result sysfs.new }
    ensures fault { TellsHoldFault (Y.faults sysfs.old) (Y.calls sysfs.new) (Y.faults sysfs.new)
        result }
{
    hold_file(alloc, sysfs, name, Control::Remove, held)
}

/// Opens the `authorized_default` file of the root hub behind a held file, in the same way.
pub fn hold_default<Y: Sysfs>(
    alloc: Global,
    sysfs: &mut Y,
    name: &NodeName,
    held: Held,
) -> RemoveHold
    requires { IsOpenable Default name.now }
    ensures runs { Runs Y.gives sysfs.old (holding Default name.now held.0) result sysfs.new }
    ensures law { HoldsFile Y.told Default sysfs.old name.now held.0 result sysfs.new }
    ensures fault { TellsHoldFault (Y.faults sysfs.old) (Y.calls sysfs.new) (Y.faults sysfs.new)
        result }
{
    hold_file(alloc, sysfs, name, Control::Default, held)
}

// The same for each of the device's files.
fn hold_file<Y: Sysfs>(
    alloc: Global,
    sysfs: &mut Y,
    name: &NodeName,
    control: Control,
    held: Held,
) -> RemoveHold
    requires { IsOpenable control name.now }
    ensures runs { Runs Y.gives sysfs.old (holding control name.now held.0) result sysfs.new }
    ensures law { HoldsFile Y.told control sysfs.old name.now held.0 result sysfs.new }
    ensures fault { TellsHoldFault (Y.faults sysfs.old) (Y.calls sysfs.new) (Y.faults sysfs.new)
        result }
{
    open_file(alloc, sysfs, name, control, held)
}

#[tactic(auto, unfolding(crate::specs::Removal::holding))]
fn open_file<Y: Sysfs>(
    alloc: Global,
    sysfs: &mut Y,
    name: &NodeName,
    control: Control,
    held: Held,
) -> RemoveHold
    requires { IsOpenable control name.now }
    ensures { Runs Y.gives sysfs.old (holding control name.now held.0) result sysfs.new }
{
    let file = match sysfs.open_control(alloc, name, control) {
        Opened::Token(file) => file,
        Opened::Absent => return RemoveHold::Gone,
        Opened::Failed => return RemoveHold::Failed(failed_call(sysfs)),
        Opened::Memory => return RemoveHold::Memory,
    };
    match sysfs.probe(held) {
        Probe::Alive(_) => RemoveHold::Ready(file),
        Probe::Gone => {
            sysfs.close(file);
            RemoveHold::Gone
        }
        Probe::Failed => {
            let failed = failed_call(sysfs);
            sysfs.close(file);
            RemoveHold::Failed(failed)
        }
    }
}
