// Interfaces beside the devices.
ghost use Rattle.std.specs.Prelude.{◌≡◌, ◌+◌, ◌≤◌};
ghost use Rattle.std.specs.List.{slice_get};
ghost use Rattle.ug_sysfs.specs.Interfaces.{adds_in, if_iface_live, if_on_live, iface_moved, live_iface, place_named};

use crate::census::Census;
use crate::interfaces::Interfaces;
use crate::script::IfaceMove;
use ug_iface::{IfaceName, Interface};
use ug_kernel::Device;

/// The place of the live interface of a name.
pub fn find_iface(census: &Census, interfaces: &Interfaces, name: &IfaceName) -> Option<usize>
    ensures { result ≡ place_named name.now census.now.devices interfaces.now.interfaces }
{
    match census.find(&name.device) {
        Some(device) => interfaces.find(device, name.config, name.number),
        None => None,
    }
}

/// An interface comes or goes, if it can. There is room for it.
pub fn move_iface(census: &Census, interfaces: &mut Interfaces, change: IfaceMove)
    requires room { adds_in change ≤ interfaces.old.room }
    ensures interfaces { interfaces.new.interfaces
        ≡ iface_moved change census.now.devices interfaces.old.interfaces }
    ensures room { interfaces.old.room ≤ interfaces.new.room + adds_in change }
{
    match change {
        IfaceMove::Add(new) => {
            if let Some(device) = census.find(&new.name.device) {
                interfaces.add(device, new);
            }
        }
        IfaceMove::Remove(name) => {
            if let Some(place) = find_iface(census, interfaces, &name) {
                interfaces.remove(place);
            }
        }
    }
}

// The interface at a place, where it isn't gone, and its device isn't.
fn if_iface_live(devices: &[Device], interfaces: &[Interface], place: usize) -> Option<usize>
    ensures { result
        ≡ if_iface_live place (slice_get interfaces.now place) devices.now }
{
    match interfaces.get(place) {
        Some(interface) => if interface.gone {
            None
        } else {
            if_on_live(devices, interface.device, place)
        },
        None => None,
    }
}

fn if_on_live(devices: &[Device], device: usize, place: usize) -> Option<usize>
    ensures { result ≡ if_on_live place (slice_get devices.now device) }
{
    match devices.get(device) {
        Some(device) => if device.gone { None } else { Some(place) },
        None => None,
    }
}

/// The interface of a held file, where it is live.
pub fn live_iface(
    devices: &[Device],
    interfaces: &[Interface],
    files: &[usize],
    held: usize,
) -> Option<usize>
    ensures { result ≡ live_iface held files.now interfaces.now devices.now }
{
    match files.get(held) {
        Some(place) => if_iface_live(devices, interfaces, *place),
        None => None,
    }
}
