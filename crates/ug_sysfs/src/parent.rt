// A device is born below its parent.
ghost use Rattle.std.specs.Prelude.{◌≡◌, ◌+◌, ◌<◌, ◌≤◌, ℕ, Some, None, MatchOption};
ghost use Rattle.ug_types.specs.Names.{parent_of};
ghost use Rattle.ug_kernel.specs.declared.device.Device.{Device};
ghost use Rattle.ug_kernel.specs.Kernel.{live_count, Live};
ghost use Rattle.std.specs.List.{slice_get};
ghost use Rattle.ug_kernel.specs.Kernel.{is_off};
ghost use Rattle.ug_sysfs.specs.Devices.{born, find, plugged, sought, hub_under, controller_under, controller_default, starts_on};

use crate::census::Census;
use crate::script::NewDevice;
use ug_kernel::{Device, MAX_DEVICES};
use ug_types::NodeName;

#[derive(Clone, Copy)]
pub enum Parent {
    /// A root hub has none.
    Nobody,
    Live(usize),
    /// It isn't live.
    Missing,
}

/// The live device that bears the name of a name's parent.
pub fn find_parent(census: &Census, name: &NodeName) -> Parent
    ensures { result ≡ sought (parent_of name.now) census.now.devices }
{
    match name.parent() {
        Some(parent) => match census.find(&parent) {
            Some(i) => Parent::Live(i),
            None => Parent::Missing,
        },
        None => Parent::Nobody,
    }
}

// The root hub that leads to what is born under a parent.
fn hub_under(devices: &[Device], parent: usize) -> usize
    ensures { result ≡ hub_under parent (slice_get devices.now parent) }
{
    match devices.get(parent) {
        Some(device) => match device.controller {
            Some(controller) => controller,
            None => parent,
        },
        None => parent,
    }
}

fn controller_under(devices: &[Device], parent: Option<usize>) -> Option<usize>
    ensures { result ≡ controller_under parent devices.now }
{
    match parent {
        Some(parent) => Some(hub_under(devices, parent)),
        None => None,
    }
}

// The default of a controller.
fn controller_default(devices: &[Device], controller: Option<usize>) -> Option<bool>
    ensures { result ≡ controller_default controller devices.now }
{
    match controller {
        Some(controller) => match devices.get(controller) {
            Some(device) => device.default,
            None => None,
        },
        None => None,
    }
}

fn starts_on(default: Option<bool>, on: bool) -> bool
    ensures { result ≡ starts_on default on }
{
    match default {
        Some(value) => value,
        None => on,
    }
}

fn is_off(default: Option<bool>) -> bool
    ensures { result ≡ is_off default }
{
    match default {
        Some(value) => !value,
        None => false,
    }
}

/// A device is born below that parent. There is room for it, and its name isn't live.
fn bear_under(census: &mut Census, device: NewDevice, parent: Option<usize>)
    requires room { 0 < census.old.room }
    requires fresh { find device.name 0 census.old.devices ≡ None }
    requires parent { (p : ℕ) → parent ≡ Some p → (e : Device) × Live census.old.devices p e }
    ensures devices { census.new.devices ≡ born device parent census.old.devices }
    ensures room { census.new.room + 1 ≡ census.old.room }
{
    let controller = controller_under(census.devices(), parent);
    let default = controller_default(census.devices(), controller);
    census.push(Device {
        name: device.name,
        parent,
        controller,
        descriptors: device.descriptors,
        product: device.product,
        serial: device.serial,
        connect: device.connect,
        gone: false,
        on: starts_on(default, device.on),
        default: None,
        born_off: is_off(default),
    });
}

/// Whom a device is born under, if it can be born.
fn place_for(census: &Census, device: &NewDevice) -> Option<Option<usize>>
    ensures { MatchOption result (plugged device.now census.now.devices ≡ census.now.devices)
        (λ parent. (plugged device.now census.now.devices
        ≡ born device.now parent census.now.devices)
        × (find device.now.name 0 census.now.devices ≡ None)
        × (live_count census.now.devices < 65536)
        × ((p : ℕ) → parent ≡ Some p → (e : Device) × Live census.now.devices p e)) }
{
    if census.live_count() >= MAX_DEVICES {
        return None;
    }
    if census.find(&device.name).is_some() {
        return None;
    }
    match find_parent(census, &device.name) {
        Parent::Nobody => Some(None),
        Parent::Live(i) => Some(Some(i)),
        Parent::Missing => None,
    }
}

/// A device is born, if it can be. There is room for it.
pub fn plug(census: &mut Census, device: NewDevice)
    requires room { 0 < census.old.room }
    requires few { live_count census.old.devices ≤ 65536 }
    ensures devices { census.new.devices ≡ plugged device census.old.devices }
    ensures room { census.old.room ≤ census.new.room + 1 }
    ensures few { live_count census.new.devices ≤ 65536 }
{
    if let Some(parent) = place_for(census, &device) {
        bear_under(census, device, parent);
    }
}
