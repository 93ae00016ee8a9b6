// What devices answer.
ghost use Rattle.std.specs.Prelude.{◌≡◌, ◌⊎◌, IfOk};
ghost use Rattle.ug_kernel.specs.Called.{read_of, within_limit, text_within};
ghost use Rattle.ug_sysfs.specs.Living.{name_at, names_at_places};
ghost use Rattle.ug_sysfs.specs.World.{live_held, probed_at, read_at, with_file};
ghost use Rattle.ug_kernel.specs.Kernel.{has_file};

use std::alloc::Global;
use ug_kernel::{Attr, Control, Device, HeldFile, Probe, ReadOut};
use ug_types::{List, NoMemory, NodeName, Text};

// The name of the device at a place, where it is live.
fn name_at(devices: &[Device], place: usize) -> Option<NodeName>
    ensures { result ≡ name_at devices.now place }
{
    match devices.get(place) {
        Some(device) => if device.gone { None } else { Some(device.name) },
        None => None,
    }
}

/// The names of the live devices at these places.
pub fn names_at(
    alloc: Global,
    devices: &[Device],
    places: &[usize],
) -> Result<List<NodeName>, NoMemory>
    ensures { IfOk result (λ names. names ≡ names_at_places places.now devices.now) }
{
    let mut names = List::new(alloc);
    for place in places {
        if let Some(name) = name_at(devices, *place) {
            names.push(name)?;
        }
    }
    Ok(names)
}

// Its bytes, unless there are too many.
fn read_within(alloc: Global, bytes: &[u8], limit: usize) -> ReadOut
    ensures { (result ≡ within_limit limit bytes.now) ⊎ (result ≡ ReadOut.Memory) }
{
    if bytes.len() > limit {
        return ReadOut::TooLong;
    }
    match Text::of(alloc, bytes) {
        Ok(text) => ReadOut::Bytes(text),
        Err(_) => ReadOut::Memory,
    }
}

fn read_text(alloc: Global, text: &Option<Text>) -> ReadOut
    ensures { (result ≡ text_within text.now) ⊎ (result ≡ ReadOut.Memory) }
{
    match text {
        Some(text) => read_within(alloc, text.bytes(), 4096),
        None => ReadOut::Absent,
    }
}

// What a file of a device has.
fn read_file(alloc: Global, device: &Device, attr: Attr) -> ReadOut
    ensures { (result ≡ read_of attr device.now) ⊎ (result ≡ ReadOut.Memory) }
{
    match attr {
        Attr::Descriptors => read_within(alloc, device.descriptors.bytes(), 131_072),
        Attr::Product => read_text(alloc, &device.product),
        Attr::Serial => read_text(alloc, &device.serial),
        Attr::Connect => read_text(alloc, &device.connect),
    }
}

/// What a file of the device at a place has.
pub fn read_at(alloc: Global, devices: &[Device], place: Option<usize>, attr: Attr) -> ReadOut
    ensures { (result ≡ read_at attr place devices.now) ⊎ (result ≡ ReadOut.Memory) }
{
    match place {
        Some(i) => match devices.get(i) {
            Some(device) => read_file(alloc, device, attr),
            None => ReadOut::Absent,
        },
        None => ReadOut::Absent,
    }
}

/// What the device at a place answers to a probe.
pub fn probed_at(devices: &[Device], place: Option<usize>) -> Probe
    ensures { result ≡ probed_at place devices.now }
{
    match place {
        Some(i) => match devices.get(i) {
            Some(device) => Probe::Alive(device.on),
            None => Probe::Gone,
        },
        None => Probe::Gone,
    }
}

fn has_file(device: &Device, control: Control) -> bool
    ensures { result ≡ has_file control device.now }
{
    match control {
        Control::Authorized => true,
        Control::Remove => true,
        Control::Default => device.parent.is_none(),
    }
}

/// The device at a place, where it has that file.
pub fn with_file(devices: &[Device], place: Option<usize>, control: Control) -> Option<usize>
    ensures { result ≡ with_file control place devices.now }
{
    match place {
        Some(i) => match devices.get(i) {
            Some(device) => if has_file(device, control) {
                Some(i)
            } else {
                None
            },
            None => None,
        },
        None => None,
    }
}

/// The device of a held file, unless it is gone.
pub fn live_held(devices: &[Device], held: &[HeldFile], number: usize) -> Option<usize>
    ensures { result ≡ live_held number held.now devices.now }
{
    match held.get(number) {
        Some(file) => match devices.get(file.device) {
            Some(device) => if device.gone { None } else { Some(file.device) },
            None => None,
        },
        None => None,
    }
}
