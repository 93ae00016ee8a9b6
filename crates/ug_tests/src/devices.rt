// Devices that are plugged.
use std::alloc::Global;
use ug_sysfs::{NewDevice, SimKernel};
use ug_types::{NodeName, Text};

/// A root hub's device descriptor alone: vendor 1d6b, product 2.
pub const HUB: &[u8] = b"\x12\x01\x00\x02\x09\x00\x00\x40\x6b\x1d\x02\x00\x00\x01\x00\x00\x00\x01";

/// Another's: vendor 1050, product 11.
pub const KEY: &[u8] = b"\x12\x01\x00\x02\x00\x00\x00\x40\x50\x10\x11\x00\x00\x01\x00\x00\x00\x01";

pub fn device(alloc: Global, name: &[u8], descriptors: &[u8], on: bool) -> Option<NewDevice> {
    Some(NewDevice {
        name: NodeName::parse(name).ok()?,
        descriptors: Text::of(alloc, descriptors).ok()?,
        product: None,
        serial: None,
        connect: None,
        on,
    })
}

pub fn plug(
    alloc: Global,
    kernel: &mut SimKernel,
    name: &[u8],
    descriptors: &[u8],
    on: bool,
) -> Option<()> {
    let device = device(alloc, name, descriptors, on)?;
    kernel.plug(device).ok()
}

/// An authorised root hub, and a device at its first port.
pub fn hub_and_key(alloc: Global, on: bool) -> Option<SimKernel> {
    let mut kernel = SimKernel::new(alloc);
    plug(alloc, &mut kernel, b"usb1", HUB, true)?;
    plug(alloc, &mut kernel, b"1-1", KEY, on)?;
    Some(kernel)
}
