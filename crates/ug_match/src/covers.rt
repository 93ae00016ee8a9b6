// Values of a rule against values of a device.
ghost use Rattle.std.specs.Prelude.{◌≡◌, Bool};
ghost use Rattle.ug_match.specs.Covers.{covers_number, covers_id, covers_interface, covers_text};

use ug_types::{Id, Iface, Text, Triple};

/// A device's idVendor and idProduct: USB 2.0, 9.6.1.
#[derive(Clone, Copy)]
pub struct DeviceId {
    pub vendor: u16,
    pub product: u16,
}

/// A value of a rule that matches values of a device.
pub trait Covers<D> {
    ghost covers: { Self → D → Bool };

    fn covers(&self, device: &D) -> bool
        ensures { result ≡ covers self.now device.now };
}

fn covers_word(rule: Option<u16>, device: u16) -> bool
    ensures { result ≡ covers_number rule device }
{
    match rule {
        Some(number) => number == device,
        None => true,
    }
}

fn covers_byte(rule: Option<u8>, device: u8) -> bool
    ensures { result ≡ covers_number rule device }
{
    match rule {
        Some(number) => number == device,
        None => true,
    }
}

impl Covers<DeviceId> for Id {
    ghost covers = { covers_id };

    fn covers(&self, device: &DeviceId) -> bool {
        covers_word(self.vendor, device.vendor) && covers_word(self.product, device.product)
    }
}

impl Covers<Triple> for Iface {
    ghost covers = { covers_interface };

    fn covers(&self, device: &Triple) -> bool {
        self.class == device.class
            && covers_byte(self.subclass, device.subclass)
            && covers_byte(self.protocol, device.protocol)
    }
}

impl<'a> Covers<&'a [u8]> for Text {
    ghost covers = { λ rule device. covers_text rule device.now };

    fn covers(&self, device: &&'a [u8]) -> bool {
        self.bytes() == *device
    }
}
