// What is known of a device.
use crate::list::List;
use crate::name::NodeName;
use crate::text::Text;

/// Class, subclass and protocol of a device or an interface: USB 2.0, 9.6.1 and 9.6.5.
#[derive(Clone, Copy)]
pub struct Triple {
    pub class: u8,
    pub subclass: u8,
    pub protocol: u8,
}

/// The bytes of a device's files in sysfs. A file that is absent or too long counts as empty.
#[derive(Drop)]
pub struct Attrs {
    pub descriptors: Text,
    pub product: Text,
    pub serial: Text,
    pub connect: Text,
    /// One of the files was over its limit.
    pub too_long: bool,
}

/// What rules are matched against.
#[derive(Drop)]
pub struct DeviceRecord {
    /// idVendor and idProduct: USB 2.0, 9.6.1.
    pub vendor: u16,
    pub product: u16,
    pub serial: Text,
    pub name: Text,
    /// The device's hash as 44 characters of base64.
    pub hash: [u8; 44],
    /// The parent's hash, or empty.
    pub parent_hash: Text,
    pub via_port: NodeName,
    /// One for each interface descriptor, in file order.
    pub interfaces: List<Triple>,
    pub connect: Text,
}

/// A record, or the first fault of the descriptors.
#[derive(Drop)]
pub enum Judged {
    Good(DeviceRecord),
    Malformed { kind: u8, place: u64 },
}

impl Attrs {
    /// Drops them. A crate that calls this need not prove how their parts are dropped.
    pub fn discard(self) {}
}

impl Judged {
    /// Drops it, as `Attrs::discard`.
    pub fn discard(self) {}
}
