// The files of a device in sysfs, and what is written to them.

/// A file that is written: sysfs-bus-usb, `authorized`, `remove`, and of a root hub `authorized_default`.
#[derive(Clone, Copy)]
pub enum Control {
    Authorized,
    Remove,
    Default,
}

/// A file that is read: sysfs-bus-usb, `descriptors`, `product`, `serial` and `port/connect_type`.
#[derive(Clone, Copy)]
pub enum Attr {
    Descriptors,
    Product,
    Serial,
    Connect,
}

/// What is written: 1 or 0 to `authorized`, 1 to `remove`, 0 or 1 to `authorized_default`.
#[derive(Clone, Copy)]
pub enum Write {
    On,
    Off,
    Remove,
    DefaultOff,
    DefaultOn,
}

/// A sysfs file that is held open.
#[derive(Clone, Copy)]
pub struct Held(pub u64);
