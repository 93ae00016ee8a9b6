// What the kernel keeps.
use crate::control::{Control, Write};
use ug_types::{NodeName, Text};

/// How many devices are live at most.
pub const MAX_DEVICES: usize = 65_536;

/// A device that was born. Its place in the kernel's list is its identity, and is never used again.
#[derive(Drop)]
pub struct Device {
    pub name: NodeName,
    /// The parent's identity. A root hub has none.
    pub parent: Option<usize>,
    /// The identity of the root hub that its parents lead to. A root hub has none.
    pub controller: Option<usize>,
    pub descriptors: Text,
    pub product: Option<Text>,
    pub serial: Option<Text>,
    pub connect: Option<Text>,
    pub gone: bool,
    /// The value of `authorized`.
    pub on: bool,
    /// Of a root hub the value of `authorized_default`, once it was written.
    pub default: Option<bool>,
    /// Of any other device whether its controller's default was off when it was born.
    pub born_off: bool,
}

/// An open file of a device. Its place in the kernel's list is its number.
#[derive(Clone, Copy)]
pub struct HeldFile {
    pub device: usize,
    pub control: Control,
}

/// A write that had its effect.
#[derive(Clone, Copy)]
pub struct Effect {
    pub device: usize,
    pub write: Write,
}
