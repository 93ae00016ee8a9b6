// What the kernel keeps of an interface.
use ug_types::Triple;

/// An interface that was made. Its place in the list of interfaces is its identity, and is never used again.
#[derive(Clone, Copy)]
pub struct Interface {
    /// The identity of its device.
    pub device: usize,
    /// bConfigurationValue and bInterfaceNumber: USB 2.0, 9.6.3 and 9.6.5.
    pub config: u8,
    pub number: u8,
    pub triple: Triple,
    pub gone: bool,
    /// The value of the interface's `authorized`.
    pub on: bool,
}
