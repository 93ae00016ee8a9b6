// Names of interface nodes.
use ug_types::NodeName;

/// The name of an interface node: `1-1:1.0` is interface 0 of configuration 1 of the device `1-1` (sysfs-bus-usb).
#[derive(Clone, Copy, PartialEq, Eq, PartialOrd, Ord)]
pub struct IfaceName {
    pub device: NodeName,
    /// bConfigurationValue, from 1 to 255: USB 2.0, 9.6.3.
    pub config: u8,
    /// bInterfaceNumber, from 0 to 255: USB 2.0, 9.6.5.
    pub number: u8,
}
