// What the descriptors of a device say.
use ug_types::{List, Triple};

/// A device descriptor with what follows it: USB 2.0, 9.6.1.
#[derive(Drop)]
pub struct Descr {
    /// idVendor and idProduct.
    pub vendor: u16,
    pub product: u16,
    pub class: Triple,
    /// bNumConfigurations, which may differ from the number of configuration descriptors.
    pub configurations: u8,
    pub configs: List<Config>,
}

/// A configuration descriptor with the interface descriptors behind it: USB 2.0, 9.6.3.
#[derive(Drop)]
pub struct Config {
    /// bConfigurationValue.
    pub value: u8,
    /// bNumInterfaces, which may differ from the number of interfaces.
    pub count: u8,
    pub items: List<IfaceDescr>,
}

/// An interface descriptor, one for each alternate setting: USB 2.0, 9.6.5.
#[derive(Clone, Copy)]
pub struct IfaceDescr {
    /// bInterfaceNumber.
    pub number: u8,
    /// bAlternateSetting.
    pub alternate: u8,
    /// bNumEndpoints.
    pub endpoints: u8,
    pub triple: Triple,
}
