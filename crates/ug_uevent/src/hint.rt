// What a message hints at.
use ug_types::NodeName;

/// What happened to a device.
#[derive(Clone, Copy)]
pub enum Action {
    /// `add`.
    Add,
    /// `remove`.
    Remove,
    /// `change`.
    Change,
    /// Any other word, as `bind`.
    Other,
}

/// What a message says.
#[derive(Clone, Copy)]
pub struct Hint {
    pub action: Action,
    /// The last part of the device's path, where the subsystem is `usb` and that part is a name of
    /// a node.
    pub name: Option<NodeName>,
    /// The number of the event, where the message has one.
    pub seq: Option<u64>,
}
