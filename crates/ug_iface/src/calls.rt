// The calls of an interface's files, and what they answer.
use crate::name::IfaceName;
use ug_types::{List, Triple};

/// An `authorized` file of an interface that is held open.
#[derive(Clone, Copy)]
pub struct IfaceHeld(pub u64);

/// The answer to a listing of a device's interfaces.
#[derive(Drop)]
pub enum IfaceListing {
    Names(List<IfaceName>),
    /// There is no such device.
    Absent,
    Failed,
    Memory,
}

/// The answer to an opening.
#[derive(Clone, Copy)]
pub enum IfaceOpened {
    Token(IfaceHeld),
    Absent,
    Failed,
    Memory,
}

/// The answer to a reading of class, subclass and protocol.
#[derive(Clone, Copy)]
pub enum IfaceRead {
    Is(Triple),
    Absent,
    Failed,
}
