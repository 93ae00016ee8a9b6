// What is scheduled.
use ug_iface::IfaceName;
use ug_types::{NodeName, Text, Triple};

/// A device that is still to be born.
#[derive(Drop)]
pub struct NewDevice {
    pub name: NodeName,
    pub descriptors: Text,
    pub product: Option<Text>,
    pub serial: Option<Text>,
    pub connect: Option<Text>,
    /// The value of `authorized` that it starts with.
    pub on: bool,
}

/// An interface that is still to be added.
#[derive(Clone, Copy)]
pub struct NewIface {
    pub name: IfaceName,
    pub triple: Triple,
    /// The value of `authorized` that it starts with.
    pub on: bool,
}

/// What becomes of an interface by itself.
#[derive(Clone, Copy)]
pub enum IfaceMove {
    /// It is added to the live device of its name. Nothing happens if there is none, if it has configuration 0, if it
    /// is there, or if 1,024 interfaces of that device are.
    Add(NewIface),
    /// The live interface of that name goes. Nothing happens if there is none.
    Remove(IfaceName),
}

/// What the kernel does by itself.
#[derive(Drop)]
pub enum Move {
    /// The device is born below the live device that its name's parent names.
    Plug(NewDevice),
    /// The live device of that name goes, and what is below it.
    Unplug(NodeName),
    /// An interface comes or goes.
    Iface(IfaceMove),
}

impl Move {
    /// Drops it. A crate that calls this need not prove how its parts are dropped.
    pub fn discard(self) {}
}

/// A move that is still to come.
#[derive(Drop)]
pub struct Scheduled {
    pub call: u64,
    pub after: bool,
    pub action: Move,
}

/// A call that fails.
#[derive(Clone, Copy)]
pub struct Failing {
    pub call: u64,
    /// A write has its effect all the same.
    pub effect: bool,
}
