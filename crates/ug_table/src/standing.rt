// How a device stands.
use ug_audit::Fault;
use ug_kernel::{FailedCall, Held};
use ug_types::{Cause, Judged, NodeName, Target, Text};

/// A device that was judged, with the file by which it is known.
#[derive(Drop)]
pub struct Standing {
    pub number: u64,
    pub name: NodeName,
    /// Its `authorized` file.
    pub held: Held,
    pub judged: Judged,
    /// What its children see as their parent's hash: that of its own files. It is empty where it is malformed, or one of the
    /// files that it is made of was too long.
    pub hash: Text,
    pub verdict: Target,
    pub cause: Cause,
    /// Its last settling came to its end without a failure.
    pub settled: bool,
    /// A removal of the device was written, and done.
    pub removed: bool,
    /// Its default was written, and done.
    pub defaulted: bool,
}

/// A name and a number for which room is held.
#[derive(Clone, Copy)]
pub struct Place {
    pub name: NodeName,
    pub number: u64,
}

/// What the writes of a standing need.
#[derive(Clone, Copy)]
pub struct Known {
    pub number: u64,
    pub held: Held,
    pub verdict: Target,
    pub removed: bool,
    pub defaulted: bool,
}

/// How the settling of a name ended.
#[derive(Clone, Copy)]
pub enum Settled {
    Stands,
    /// Nothing stands for the name.
    Nobody,
    Fault(FailedCall),
    Memory,
}

impl From<Fault> for Settled {
    ghost use Rattle.std.specs.Prelude.{◌≡◌};
    ghost use Rattle.ug_table.specs.Settle.{stopped_by};

    ghost from_gives = { λ fault settled. settled ≡ stopped_by fault };

    fn from(fault: Fault) -> Settled {
        match fault {
            Fault::Call(failed) => Settled::Fault(failed),
            Fault::Memory => Settled::Memory,
        }
    }
}
