// Want of memory.
ghost use Rattle.ug_types.specs.declared.no_memory.NoMemory.{NoMemory};

use std::alloc::{AllocError, AllocFailed};

/// Memory was refused. What the call would have changed is as it was.
#[derive(Clone, Copy, Debug)]
pub struct NoMemory;

impl From<AllocError> for NoMemory {
    fn from(_e: AllocError) -> NoMemory {
        NoMemory
    }
}

impl<T: Drop> From<AllocFailed<T>> for NoMemory {
    fn from(_e: AllocFailed<T>) -> NoMemory {
        NoMemory
    }
}
