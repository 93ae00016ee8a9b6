// USB devices as the kernel keeps them, the calls of their files in sysfs, programs as trees of these calls, and the first of
// these: from a name to the very device.
#![tactic(auto)]

mod calls;
mod control;
mod device;
mod failed;
mod files;
mod held;
mod identity;
mod record;
mod removal;
mod sysfs;
mod under;

pub use calls::{FailedCall, Listing, Opened, Probe, ReadOut, Wrote};
pub use control::{Attr, Control, Held, Write};
pub use device::{Device, Effect, HeldFile, MAX_DEVICES};
pub use failed::failed_call;
pub use files::{File, OwnFiles, Stop};
pub use held::{put, reprobe};
pub use identity::{Binding, Bound, bind};
pub use record::{Asked, CallRecord, Kind};
pub use removal::{RemoveHold, hold_default, hold_remove};
pub use sysfs::Sysfs;
pub use under::bind_under;
