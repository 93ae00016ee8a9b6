// The kernel's files in sysfs, as the daemon calls them.
#![tactic(auto)]

mod beside;
mod census;
mod devices;
mod failures;
mod interfaces;
mod kin;
mod kinds;
mod laws;
mod parent;
mod queue;
mod roster;
mod schedule;
mod script;
mod sim;

pub use laws::{bus_law, event_law, fate_law, iface_law, plug_law, ran_out_law, unplug_law};
pub use script::{Failing, IfaceMove, Move, NewDevice, NewIface, Scheduled};
pub use sim::SimKernel;
pub use ug_kernel::{
    Asked, Attr, CallRecord, Control, Device, Effect, HeldFile, Kind, Listing, Opened, Probe,
    ReadOut, Sysfs, Write, Wrote,
};
