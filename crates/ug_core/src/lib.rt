// The daemon's events.
#![tactic(auto)]

mod between;
mod calls;
mod changes;
mod choosing;
mod classes;
mod daemon;
mod device_list;
mod folder;
mod hinting;
mod laws;
mod lent;
mod list_laws;
mod load;
mod orders;
mod policy;
mod privileges;
mod report;
mod rules;
mod settling;
mod start;
mod start_fault;
mod storing;
mod walking;

pub use between::Between;
pub use classes::Classes;
pub use daemon::Daemon;
pub use laws::{run_law, stop_law, verdict_law};
pub use list_laws::devices_law;
pub use privileges::denied;
pub use report::Report;
pub use start_fault::StartFault;
pub use ug_audit::{Entries, Entry, Fault};
