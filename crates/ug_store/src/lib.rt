// The rule file: saved by a new file, a sync and a swap, and read at every start.
#![tactic(auto)]

mod disk;
mod laws;
mod mem_disk;
mod mishap;
mod store;

pub use disk::{DiskAnswer, Loaded, RuleDisk};
pub use laws::{history_law, mishap_law, moment_law, play_disk_law, run_out_law};
pub use mem_disk::MemDisk;
pub use mishap::{Mishap, Planned};
pub use store::{RecoverFault, Store};
pub use ug_types::Saved;
