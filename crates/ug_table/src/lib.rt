// The standings of devices, and the sweep that settles each.
#![tactic(auto)]

mod bring;
mod judge;
mod kept;
mod names;
mod order;
mod parent;
mod query;
mod settle;
mod slots;
mod standing;
mod sweep;
mod table;
mod watch;

pub use judge::Judge;
pub use names::in_order;
pub use standing::{Known, Settled, Standing};
pub use table::Table;
