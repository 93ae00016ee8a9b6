// What a run owes to the devices that it was told of.
#![tactic(auto)]

mod laws;

pub use laws::{announced_law, due_law, others_law, told_law};
