// The settling of given names beside a sweep.
#![tactic(auto)]

mod laws;

pub use laws::{comparison_law, policy_law, stage_law, still_law};
