// The headline of the turns that the daemon makes.
#![tactic(auto)]

mod laws;

pub use laws::turns_law;
