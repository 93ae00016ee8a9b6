// The commands.
#![tactic(auto)]

mod client;
mod command;
mod faults;
mod replay;
mod tool;

pub use replay::run_replay;
pub use tool::run_tool;
