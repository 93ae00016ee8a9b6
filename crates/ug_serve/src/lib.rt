// The daemon: its start, and its turns.
#![tactic(auto)]

mod access;
mod daemon;
mod events;
mod folder;
mod listed;
mod listening;
mod not_started;
mod noting;
mod respond;
mod settings;
mod start;
mod turn;

pub use daemon::run_daemon;
pub use turn::{TurnEnd, serve_turn};
