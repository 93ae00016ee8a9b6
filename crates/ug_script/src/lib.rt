// A script of rules, devices and sweeps, run by the daemon.
#![tactic(auto)]

mod access;
mod events;
mod folder_lines;
mod generator;
mod halting;
mod interpreter;
mod kinds;
mod laws;
mod pass_lines;
mod passes;
mod progress;
mod quoting;
mod rule_lines;
mod runner;
mod running;
mod session;
mod setup;
mod start;
mod summarizer;
mod taken;
mod text;
mod totals;

pub use generator::generate_policy;
pub use interpreter::Interpreter;
pub use laws::{
    birth_law, births_law, calls_law, default_law, moves_law, play_law, quiet_law, refusal_law,
    schedule_law, script_law, sweep_law, worked_law,
};
pub use runner::Runner;
pub use summarizer::summarize;
pub use totals::Totals;
