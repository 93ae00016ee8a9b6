// The headline: what the daemon does with devices, on one page.
#![tactic(auto)]

mod laws;

pub use laws::{defaults_law, devices_law, headline_law, rules_law, silence_law};
