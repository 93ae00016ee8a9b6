// Which rules can never decide, as rules before them or their own conditions have it: usbguard-rules.conf(5).
#![tactic(auto)]

mod certain;
mod covers;
mod finding;
mod implied;
mod laws;
mod linting;
mod operators;
mod pruning;

pub use finding::Finding;
pub use laws::{
    conditions_law, findings_law, implied_law, implied_sets_law, remaining_law, sets_law,
    values_law,
};
pub use linting::lint;
pub use pruning::prune;
