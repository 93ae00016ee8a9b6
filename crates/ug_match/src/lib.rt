// Which devices a rule's attributes match: usbguard-rules.conf(5).
#![tactic(auto)]

mod covers;
mod laws;
mod operators;
mod query;

pub use laws::{operators_law, queries_law, values_law};
pub use query::matches;
