// The list of rules and its first match: usbguard-rules.conf(5).
#![tactic(auto)]

mod edits;
mod entry;
mod index;
mod judging;
mod laws;
mod list;
mod places;
mod reach;

pub use entry::{Mark, NoRule, RuleEntry};
pub use index::Index;
pub use laws::{asking_law, decider_law, edits_law, folder_law, index_law};
pub use list::{MAX_RULES, RuleList};
pub use reach::Reach;
