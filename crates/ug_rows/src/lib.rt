// Rows of lists of devices and of rules, read back: which devices a query matches, and to which a rule applies. usbguard(1), list-devices and list-rules.
#![tactic(auto)]

mod choice;
mod contrary;
mod cuts;
mod devices;
mod laws;
mod matching;
mod rows;
mod rule_rows;

pub use choice::{Choice, is_chosen};
pub use contrary::contrary_lines;
pub use cuts::cut_at_mark;
pub use laws::first_match_law;
pub use matching::matching_numbers;
pub use rule_rows::{Split, copy_rows, is_labelled, is_shown, split_devices};
