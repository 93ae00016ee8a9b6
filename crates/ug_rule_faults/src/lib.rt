// The first fault of a line of a rule: usbguard-rules.conf(5).
#![tactic(auto)]

mod laws;

pub use laws::{bad_lines_law, first_fault_law};
