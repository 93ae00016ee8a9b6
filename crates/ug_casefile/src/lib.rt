// Cases as data: a text of cases with the answers that are wanted, and the report of those that differ.
#![tactic(auto)]

mod answer;
mod cases;
mod inputs;
mod names;
mod reading;
mod report;
mod running;
mod words;

pub use answer::{Answer, say};
pub use cases::{Case, CaseFile, Setting};
pub use inputs::add_pattern;
pub use reading::read_cases;
pub use report::Report;
pub use running::{Teller, run_cases};
pub use words::{bytes_of_hex, number_of, split_word};
