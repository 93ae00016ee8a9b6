// The journal of an event.
#![tactic(auto)]

mod auditor;
mod entries;
mod entry;
mod file_name;
mod journal;
mod laws;
mod lines;
mod panel;
mod start_entry;
mod start_lines;
mod text_auditor;

pub use auditor::{Auditor, Noted};
pub use entries::Entries;
pub use entry::{Entry, Fault, RuleChange};
pub use file_name::FileName;
pub use journal::Journal;
pub use laws::{entries_law, noted_law, start_entries_law, start_noted_law};
pub use lines::line_of;
pub use panel::Panel;
pub use start_entry::{ConfigPart, StartEntry};
pub use start_lines::line_of_start;
pub use text_auditor::TextAuditor;
