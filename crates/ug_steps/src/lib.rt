// The lines of a script, each read as a step.
#![tactic(auto)]

mod event_lines;
mod iface_lines;
mod laws;
mod line_word;
mod move_lines;
mod parse;
mod plan_lines;
mod plugs;
mod setup_lines;
mod step;
mod words;

pub use laws::{access_law, line_words_law, lines_law, words_law};
pub use parse::parse_line;
pub use step::{AccessLine, FolderLine, Plan, SetupLine, Step, StepFault};
pub use words::is_entry;
