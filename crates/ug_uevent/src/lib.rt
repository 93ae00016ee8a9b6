// Recorded kernel events of devices, as hints at what has changed.
#![tactic(auto)]

mod count;
mod cut;
mod fault;
mod fields;
mod hint;
mod hints;
mod laws;
mod parse;
mod path;
mod scan;

pub use fault::{UeventFault, UeventKind};
pub use hint::{Action, Hint};
pub use hints::Hints;
pub use laws::{messages_in_any_pieces, messages_in_one_way, one_reading_law};
pub use parse::parse_uevent;
