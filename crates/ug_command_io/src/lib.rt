// What a command reads and writes: an input line by line or whole, its results, and its exit status.
#![tactic(auto)]

mod call;
mod feed;
mod machine;
mod read;
mod results;

pub use call::{replay, run};
pub use feed::is_within;
pub use machine::{Machine, Ran};
pub use read::{InputFault, read_input};
pub use results::{Ended, refuse_input, status, write_result};
