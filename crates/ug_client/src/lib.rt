// The client's half of the commands that speak to the daemon.
#![tactic(auto)]

mod answer;
mod asked;
mod call;
mod choosing;
mod fetch;
mod following;
mod laws;
mod lines;
mod notice;
mod notice_line;
mod ordering;
mod orders;
mod receive;
mod rules;
mod send;
mod so_far;
mod stream;
mod write;

pub use answer::read_answer;
pub use asked::Asked;
pub use call::{ask, watch};
pub use choosing::ask_chosen;
pub use following::{Told, ask_twice};
pub use laws::one_answer_law;
pub use ordering::order_matching;
pub use orders::Wanted;
pub use rules::ask_labelled;
