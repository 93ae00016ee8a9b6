// Requests and replies, as they go over a link.
#![tactic(auto)]

mod framer;
mod laws;
mod parse;
mod print;
mod read;
mod reply;
mod request;
mod scan;
mod spelled;
mod split;

pub use framer::{FrameFault, Framer};
pub use laws::{
    entries_and_replies_law, in_any_pieces, lines_in_one_way, one_reading_law, replies_law,
    request_words_law, requests_law,
};
pub use parse::parse_reply;
pub use print::{print_reply, print_request};
pub use read::parse_request;
pub use reply::{Reply, ReplyFault};
pub use request::{Request, RequestFault};
pub use ug_types::{After, Refusal};
