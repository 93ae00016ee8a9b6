// What a request is answered.
use ug_types::{List, Refusal, Text};

/// A reply.
#[derive(Drop)]
pub enum Reply {
    /// It was done. The lines have no newlines.
    Lines(List<Text>),
    Refused(Refusal),
}

impl Reply {
    /// Drops it. A crate that calls this need not prove how its parts are dropped.
    pub fn discard(self) {}
}

/// Why a text was not read.
#[derive(Clone, Copy)]
pub enum ReplyFault {
    /// It is no reply, and none begins so.
    BadReply,
    Memory,
}
