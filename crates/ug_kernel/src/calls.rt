// The calls of a device's files, and what they answer.
use crate::control::Held;
use ug_types::{List, NodeName, Text};

/// The answer to a listing.
#[derive(Drop)]
pub enum Listing {
    Names(List<NodeName>),
    Failed,
    Memory,
}

/// The answer to an opening.
#[derive(Clone, Copy)]
pub enum Opened {
    Token(Held),
    Absent,
    Failed,
    Memory,
}

/// The answer to a reading.
#[derive(Drop)]
pub enum ReadOut {
    Bytes(Text),
    Absent,
    /// More than 131,072 bytes of descriptors, or 4,096 of another file.
    TooLong,
    Failed,
    Memory,
}

/// The answer to a probe of a held file.
#[derive(Clone, Copy)]
pub enum Probe {
    /// The device is there, and this is the value of `authorized`.
    Alive(bool),
    Gone,
    Failed,
}

/// The answer to a write through a held file.
#[derive(Clone, Copy)]
pub enum Wrote {
    Done,
    Gone,
    /// It may have had its effect.
    Failed,
}

/// A call that failed: its number in its event, and the count of failed calls after it.
#[derive(Clone, Copy)]
pub struct FailedCall {
    pub call: u64,
    pub count: u64,
}
