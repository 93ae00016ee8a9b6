// The calls of an event, as they are recorded.
use crate::control::{Attr, Control, Held, Write};
use ug_types::NodeName;

/// A call, with what it was given.
#[derive(Clone, Copy)]
pub enum Asked {
    List,
    Open(NodeName, Control),
    Read(NodeName, Attr),
    Probe(Held),
    Write(Held, Write),
}

/// The kind of an answer.
#[derive(Clone, Copy)]
pub enum Kind {
    Names,
    Token,
    Absent,
    Bytes,
    TooLong,
    Alive,
    Gone,
    Done,
    Failed,
    Memory,
}

/// A call that was made, and the kind of its answer.
#[derive(Clone, Copy)]
pub struct CallRecord {
    pub asked: Asked,
    pub kind: Kind,
}
