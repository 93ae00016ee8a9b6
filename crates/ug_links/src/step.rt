// A call of the daemon's sockets, with its answer.
use crate::links::{Accepted, LinkWrote, Listening};
use crate::waiter::LinkId;
use ug_types::{Principal, Text};

/// What a read gave.
#[derive(Drop)]
pub enum Reading {
    Bytes(Text),
    NotYet,
    End,
    Failed,
}

/// A call with its answer.
#[derive(Drop)]
pub enum LinkStep {
    Listened(Principal, Listening),
    /// By the listener's number.
    AcceptedAt(u32, Accepted),
    /// With the room that the read had for bytes.
    ReadFrom(LinkId, usize, Reading),
    /// With the bytes that were to be sent.
    WroteTo(LinkId, Text, LinkWrote),
    Closed(LinkId),
}
