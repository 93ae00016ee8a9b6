// A call of a client's connection, with its answer.
use crate::link::Dialled;
use ug_types::{Put, Text};

/// What a receive gave.
#[derive(Drop)]
pub enum Receipt {
    Bytes(Text),
    End,
    Failed,
}

/// A call with its answer.
#[derive(Drop)]
pub enum LinkCall {
    /// With the path that was dialled.
    Dial(Text, Dialled),
    /// With the bytes that were to be sent.
    Send(Text, Put),
    Receive(Receipt),
}
