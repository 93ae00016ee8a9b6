// The hints of a stream, as its bytes come.
ghost use Rattle.std.specs.Prelude.{◌≡◌, ◌++◌, [], true, length, MatchResult};
ghost use Rattle.ug_uevent.specs.Streams.{Partial, stream_with_piece};
ghost use Rattle.ug_uevent.specs.Answers.{HandsOutHint};

use crate::count::{Progress, pass_all};
use crate::fault::{UeventFault, UeventKind, fault_at};
use crate::hint::Hint;
use crate::parse::parse_uevent;
use crate::scan::{Beginning, find_end};
use std::alloc::Global;
use std::marker::Model;
use ug_types::NoMemory;

const LIMIT: usize = 8192;

/// The messages of a stream that were not handed out yet, and the bytes of the next. A message is
/// strings, each with a zero byte behind it, and an empty string ends it. A message with its
/// closing zero byte has at most 8,192 bytes; where as many stand without an end, the stream has a
/// last hint, `TooLong`, and takes nothing more.
#[derive(Drop)]
pub struct Hints {
    alloc: Global,
    bytes: Vec<u8>,
    /// How many of the bytes were handed out.
    at: usize,
    /// `TooLong` was handed out.
    ended: bool,
}

impl Model for Hints {
    ghost use Rattle.ug_uevent.specs.Streams.{Stream};

    ghost Value = { Stream };

    ghost use Rattle.std.specs.Prelude.{length, drop, ◌≤◌};
    ghost use Rattle.ug_uevent.specs.Streams.{waiting};

    ghost view = { λ h. waiting h.ended (drop h.at h.bytes.items) };

    ghost invariant = { λ h. h.at ≤ length h.bytes.items };
}

impl Hints {
    /// It takes no memory.
    pub fn new(alloc: Global) -> Hints
        ensures messages { result.messages ≡ [] }
        ensures begun { result.begun ≡ Partial [] true }
    {
        Hints {
            alloc,
            bytes: Vec::new(alloc),
            at: 0,
            ended: false,
        }
    }

    /// Takes the next piece of the stream. Where memory is refused the stream is as it was, and the
    /// piece can be fed again. Linear in the number of bytes of the piece and of those that were
    /// not handed out.
    pub fn feed(&mut self, piece: &[u8]) -> Result<(), NoMemory>
        ensures { MatchResult result
            (λ _. self.new ≡ stream_with_piece self.old piece.now) (λ _. self.new ≡ self.old) }
    {
        if self.ended {
            return Ok(());
        }
        self.bytes = joined(self.alloc, &self.bytes[self.at..], piece)?;
        self.at = 0;
        Ok(())
    }

    /// How many messages there would be with that piece behind the stream, those included that were
    /// not handed out: so many calls of `next_hint` answer something. Linear as `feed`, and takes
    /// no memory.
    pub fn messages_with(&self, piece: &[u8]) -> usize
        ensures { result ≡ length (stream_with_piece self.now piece.now).messages }
    {
        if self.ended {
            return 0;
        }
        let start = Progress {
            messages: 0,
            length: 0,
            fresh: true,
            ended: false,
        };
        let kept = pass_all(start, &self.bytes[self.at..]);
        pass_all(kept, piece).messages
    }

    /// Hands out what the next message says, or its fault. There is none exactly where no message
    /// is left. It takes no memory.
    pub fn next_hint(&mut self) -> Option<Result<Hint, UeventFault>>
        ensures { HandsOutHint self.old result self.new }
    {
        if self.ended {
            return None;
        }
        let rest = &self.bytes[self.at..];
        match find_end(rest) {
            Beginning::Message(length) => {
                let hint = parse_uevent(&rest[..length]);
                self.at += length + 1;
                Some(hint)
            }
            Beginning::TooLong => {
                self.ended = true;
                Some(Err(fault_at(UeventKind::TooLong, LIMIT)))
            }
            Beginning::Open => None,
        }
    }
}

fn joined(alloc: Global, front: &[u8], back: &[u8]) -> Result<Vec<u8>, NoMemory>
    ensures { MatchResult result (λ bytes. bytes.items ≡ front.now ++ back.now) (λ _. Unit {0}) }
{
    let mut bytes = Vec::with_capacity(alloc, front.len() + back.len())?;
    bytes.extend_from_slice(front)?;
    bytes.extend_from_slice(back)?;
    Ok(bytes)
}
