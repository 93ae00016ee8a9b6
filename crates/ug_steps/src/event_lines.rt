// Orders of administrators, and pieces of recorded uevents.
ghost use Rattle.std.specs.Prelude.{◌≡◌};
ghost use Rattle.ug_steps.specs.Grammar as grammar;
ghost use Rattle.ug_steps.specs.Grammar.{hint_of, order_of};
ghost use Rattle.ug_steps.specs.Words.{Parses};

use crate::step::StepFault;
use crate::words::{bytes, moment, space};
use std::alloc::Global;
use ug_types::{Event, Moment, Principal, Text};

/// A user, or a group behind `:`, and the line of its order, which may be any text.
fn order_at(alloc: Global, moment: u64, text: &[u8]) -> Result<Event, StepFault>
    ensures { Parses (grammar.order_at moment text.now) result }
{
    match space(text) {
        None => Err(StepFault::Bad),
        Some(at) => match Principal::parse(&text[..at]) {
            None => Err(StepFault::Bad),
            Some(who) => match Text::of(alloc, &text[at + 1..]) {
                Ok(request) => Ok(Event::Order(Moment(moment), who, request)),
                Err(_) => Err(StepFault::Memory),
            },
        },
    }
}

/// A moment up to 250,000,000,000, a user or a group, and a request, which is the rest of the line.
pub fn order(alloc: Global, text: &[u8]) -> Result<Event, StepFault>
    ensures { Parses (order_of text.now) result }
{
    match space(text) {
        None => Err(StepFault::Bad),
        Some(at) => match moment(&text[..at]) {
            None => Err(StepFault::Bad),
            Some(moment) => order_at(alloc, moment, &text[at + 1..]),
        },
    }
}

const LONGEST_PIECE: usize = 1048576;

/// A piece of at most 1,048,576 bytes.
fn hint_at(moment: u64, piece: Text) -> Option<Event>
    ensures { result ≡ grammar.hint_at moment piece }
{
    if piece.bytes().len() > LONGEST_PIECE {
        return None;
    }
    Some(Event::Hint(Moment(moment), piece))
}

/// A moment up to 250,000,000,000, and the bytes of a piece in hexadecimal.
pub fn hint(alloc: Global, text: &[u8]) -> Result<Event, StepFault>
    ensures { Parses (hint_of text.now) result }
{
    match space(text) {
        None => Err(StepFault::Bad),
        Some(at) => match moment(&text[..at]) {
            None => Err(StepFault::Bad),
            Some(moment) => hint_at(moment, bytes(alloc, &text[at + 1..])?).ok_or(StepFault::Bad),
        },
    }
}
