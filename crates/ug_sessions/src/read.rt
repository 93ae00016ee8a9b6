// What is read of a session.
ghost use Rattle.std.specs.Prelude.{◌≡◌, length};
ghost use Rattle.ug_links.specs.Talk.{Talks, upto};
ghost use Rattle.ug_sessions.specs.Reading.{reading_piece, closing_doomed, reading_one, reading_all};
ghost use Rattle.ug_sessions.specs.Tokens.{names_session, is_read};

use crate::session::{Life, Session, Turn, Why};
use std::alloc::Global;
use ug_links::{LinkId, LinkRead, Links, Ready};
use ug_proto::FrameFault;

/// The bytes of a piece.
pub const PIECE: usize = 4096;

/// How many pieces a turn reads of a session.
pub const MAX_PIECES: u32 = 16;

/// Reads one piece, and tells whether there may be another.
#[tactic(auto, unfolding(crate::specs::Reading::reading_piece))]
pub fn read_piece<N: Links>(
    alloc: Global,
    session: &mut Session,
    buffer: &mut [u8],
    links: &mut N,
    turn: &mut Turn,
) -> bool
    requires { length buffer.old ≡ 4096 }
    ensures { Talks N.gives links.old (reading_piece (session.old, turn.old))
        (result, (session.new, turn.new)) links.new }
{
    match links.read(session.id, buffer) {
        LinkRead::Took(n) => match session.framer.feed(&buffer[..n]) {
            Ok(()) => {
                session.overlong = false;
                session.drained = false;
                session.owed = true;
                true
            }
            Err(FrameFault::TooLong) => {
                session.overlong = true;
                session.drained = false;
                session.owed = true;
                true
            }
            Err(FrameFault::Memory) => {
                session.empty(alloc);
                links.close(session.id);
                session.close(Why::Memory, turn);
                false
            }
        },
        LinkRead::NotYet => {
            session.owed = false;
            false
        }
        LinkRead::End => {
            session.ended = true;
            false
        }
        LinkRead::Failed => {
            session.unsent.clear();
            links.close(session.id);
            session.close(Why::Failed, turn);
            false
        }
    }
}

/// Reads up to n pieces.
pub fn read_pieces<N: Links>(
    alloc: Global,
    n: u32,
    session: &mut Session,
    buffer: &mut [u8],
    links: &mut N,
    turn: &mut Turn,
)
    requires { length buffer.old ≡ 4096 }
    ensures { Talks N.gives links.old (upto reading_piece n (session.old, turn.old))
        (session.new, turn.new) links.new }
{
    for i in 0..n {
        let more = read_piece(alloc, session, buffer, links, turn);
        if !more {
            return;
        }
    }
}

/// Whether a wait named the session.
#[tactic(auto, using(std::proofs::lemmas::List::at_drop_more))]
pub fn is_named(ready: &[Ready], id: LinkId) -> bool
    ensures { result ≡ names_session ready.now id }
{
    for token in ready {
        match token {
            Ready::Session(other) => {
                if other.0 == id.0 {
                    return true;
                }
            }
            Ready::Listener(_) => {}
        }
    }
    false
}

/// Whether the session is to be read.
pub fn is_to_be_read(ready: &[Ready], session: &Session) -> bool
    ensures { result ≡ is_read ready.now session.now }
{
    match session.life {
        Life::Open => {}
        Life::Doomed(_) => return false,
        Life::Closed(_) => return false,
    }
    if session.ended {
        return false;
    }
    if session.owed {
        return true;
    }
    is_named(ready, session.id)
}

/// Closes the link of a session that was closed since the last call.
#[tactic(auto, unfolding(crate::specs::Reading::closing_doomed))]
pub fn close_doomed<N: Links>(session: &mut Session, links: &mut N, turn: &mut Turn)
    ensures { Talks N.gives links.old (closing_doomed session.old turn.old) (session.new, turn.new)
        links.new }
{
    match session.life {
        Life::Open => {}
        Life::Closed(_) => {}
        Life::Doomed(why) => {
            links.close(session.id);
            session.close(why, turn);
        }
    }
}

/// Closes the session's link, or reads what is to be read.
#[tactic(auto, unfolding(crate::specs::Reading::reading_one), using(ug_links::proofs::Runs::runs_then))]
pub fn read_one<N: Links>(
    alloc: Global,
    ready: &[Ready],
    session: &mut Session,
    buffer: &mut [u8],
    links: &mut N,
    turn: &mut Turn,
)
    requires { length buffer.old ≡ 4096 }
    ensures { Talks N.gives links.old (reading_one ready.now session.old turn.old)
        (session.new, turn.new) links.new }
{
    close_doomed(session, links, turn);
    if is_to_be_read(ready, session) {
        read_pieces(alloc, MAX_PIECES, session, buffer, links, turn);
    }
}

/// All sessions, in the order in which they were accepted.
pub fn read_all<N: Links>(
    alloc: Global,
    ready: &[Ready],
    sessions: &mut [Session],
    buffer: &mut [u8],
    links: &mut N,
    turn: &mut Turn,
)
    requires { length buffer.old ≡ 4096 }
    ensures { Talks N.gives links.old (reading_all ready.now sessions.old turn.old)
        (sessions.new, turn.new) links.new }
{
    for i in 0..sessions.len() {
        let session = &mut sessions[i];
        read_one(alloc, ready, session, buffer, links, turn);
    }
}

/// The same over the sessions that are kept.
// (a function of its own, since the loop's proof goes over a slice)
pub fn read_kept<N: Links>(
    alloc: Global,
    ready: &[Ready],
    sessions: &mut Vec<Session>,
    buffer: &mut [u8],
    links: &mut N,
    turn: &mut Turn,
)
    requires { length buffer.old ≡ 4096 }
    ensures { Talks N.gives links.old (reading_all ready.now sessions.old.items turn.old)
        (sessions.new.items, turn.new) links.new }
{
    read_all(alloc, ready, sessions, buffer, links, turn);
}
