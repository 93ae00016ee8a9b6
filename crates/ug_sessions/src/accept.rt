// What is accepted at the listeners.
ghost use Rattle.std.specs.Prelude.{◌≡◌, ◌<◌, ◌^◌, count_by, length, IfOk};
ghost use Rattle.ug_links.specs.Talk.{Talks, upto};
ghost use Rattle.ug_sessions.specs.Accepting.{accepting_once, accepting_one, accepting_all};
ghost use Rattle.ug_sessions.specs.Sessions.{is_open_session};
ghost use Rattle.ug_sessions.specs.States.{listeners_from};
ghost use Rattle.ug_sessions.specs.Tokens.{names_listener};

use crate::session::{Listener, Session, Turn, Why, counted_up};
use std::alloc::Global;
use ug_links::{Accepted, Links, Ready};
use ug_types::{NoMemory, Principal};

/// At most so many sessions are open.
pub const MAX_SESSIONS: usize = 64;

/// How often a turn accepts at a listener.
pub const MAX_ACCEPTS: u32 = 64;

/// A listener for each principal, none of which was tried.
pub fn list_listeners(alloc: Global, principals: &[Principal]) -> Result<Vec<Listener>, NoMemory>
    requires { length principals.now < 2 ^ 32 }
    ensures { IfOk result (λ listeners. listeners.items ≡ listeners_from 0 principals.now) }
{
    let mut listeners = Vec::new(alloc);
    for i in 0..principals.len() {
        listeners.push(Listener {
            number: i as u32,
            principal: principals[i],
            owed: true,
        })?;
    }
    Ok(listeners)
}

/// How many sessions are open.
pub fn count_open(sessions: &[Session]) -> usize
    ensures { result ≡ count_by is_open_session sessions.now }
{
    let mut count = 0;
    for session in sessions {
        if session.is_open() {
            count += 1;
        }
    }
    count
}

/// Whether a wait named the listener.
#[tactic(auto, using(std::proofs::lemmas::List::at_drop_more))]
pub fn is_named_listener(ready: &[Ready], number: u32) -> bool
    ensures { result ≡ names_listener ready.now number }
{
    for token in ready {
        match token {
            Ready::Session(_) => {}
            Ready::Listener(other) => {
                if *other == number {
                    return true;
                }
            }
        }
    }
    false
}

/// Accepts one session, and tells whether there may be another.
#[tactic(auto, unfolding(crate::specs::Accepting::accepting_once))]
pub fn accept_once<N: Links>(
    alloc: Global,
    listener: &mut Listener,
    sessions: &mut Vec<Session>,
    links: &mut N,
    turn: &mut Turn,
) -> bool
    ensures { Talks N.gives links.old
        (accepting_once (listener.old, (sessions.old.items, turn.old)))
        (result, (listener.new, (sessions.new.items, turn.new))) links.new }
{
    match links.accept(alloc, listener.number) {
        Accepted::Session(id) => {
            listener.owed = true;
            if count_open(sessions) < MAX_SESSIONS {
                let session = Session::new(alloc, id, listener.principal);
                match sessions.push(session) {
                    Ok(()) => {
                        turn.accepted = counted_up(turn.accepted);
                        true
                    }
                    Err(_) => {
                        links.close(id);
                        turn.count(Why::Memory);
                        true
                    }
                }
            } else {
                links.close(id);
                turn.busy = counted_up(turn.busy);
                true
            }
        }
        Accepted::NotYet => {
            listener.owed = false;
            false
        }
        Accepted::Failed => {
            listener.owed = true;
            turn.count(Why::Failed);
            false
        }
        Accepted::Memory => {
            listener.owed = true;
            turn.count(Why::Memory);
            false
        }
    }
}

/// Accepts up to n sessions.
pub fn accept_some<N: Links>(
    alloc: Global,
    n: u32,
    listener: &mut Listener,
    sessions: &mut Vec<Session>,
    links: &mut N,
    turn: &mut Turn,
)
    ensures { Talks N.gives links.old
        (upto accepting_once n (listener.old, (sessions.old.items, turn.old)))
        (listener.new, (sessions.new.items, turn.new)) links.new }
{
    for i in 0..n {
        let more = accept_once(alloc, listener, sessions, links, turn);
        if !more {
            return;
        }
    }
}

/// Accepts at the listener, if it is named or owed a try.
#[tactic(auto, unfolding(crate::specs::Accepting::accepting_one))]
pub fn accept_one<N: Links>(
    alloc: Global,
    ready: &[Ready],
    listener: &mut Listener,
    sessions: &mut Vec<Session>,
    links: &mut N,
    turn: &mut Turn,
)
    ensures { Talks N.gives links.old
        (accepting_one ready.now listener.old (sessions.old.items, turn.old))
        (listener.new, (sessions.new.items, turn.new)) links.new }
{
    if listener.owed || is_named_listener(ready, listener.number) {
        accept_some(alloc, MAX_ACCEPTS, listener, sessions, links, turn);
    }
}

/// All listeners, in order.
pub fn accept_all<N: Links>(
    alloc: Global,
    ready: &[Ready],
    listeners: &mut [Listener],
    sessions: &mut Vec<Session>,
    links: &mut N,
    turn: &mut Turn,
)
    ensures { Talks N.gives links.old
        (accepting_all ready.now listeners.old (sessions.old.items, turn.old))
        (listeners.new, (sessions.new.items, turn.new)) links.new }
{
    for i in 0..listeners.len() {
        let listener = &mut listeners[i];
        accept_one(alloc, ready, listener, sessions, links, turn);
    }
}

/// The same over the listeners that are kept.
// (a function of its own, since the loop's proof goes over a slice)
pub fn accept_kept<N: Links>(
    alloc: Global,
    ready: &[Ready],
    listeners: &mut Vec<Listener>,
    sessions: &mut Vec<Session>,
    links: &mut N,
    turn: &mut Turn,
)
    ensures { Talks N.gives links.old
        (accepting_all ready.now listeners.old.items (sessions.old.items, turn.old))
        (listeners.new.items, (sessions.new.items, turn.new)) links.new }
{
    accept_all(alloc, ready, listeners, sessions, links, turn);
}
