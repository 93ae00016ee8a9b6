// The places that sessions take.
use crate::listener::{Listener, count_others};
use crate::pace::share;
use crate::peer::Peer;
use std::time::Instant;

/// The most sessions of one listener, of all but root's, and of all.
const MOST_OF_ONE: usize = 16;

const MOST_OF_OTHERS: usize = 56;

const MOST: usize = 64;

/// The most streams of sessions that are over, of all listeners. A stream is a file that is open,
/// of which the service has 131,072, and devices take up to 65,536.
const MOST_KEPT: usize = 16_384;

/// For so many seconds a session that is idle, or over, keeps its place against newcomers.
const PATIENCE: u64 = 60;

/// What a newcomer finds at a listener.
#[derive(Clone, Copy)]
pub enum Place {
    Free,
    /// None, but one will be free within a minute.
    Later,
    /// The least active session of this place has to leave first.
    After(usize),
    Taken,
}

// For how many seconds nothing came of a session.
fn idle_seconds(peer: &Peer, now: Option<Instant>) -> u64 {
    match (peer.touched, now) {
        (Some(touched), Some(now)) => now.duration_since(touched).as_secs(),
        _ => 0,
    }
}

fn keeps_place(peer: &Peer, now: Option<Instant>) -> bool {
    !peer.over || idle_seconds(peer, now) < PATIENCE
}

// Whether it is root's, where root's are told apart from others'.
fn is_at(listeners: &[Listener], peer: &Peer, roots: bool) -> bool {
    match listeners.get(peer.listener as usize) {
        Some(listener) => listener.is_roots() == roots,
        None => false,
    }
}

/// How many places a listener's sessions take.
pub fn count_at(peers: &[Peer], listener: u32, now: Option<Instant>) -> usize {
    let mut count = 0usize;
    for peer in peers {
        if peer.listener == listener && keeps_place(peer, now) {
            count = count.saturating_add(1);
        }
    }
    count
}

// How many places the sessions of all listeners but root's take.
fn count_of_others(listeners: &[Listener], peers: &[Peer], now: Option<Instant>) -> usize {
    let mut count = 0usize;
    for peer in peers {
        if keeps_place(peer, now) && is_at(listeners, peer, false) {
            count = count.saturating_add(1);
        }
    }
    count
}

// How many streams a listener has that are kept though their session is over.
fn count_kept(peers: &[Peer], listener: u32) -> usize {
    let mut count = 0usize;
    for peer in peers {
        if peer.listener == listener && peer.over {
            count = count.saturating_add(1);
        }
    }
    count
}

// How many places a listener has of its own.
fn places_at(listeners: &[Listener], listener: u32) -> usize {
    let others = count_others(listeners);
    let share = share(MOST_OF_OTHERS, others).min(MOST_OF_ONE);
    match listeners.get(listener as usize) {
        Some(at) if at.is_roots() => {
            let taken = share.saturating_mul(others).min(MOST_OF_OTHERS);
            MOST.saturating_sub(taken).min(MOST_OF_ONE)
        }
        Some(_) => share,
        None => 0,
    }
}

// The session that was idle for longest, and for a minute at least, of a listener or of all but
// root's.
fn longest_idle(
    listeners: &[Listener],
    peers: &[Peer],
    listener: u32,
    of_others: bool,
    now: Option<Instant>,
) -> Option<usize> {
    let mut found = None;
    let mut most = PATIENCE;
    for place in 0..peers.len() {
        let peer = &peers[place];
        let counts = peer.listener == listener || of_others && is_at(listeners, peer, false);
        let idle = idle_seconds(peer, now);
        if counts && !peer.over && idle >= most {
            found = Some(place);
            most = idle;
        }
    }
    found
}

// Whether a place of a listener's, or of all but root's, will be free within a minute, whatever its
// session does.
fn is_leaving(
    listeners: &[Listener],
    peers: &[Peer],
    listener: u32,
    of_others: bool,
    now: Option<Instant>,
) -> bool {
    for peer in peers {
        let counts = peer.listener == listener || of_others && is_at(listeners, peer, false);
        if counts && (peer.leaves || peer.over) && keeps_place(peer, now) {
            return true;
        }
    }
    false
}

// What a newcomer finds where all places are taken.
fn place_among(
    listeners: &[Listener],
    peers: &[Peer],
    listener: u32,
    of_others: bool,
    now: Option<Instant>,
) -> Place {
    if is_leaving(listeners, peers, listener, of_others, now) {
        return Place::Later;
    }
    match longest_idle(listeners, peers, listener, of_others, now) {
        Some(place) => Place::After(place),
        None => Place::Taken,
    }
}

/// What a newcomer finds at a listener at that moment.
pub fn find_place(
    listeners: &[Listener],
    peers: &[Peer],
    listener: u32,
    now: Option<Instant>,
) -> Place {
    if count_kept(peers, listener) >= share(MOST_KEPT, listeners.len()) {
        return Place::Later;
    }
    if count_at(peers, listener, now) >= places_at(listeners, listener) {
        return place_among(listeners, peers, listener, false, now);
    }
    let is_roots = match listeners.get(listener as usize) {
        Some(at) => at.is_roots(),
        None => false,
    };
    if !is_roots && count_of_others(listeners, peers, now) >= MOST_OF_OTHERS {
        return place_among(listeners, peers, listener, true, now);
    }
    Place::Free
}
