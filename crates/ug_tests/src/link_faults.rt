// Two sessions, of which one meets a fault: the other is served all the same.
use crate::turns::{closed, links, read_item, sent, serves, was_sent};
use std::alloc::Global;
use std::collections::VecDeque;
use ug_links::{Arrival, LinkId, MemLinks, Peer, ReadItem, Script, WriteItem};

// What root asks, and is told.
const ORDER: [&[u8]; 2] = [b"allow-dev", b"ice 99\n"];

const DENIED: &[u8] = b"refused 2 denied Devices modify\n";

// What joe asks, and is told.
const QUESTION: [&[u8]; 2] = [b"list-", b"rules\n"];

const RULES: &[u8] = b"ok 1\n1: allow id 1050:0011\n";

const NEVER: usize = 9;

// Puts what a read gives behind the others, and before it a failure where it is to fail.
fn put_read(
    alloc: Global,
    items: &mut VecDeque<ReadItem>,
    piece: Option<&[u8]>,
    fails: bool,
) -> Option<()> {
    if fails {
        items.push_back(ReadItem::Fail).ok()?;
    }
    items.push_back(read_item(alloc, piece)?).ok()
}

// These pieces; the read at that place fails.
fn reads(alloc: Global, pieces: &[&[u8]], fails: usize) -> Option<Script<ReadItem>> {
    let mut items = VecDeque::new(alloc);
    for i in 0..pieces.len() + 1 {
        put_read(alloc, &mut items, pieces.get(i).copied(), i == fails)?;
    }
    Some(Script::new(items))
}

fn write_item(fails: bool) -> WriteItem {
    if fails {
        WriteItem::Fail
    } else {
        WriteItem::Takes(8)
    }
}

// Each write takes eight bytes; the one at that place fails.
fn writes(alloc: Global, fails: usize) -> Option<Script<WriteItem>> {
    let mut items = VecDeque::new(alloc);
    for i in 0..4usize {
        items.push_back(write_item(i == fails)).ok()?;
    }
    Some(Script::new(items))
}

fn peer(alloc: Global, pieces: &[&[u8]], read: usize, write: usize) -> Option<Peer> {
    let reads = reads(alloc, pieces, read)?;
    Some(Peer::new(alloc, reads, writes(alloc, write)?))
}

fn put_failure(items: &mut VecDeque<Arrival>, fails: bool) -> Option<()> {
    if fails {
        items.push_back(Arrival::Fail).ok()?;
    }
    Some(())
}

// One arrival, before or behind which an accept fails.
fn arrival(alloc: Global, peer: Peer, fails: usize) -> Option<Script<Arrival>> {
    let mut items = VecDeque::new(alloc);
    put_failure(&mut items, fails == 0)?;
    items.push_back(Arrival::Comes(peer)).ok()?;
    put_failure(&mut items, fails == 1)?;
    Some(Script::new(items))
}

// Where the calls for a session fail.
#[derive(Clone, Copy)]
struct Faults {
    accept: usize,
    read: usize,
    write: usize,
}

const NONE: Faults = Faults {
    accept: NEVER,
    read: NEVER,
    write: NEVER,
};

// The links behind two turns.
fn served(alloc: Global, root: Faults, joe: Faults) -> Option<MemLinks> {
    let first = peer(alloc, &ORDER, root.read, root.write)?;
    let second = peer(alloc, &QUESTION, joe.read, joe.write)?;
    let first = arrival(alloc, first, root.accept)?;
    let second = arrival(alloc, second, joe.accept)?;
    let mut links = links(alloc, first, second)?;
    if serves(alloc, &mut links, 2)? {
        Some(links)
    } else {
        None
    }
}

// Whether the session was sent just so many bytes of that reply.
fn was_sent_front(alloc: Global, links: &MemLinks, id: u64, reply: &[u8], count: usize) -> bool {
    match sent(alloc, links, LinkId(id)) {
        Some(text) => text.len() == count && reply.starts_with(text.as_slice()),
        None => false,
    }
}

// Whether just that session was closed.
fn is_closed_alone(alloc: Global, links: &MemLinks, id: u64) -> bool {
    match closed(alloc, links) {
        Some(ids) => ids.as_slice() == [LinkId(id)].as_slice(),
        None => false,
    }
}

// Whether root's session ends behind so many bytes, and joe's goes on.
fn root_ends(alloc: Global, faults: Faults, count: usize) -> Option<bool> {
    let links = served(alloc, faults, NONE)?;
    let ends = is_closed_alone(alloc, &links, 0);
    let front = was_sent_front(alloc, &links, 0, DENIED, count);
    Some(ends && front && was_sent(alloc, &links, 1, RULES))
}

// Whether joe's session ends behind so many bytes, and root's goes on.
fn joe_ends(alloc: Global, faults: Faults, count: usize) -> Option<bool> {
    let links = served(alloc, NONE, faults)?;
    let ends = is_closed_alone(alloc, &links, 1);
    let front = was_sent_front(alloc, &links, 1, RULES, count);
    Some(ends && front && was_sent(alloc, &links, 0, DENIED))
}

#[test]
fn a_failed_read_ends_its_session_alone(rt: HostRuntime) {
    let alloc = rt.alloc();
    for place in 0..3usize {
        let faults = Faults {
            read: place,
            ..NONE
        };
        assert!(rt; root_ends(alloc, faults, 0) == Some(true));
        assert!(rt; joe_ends(alloc, faults, 0) == Some(true));
    }
}

#[test]
fn a_failed_write_ends_its_session_alone(rt: HostRuntime) {
    let alloc = rt.alloc();
    for place in 0..4usize {
        let faults = Faults {
            write: place,
            ..NONE
        };
        assert!(rt; root_ends(alloc, faults, 8 * place) == Some(true));
        assert!(rt; joe_ends(alloc, faults, 8 * place) == Some(true));
    }
}

// Whether root, with that number, and joe, with that one, are sent their replies.
fn are_served(alloc: Global, links: &MemLinks, root: u64, joe: u64) -> bool {
    was_sent(alloc, links, root, DENIED) && was_sent(alloc, links, joe, RULES)
}

// Whether both are served, though an accept fails before root comes, or behind.
fn is_accepted_again(alloc: Global, place: usize, root: u64, joe: u64) -> Option<bool> {
    let faults = Faults {
        accept: place,
        ..NONE
    };
    let at_root = served(alloc, faults, NONE)?;
    let at_joe = served(alloc, NONE, faults)?;
    Some(are_served(alloc, &at_root, root, joe) && are_served(alloc, &at_joe, 0, 1))
}

#[test]
fn a_failed_accept_is_tried_again(rt: HostRuntime) {
    let alloc = rt.alloc();
    assert!(rt; is_accepted_again(alloc, 0, 1, 0) == Some(true));
    assert!(rt; is_accepted_again(alloc, 1, 0, 1) == Some(true));
}

// One byte, and then a wait, again and again.
fn slow_writes(alloc: Global, count: u32) -> Option<Script<WriteItem>> {
    let mut items = VecDeque::new(alloc);
    for i in 0..count {
        items.push_back(WriteItem::Takes(1)).ok()?;
        items.push_back(WriteItem::Wait).ok()?;
    }
    Some(Script::new(items))
}

// Whether a reader of a byte a turn is sent so many in as many turns, and the other all at once.
fn is_slow(alloc: Global, count: usize) -> Option<bool> {
    let reads = reads(alloc, &ORDER, NEVER)?;
    let slow = Peer::new(alloc, reads, slow_writes(alloc, 40)?);
    let other = peer(alloc, &QUESTION, NEVER, NEVER)?;
    let first = arrival(alloc, slow, NEVER)?;
    let mut links = links(alloc, first, arrival(alloc, other, NEVER)?)?;
    let done = serves(alloc, &mut links, count as u64)?;
    let front = was_sent_front(alloc, &links, 0, DENIED, count);
    Some(done && front && was_sent(alloc, &links, 1, RULES))
}

#[test]
fn a_reader_of_a_byte_a_turn_delays_no_other(rt: HostRuntime) {
    let alloc = rt.alloc();
    assert!(rt; is_slow(alloc, 1) == Some(true));
    assert!(rt; is_slow(alloc, 2) == Some(true));
    assert!(rt; is_slow(alloc, DENIED.len()) == Some(true));
}
