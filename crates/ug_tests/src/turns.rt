// Turns of the daemon over sockets in memory.
use crate::devices::hub_and_key;
use rand_chacha::ChaCha20Rng;
use rand_core::SeedableRng;
use std::alloc::Global;
use std::collections::VecDeque;
use ug_acl::{Acl, parse_access};
use ug_audit::Panel;
use ug_cond::FixedZone;
use ug_conf::default_settings;
use ug_core::Daemon;
use ug_links::{
    Arrival, LinkId, LinkStep, LinkWrote, Links, ListClock, ListWaiter, Listening, MemLinks, Peer,
    ReadItem, Script,
};
use ug_serve::{TurnEnd, serve_turn};
use ug_sessions::Server;
use ug_store::MemDisk;
use ug_sysfs::SimKernel;
use ug_types::{List, Moment, Principal, Text};

/// What a read gives: that piece, or a wait.
pub fn read_item(alloc: Global, piece: Option<&[u8]>) -> Option<ReadItem> {
    match piece {
        Some(piece) => Some(ReadItem::Piece(Text::of(alloc, piece).ok()?)),
        None => Some(ReadItem::Wait),
    }
}

fn reads(alloc: Global, pieces: &[&[u8]]) -> Option<Script<ReadItem>> {
    let mut items = VecDeque::new(alloc);
    for i in 0..pieces.len() + 1 {
        let item = read_item(alloc, pieces.get(i).copied())?;
        items.push_back(item).ok()?;
    }
    Some(Script::new(items))
}

/// A session that sends these pieces, and then waits.
pub fn peer(alloc: Global, pieces: &[&[u8]]) -> Option<Peer> {
    let reads = reads(alloc, pieces)?;
    Some(Peer::new(alloc, reads, Script::new(VecDeque::new(alloc))))
}

/// One arrival, of that session.
pub fn one(alloc: Global, peer: Peer) -> Option<Script<Arrival>> {
    let mut arrivals = VecDeque::new(alloc);
    arrivals.push_back(Arrival::Comes(peer)).ok()?;
    Some(Script::new(arrivals))
}

fn named(name: &[u8]) -> Option<Principal> {
    Principal::parse(name)
}

// Whether root and joe are listened for.
fn listens(alloc: Global, links: &mut MemLinks) -> Option<bool> {
    let first = links.listen(alloc, &named(b"root")?);
    let second = links.listen(alloc, &named(b"joe")?);
    Some(matches!(first, Listening::Ready(0)) && matches!(second, Listening::Ready(1)))
}

/// Links that listen for root and for joe, with these arrivals.
pub fn links(alloc: Global, root: Script<Arrival>, joe: Script<Arrival>) -> Option<MemLinks> {
    let mut arrivals = Vec::new(alloc);
    arrivals.push(root).ok()?;
    arrivals.push(joe).ok()?;
    let listens_well = Script::new(VecDeque::new(alloc));
    let mut links = MemLinks::new(alloc, listens_well, arrivals);
    match listens(alloc, &mut links) {
        Some(true) => Some(links),
        _ => None,
    }
}

// Root and joe.
fn principals(alloc: Global) -> Option<List<Principal>> {
    let mut principals = List::new(alloc);
    for name in ["root", "joe"] {
        principals.push(named(name.as_bytes())?).ok()?;
    }
    Some(principals)
}

fn server(alloc: Global) -> Option<Server> {
    let principals = principals(alloc)?;
    if principals.as_slice().len() != 2 {
        return None;
    }
    Some(Server::new(alloc, principals))
}

fn add_access(alloc: Global, acl: &mut Acl, name: &[u8], grants: &[u8]) -> Option<()> {
    let grants = parse_access(alloc, grants).ok()?;
    acl.add(named(name)?, &grants).ok()
}

// Root may list devices, and joe may list rules.
fn access(alloc: Global) -> Option<Acl> {
    let mut acl = Acl::new(alloc);
    add_access(alloc, &mut acl, b"root", b"Devices=list")?;
    add_access(alloc, &mut acl, b"joe", b"Policy=list")?;
    Some(acl)
}

fn daemon(alloc: Global, disk: &mut MemDisk) -> Option<Daemon<FixedZone, ChaCha20Rng>> {
    let acl = access(alloc)?;
    let settings = default_settings(alloc).ok()?;
    let rng = ChaCha20Rng::from_seed([0; 32]);
    let folder = List::new(alloc);
    Daemon::start(alloc, settings, acl, rng, FixedZone::UTC, 1, folder, disk).ok()
}

// The daemon and all that it serves over but its links.
#[derive(Drop)]
struct World {
    daemon: Daemon<FixedZone, ChaCha20Rng>,
    server: Server,
    kernel: SimKernel,
    disk: MemDisk,
    waiter: ListWaiter,
    clock: ListClock,
    panel: Panel,
}

fn started(alloc: Global) -> Option<(MemDisk, Daemon<FixedZone, ChaCha20Rng>)> {
    let mut disk = MemDisk::with_text(alloc, b"allow 1050:0011\n").ok()?;
    let daemon = daemon(alloc, &mut disk)?;
    Some((disk, daemon))
}

/// A clock that stands.
pub fn clock(alloc: Global) -> Option<ListClock> {
    Some(ListClock::new(Vec::from_slice(alloc, &[Moment(100)]).ok()?))
}

// A hub and a key.
fn make_world(alloc: Global) -> Option<World> {
    let kernel = hub_and_key(alloc, false)?;
    let server = server(alloc)?;
    let clock = clock(alloc)?;
    let (disk, daemon) = started(alloc)?;
    Some(World {
        daemon,
        server,
        kernel,
        disk,
        waiter: ListWaiter::new(Vec::new(alloc)),
        clock,
        panel: Panel::new(Vec::new(alloc)),
    })
}

// Whether a turn is made.
fn turns(alloc: Global, world: &mut World, links: &mut MemLinks) -> bool {
    let end = serve_turn(
        alloc,
        &mut world.daemon,
        &mut world.server,
        &mut world.kernel,
        &mut world.disk,
        links,
        &mut world.waiter,
        &mut world.clock,
        &mut world.panel,
    );
    end == TurnEnd::Done
}

/// Whether so many turns are made over these links, with a hub and a key.
pub fn serves(alloc: Global, links: &mut MemLinks, count: u64) -> Option<bool> {
    let mut world = make_world(alloc)?;
    let mut all = true;
    for _ in 0..count {
        all = all && turns(alloc, &mut world, links);
    }
    Some(all && !links.ran_out())
}

// What a writing to the session sent, and nothing for any other step.
fn sent_by(step: &LinkStep, id: LinkId) -> &[u8] {
    match step {
        LinkStep::WroteTo(other, bytes, LinkWrote::Sent(n)) if *other == id => {
            bytes.bytes().get(..*n).unwrap_or(&[])
        }
        _ => &[],
    }
}

/// What a session was sent.
pub fn sent(alloc: Global, links: &MemLinks, id: LinkId) -> Option<Vec<u8>> {
    let mut text = Vec::new(alloc);
    for step in links.calls() {
        text.extend_from_slice(sent_by(step, id)).ok()?;
    }
    Some(text)
}

pub fn was_sent(alloc: Global, links: &MemLinks, id: u64, wanted: &[u8]) -> bool {
    match sent(alloc, links, LinkId(id)) {
        Some(text) => text.as_slice() == wanted,
        None => false,
    }
}

fn nobody(alloc: Global) -> Script<Arrival> {
    Script::new(VecDeque::new(alloc))
}

// Whether root, who sends these pieces, is told that its order is denied.
fn is_denied(alloc: Global, pieces: &[&[u8]]) -> Option<bool> {
    let root = one(alloc, peer(alloc, pieces)?)?;
    let mut links = links(alloc, root, nobody(alloc))?;
    let done = serves(alloc, &mut links, 2)?;
    let line = b"refused 2 denied Devices modify\n";
    Some(done && was_sent(alloc, &links, 0, line))
}

#[test]
fn an_order_is_denied(rt: HostRuntime) {
    let alloc = rt.alloc();
    assert!(rt; is_denied(alloc, &[b"allow-device 99\n"]) == Some(true));
}

#[test]
fn an_order_comes_cut_anywhere(rt: HostRuntime) {
    let alloc = rt.alloc();
    let order = b"allow-device 99\n";
    for place in 1..order.len() {
        let pieces = [&order[..place], &order[place..]];
        assert!(rt; is_denied(alloc, &pieces) == Some(true));
    }
}

// Two sessions that ask in one turn.
fn two(alloc: Global) -> Option<MemLinks> {
    let root = one(alloc, peer(alloc, &[b"allow-device 99\nlist-rules\n"])?)?;
    let joe = one(alloc, peer(alloc, &[b"list-rules\n"])?)?;
    let mut links = links(alloc, root, joe)?;
    if serves(alloc, &mut links, 1)? {
        Some(links)
    } else {
        None
    }
}

#[test]
fn each_session_is_sent_its_own_replies(rt: HostRuntime) {
    let alloc = rt.alloc();
    let links = two(alloc).expect(&rt, "two sessions");
    let denied = b"refused 2 denied Devices modify\nrefused 2 denied Policy list\n";
    assert!(rt; was_sent(alloc, &links, 0, denied));
    assert!(rt; was_sent(alloc, &links, 1, b"ok 1\n1: allow id 1050:0011\n"));
}

// Sessions that send nothing.
fn silent(alloc: Global, count: u32) -> Option<Script<Arrival>> {
    let mut arrivals = VecDeque::new(alloc);
    for i in 0..count {
        arrivals.push_back(Arrival::Comes(peer(alloc, &[])?)).ok()?;
    }
    Some(Script::new(arrivals))
}

/// The sessions that were closed.
pub fn closed(alloc: Global, links: &MemLinks) -> Option<Vec<LinkId>> {
    let mut ids = Vec::new(alloc);
    for step in links.calls() {
        if let LinkStep::Closed(id) = step {
            ids.push(*id).ok()?;
        }
    }
    Some(ids)
}

#[test]
fn the_session_behind_the_last_place_is_closed(rt: HostRuntime) {
    let alloc = rt.alloc();
    let many = silent(alloc, 65).expect(&rt, "memory");
    let mut links = links(alloc, many, nobody(alloc)).expect(&rt, "memory");
    assert!(rt; serves(alloc, &mut links, 2) == Some(true));
    let ids = closed(alloc, &links).expect(&rt, "memory");
    assert!(rt; ids.as_slice() == [LinkId(64)].as_slice());
}
