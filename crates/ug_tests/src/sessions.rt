// A session over sockets in memory, whose request comes in two pieces.
use std::alloc::Global;
use std::collections::VecDeque;
use ug_acl::{Acl, Grants, parse_access};
use ug_links::{
    Arrival, LinkId, LinkStep, LinkWrote, Links, Listening, MemLinks, Peer, ReadItem, Ready,
    Script, WriteItem,
};
use ug_sessions::{Server, Turn};
use ug_types::{List, Principal, Section, Text};

fn peer(alloc: Global) -> Option<Peer> {
    let mut reads = VecDeque::new(alloc);
    let front = Text::of(alloc, b"list-dev").ok()?;
    reads.push_back(ReadItem::Piece(front)).ok()?;
    reads.push_back(ReadItem::Wait).ok()?;
    let rest = Text::of(alloc, b"ices\nwatch\n").ok()?;
    reads.push_back(ReadItem::Piece(rest)).ok()?;
    let mut writes = VecDeque::new(alloc);
    writes.push_back(WriteItem::Takes(3)).ok()?;
    Some(Peer::new(alloc, Script::new(reads), Script::new(writes)))
}

fn links(alloc: Global) -> Option<MemLinks> {
    let mut arrivals = VecDeque::new(alloc);
    arrivals.push_back(Arrival::Comes(peer(alloc)?)).ok()?;
    let mut scripts = Vec::new(alloc);
    scripts.push(Script::new(arrivals)).ok()?;
    Some(MemLinks::new(alloc, Script::new(VecDeque::new(alloc)), scripts))
}

fn server(alloc: Global) -> Option<Server> {
    let mut principals = List::new(alloc);
    principals.push(Principal::parse(b"joe")?).ok()?;
    if principals.as_slice().len() != 1 {
        return None;
    }
    Some(Server::new(alloc, principals))
}

fn acl(alloc: Global) -> Option<Acl> {
    let mut acl = Acl::new(alloc);
    let grants: Grants = parse_access(alloc, b"Devices=listen").ok()?;
    acl.add(Principal::parse(b"joe")?, &grants).ok()?;
    Some(acl)
}

// Whether the next request is that line of the first session.
fn is_next(server: &mut Server, line: &[u8]) -> bool {
    match server.next_request() {
        Some((id, _, text)) => id.0 == 0 && text.bytes() == line,
        None => false,
    }
}

fn is_none_next(server: &mut Server) -> bool {
    server.next_request().is_none()
}

// The bytes of the last writing, where all of them were sent.
fn is_last_sent(links: &MemLinks, wanted: &[u8]) -> bool {
    let mut last = false;
    for step in links.calls() {
        if let LinkStep::WroteTo(_, bytes, LinkWrote::Sent(n)) = step {
            last = bytes.bytes() == wanted && *n == wanted.len();
        }
    }
    last
}

fn only_ended() -> Turn {
    let mut turn = Turn::new();
    turn.ended = 1;
    turn
}

#[test]
fn serves_a_session(rt: HostRuntime) {
    let alloc = rt.alloc();
    let mut links = links(alloc).expect(&rt, "memory");
    let mut server = server(alloc).expect(&rt, "memory");
    let acl = acl(alloc).expect(&rt, "memory");
    let joe = Principal::parse(b"joe").expect(&rt, "a name");
    assert!(rt; matches!(links.listen(alloc, &joe), Listening::Ready(0)));

    assert!(rt; server.turn(&[], &mut links).accepted == 1);
    assert!(rt; is_none_next(&mut server));
    assert!(rt; server.turn(&[], &mut links) == Turn::new());
    assert!(rt; is_none_next(&mut server));
    let named = [Ready::Session(LinkId(0))];
    assert!(rt; server.turn(&named, &mut links) == Turn::new());

    assert!(rt; is_next(&mut server, b"list-devices"));
    server.answer(LinkId(0), b"ok 0\n");
    server.notify(&acl, Section::Devices, b"! too early\n");
    assert!(rt; is_next(&mut server, b"watch"));
    assert!(rt; server.flush(&mut links) == Turn::new());
    server.answer(LinkId(0), b"ok 0\n");
    server.watch(LinkId(0));
    server.notify(&acl, Section::Policy, b"! not allowed\n");
    server.notify(&acl, Section::Devices, b"! gone 1\n");
    assert!(rt; is_none_next(&mut server));

    assert!(rt; server.flush(&mut links) == only_ended());
    assert!(rt; is_last_sent(&links, b"ok 0\n! gone 1\n"));
    assert!(rt; !links.ran_out());
}
