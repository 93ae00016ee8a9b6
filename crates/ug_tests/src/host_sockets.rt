// Sockets of this machine, with both ends in one process.
use crate::folders::{holds, make_folder, put, remove_folder};
use std::fs;
use std::os::unix::fs::{FileTypeExt, MetadataExt};
use std::os::unix::net::{UnixListener, UnixStream};
use std::time::Instant;
use ug_links::{
    Accepted, Dialled, Link, LinkId, LinkRead, LinkWrote, Links, Listening, Ready, Waiter, Woken,
};
use ug_sockets::{Reached, SocketFolder, SocketLink, SocketWaiter};
use ug_types::{Principal, Put, Taken};

pub type Sockets = SocketFolder<HostRuntime>;

pub type Wait = SocketWaiter<HostRuntime>;

type Client = SocketLink<HostRuntime>;

/// A waiter and its sockets, in a folder that isn't there yet.
pub fn open(rt: &HostRuntime, run: &str) -> Option<(Wait, Sockets)> {
    let alloc = rt.alloc();
    let announced = String::from_str(alloc, "out/no-uevent_seqnum").ok()?;
    let run = String::from_str(alloc, run).ok()?;
    let waiter = SocketWaiter::new(*rt, alloc, announced).ok()?;
    let sockets = SocketFolder::new(*rt, alloc, run, &waiter).ok()?;
    Some((waiter, sockets))
}

// What listening for that principal answers.
fn listen(rt: &HostRuntime, sockets: &mut Sockets, name: &[u8]) -> Option<Listening> {
    let principal = Principal::parse(name)?;
    Some(sockets.listen(rt.alloc(), &principal))
}

/// Whether that principal is listened for, by that number.
pub fn listens_for(rt: &HostRuntime, sockets: &mut Sockets, name: &[u8], number: u32) -> bool {
    matches!(listen(rt, sockets, name), Some(Listening::Ready(at)) if at == number)
}

fn fails_to_listen(rt: &HostRuntime, sockets: &mut Sockets, name: &[u8]) -> bool {
    matches!(listen(rt, sockets, name), Some(Listening::Failed))
}

// Whether the tokens of a wait are these, and it takes about so long.
fn waited(rt: &HostRuntime, waiter: &mut Wait, wanted: &[Ready], slow: bool) -> Option<bool> {
    let mut ready = [Ready::Listener(9); 256];
    let start = Instant::now(rt).ok()?;
    let woken = waiter.wait(&mut ready);
    let millis = start.elapsed(rt).ok()?.as_millis();
    let in_time = if slow { millis >= 900 } else { millis < 500 };
    let is_told = matches!(woken, Woken::Got(count) if count == wanted.len());
    Some(in_time && is_told && ready.starts_with(wanted))
}

// Whether a wait tells of that at once.
fn tells_of(rt: &HostRuntime, waiter: &mut Wait, ready: Ready) -> bool {
    waited(rt, waiter, &[ready], false) == Some(true)
}

// Whether a wait looks once and tells of nothing, or takes its second.
fn tells_nothing(rt: &HostRuntime, waiter: &mut Wait, slow: bool) -> bool {
    waited(rt, waiter, &[], slow) == Some(true)
}

fn reads(sockets: &mut Sockets, id: LinkId, wanted: &[u8]) -> bool {
    let mut piece = [0u8; 4];
    match sockets.read(id, &mut piece) {
        LinkRead::Took(n) => &piece[..n] == wanted,
        _ => false,
    }
}

fn read_answers(sockets: &mut Sockets, id: LinkId, wanted: LinkRead) -> bool {
    sockets.read(id, &mut [0u8; 4]) == wanted
}

fn write_answers(sockets: &mut Sockets, id: LinkId, wanted: LinkWrote) -> bool {
    sockets.write(id, b"ok\n") == wanted
}

fn sends(link: &mut Client, bytes: &[u8]) -> bool {
    link.send(bytes) == Put::Done
}

fn receives(link: &mut Client, wanted: &[u8]) -> bool {
    let mut piece = [0u8; 64];
    match link.receive(&mut piece) {
        Taken::Bytes(n) => &piece[..n] == wanted,
        _ => false,
    }
}

fn is_private(rt: &HostRuntime, path: &str) -> bool {
    match fs::symlink_metadata(rt, path) {
        Ok(file) => file.file_type().is_socket() && file.mode() & 0o7777 == 0o600,
        Err(_) => false,
    }
}

// A link that has dialled.
fn dialled(rt: &HostRuntime, path: &str) -> Option<Client> {
    let mut link = SocketLink::new(*rt);
    match link.dial(rt.alloc(), path.as_bytes()) {
        Dialled::Ready => Some(link),
        Dialled::Failed | Dialled::Memory => None,
    }
}

fn accepted(rt: &HostRuntime, sockets: &mut Sockets) -> Option<LinkId> {
    match sockets.accept(rt.alloc(), 0) {
        Accepted::Session(id) => Some(id),
        _ => None,
    }
}

fn nobody_comes(rt: &HostRuntime, sockets: &mut Sockets) -> bool {
    matches!(sockets.accept(rt.alloc(), 0), Accepted::NotYet)
}

// Two principals are listened for, each at a file of its own.
fn listens(rt: &HostRuntime, sockets: &mut Sockets) -> bool {
    listens_for(rt, sockets, b"root", 0) && listens_for(rt, sockets, b":wheel", 1)
}

const SOCKET: &str = "out/sockets/run/root.socket";

// The client's bytes come in pieces.
fn client_is_read(rt: &HostRuntime, waiter: &mut Wait, sockets: &mut Sockets, id: LinkId) -> bool {
    tells_of(rt, waiter, Ready::Session(id))
        && reads(sockets, id, b"watc")
        && tells_of(rt, waiter, Ready::Session(id))
        && reads(sockets, id, b"h\n")
        && read_answers(sockets, id, LinkRead::NotYet)
}

// The client has gone, and its session is closed.
fn client_goes(rt: &HostRuntime, waiter: &mut Wait, sockets: &mut Sockets, id: LinkId) -> bool {
    let ended = tells_of(rt, waiter, Ready::Session(id))
        && read_answers(sockets, id, LinkRead::End)
        && write_answers(sockets, id, LinkWrote::Failed);
    sockets.close(id);
    ended && read_answers(sockets, id, LinkRead::Failed)
}

#[test]
fn a_session_over_a_socket(rt: HostRuntime) {
    assert!(rt; make_folder(&rt, "out/sockets"));
    let (mut waiter, mut sockets) = open(&rt, "out/sockets/run").expect(&rt, "no sockets");
    assert!(rt; listens(&rt, &mut sockets));
    assert!(rt; is_private(&rt, SOCKET));
    assert!(rt; is_private(&rt, "out/sockets/run/:wheel.socket"));
    assert!(rt; nobody_comes(&rt, &mut sockets));
    assert!(rt; tells_nothing(&rt, &mut waiter, false));
    let mut link = dialled(&rt, SOCKET).expect(&rt, "not dialled");
    assert!(rt; tells_of(&rt, &mut waiter, Ready::Listener(0)));
    let id = accepted(&rt, &mut sockets).expect(&rt, "not accepted");
    assert!(rt; nobody_comes(&rt, &mut sockets));
    assert!(rt; read_answers(&mut sockets, id, LinkRead::NotYet));
    assert!(rt; sends(&mut link, b"watch\n"));
    assert!(rt; client_is_read(&rt, &mut waiter, &mut sockets, id));
    assert!(rt; tells_nothing(&rt, &mut waiter, true));
    assert!(rt; write_answers(&mut sockets, id, LinkWrote::Sent(3)));
    assert!(rt; receives(&mut link, b"ok\n"));
    drop(link);
    assert!(rt; client_goes(&rt, &mut waiter, &mut sockets, id));
    assert!(rt; sockets.faults() == 2 && waiter.faults() == 0);
    assert!(rt; remove_folder(&rt, "out/sockets"));
}

// Writes until the peer takes no more, and tells how many bytes it took.
fn fill(sockets: &mut Sockets, id: LinkId) -> Option<usize> {
    let piece = [b'x'; 4096];
    let mut sent = 0usize;
    for _ in 0..10_000 {
        match sockets.write(id, &piece) {
            LinkWrote::Sent(n) => sent = sent.saturating_add(n),
            LinkWrote::NotYet => return Some(sent),
            LinkWrote::Failed => return None,
        }
    }
    None
}

// Takes so many bytes.
fn takes(link: &mut Client, bytes: usize) -> bool {
    let mut piece = [0u8; 4096];
    let mut taken = 0usize;
    for _ in 0..10_000 {
        match link.receive(&mut piece) {
            Taken::Bytes(n) => taken = taken.saturating_add(n),
            Taken::End | Taken::Failed => return false,
        }
        if taken >= bytes {
            return taken == bytes;
        }
    }
    false
}

const FULL: &str = "out/full/run/root.socket";

#[test]
fn a_full_socket_is_told_when_it_has_room(rt: HostRuntime) {
    assert!(rt; make_folder(&rt, "out/full"));
    let (mut waiter, mut sockets) = open(&rt, "out/full/run").expect(&rt, "no sockets");
    assert!(rt; listens(&rt, &mut sockets));
    let mut link = dialled(&rt, FULL).expect(&rt, "not dialled");
    let id = accepted(&rt, &mut sockets).expect(&rt, "not accepted");
    assert!(rt; tells_nothing(&rt, &mut waiter, false));
    let sent = fill(&mut sockets, id).expect(&rt, "a failed write");
    assert!(rt; tells_nothing(&rt, &mut waiter, true));
    assert!(rt; takes(&mut link, sent));
    assert!(rt; tells_of(&rt, &mut waiter, Ready::Session(id)));
    assert!(rt; write_answers(&mut sockets, id, LinkWrote::Sent(3)));
    assert!(rt; sockets.faults() == 0);
    assert!(rt; remove_folder(&rt, "out/full"));
}

const LEFT: &str = "out/places/run/root.socket";

const OTHER: &str = "out/places/run/:wheel.socket";

// A socket at which nobody listens any more.
fn leaves_socket(rt: &HostRuntime, path: &str) -> bool {
    let bound = UnixListener::bind(rt, path).is_ok();
    bound && UnixStream::connect(rt, path).is_err()
}

// A daemon more finds the socket taken.
fn second_fails(rt: &HostRuntime) -> Option<bool> {
    let (_waiter, mut second) = open(rt, "out/places/run")?;
    Some(fails_to_listen(rt, &mut second, b"root") && second.faults() == 1)
}

#[test]
fn what_stands_in_a_sockets_place(rt: HostRuntime) {
    assert!(rt; make_folder(&rt, "out/places/run"));
    assert!(rt; leaves_socket(&rt, LEFT));
    assert!(rt; put(&rt, OTHER, b"kept"));
    let (_waiter, mut sockets) = open(&rt, "out/places/run").expect(&rt, "no sockets");
    assert!(rt; listens_for(&rt, &mut sockets, b"root", 0));
    assert!(rt; is_private(&rt, LEFT));
    assert!(rt; fails_to_listen(&rt, &mut sockets, b":wheel"));
    assert!(rt; holds(&rt, OTHER, b"kept"));
    assert!(rt; second_fails(&rt) == Some(true));
    assert!(rt; sockets.faults() == 1);
    let id = accepted(&rt, &mut sockets).expect(&rt, "not accepted");
    assert!(rt; read_answers(&mut sockets, id, LinkRead::End));
    assert!(rt; dialled(&rt, LEFT).is_some());
    assert!(rt; remove_folder(&rt, "out/places"));
}

fn fails_to_send(link: &mut Client) -> bool {
    link.send(b"x") == Put::Failed && link.faults() == 1
}

fn fails_to_receive(link: &mut Client) -> bool {
    matches!(link.receive(&mut [0u8; 4]), Taken::Failed) && link.faults() == 2
}

fn fails_to_dial(rt: &HostRuntime, link: &mut Client, path: &[u8]) -> bool {
    link.dial(rt.alloc(), path) == Dialled::Failed && link.faults() == 3
}

fn is_refused_at(link: &Client, path: &[u8]) -> bool {
    matches!(link.reached(), Reached::Refused(2)) && link.path() == Some(path)
}

#[test]
fn a_link_that_fails(rt: HostRuntime) {
    let path = b"out/missing/root.socket";
    assert!(rt; make_folder(&rt, "out/missing"));
    let mut link = SocketLink::new(rt);
    assert!(rt; fails_to_send(&mut link));
    assert!(rt; fails_to_receive(&mut link));
    assert!(rt; fails_to_dial(&rt, &mut link, path));
    assert!(rt; is_refused_at(&link, path));
    assert!(rt; remove_folder(&rt, "out/missing"));
}
