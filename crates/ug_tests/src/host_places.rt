// Places for sessions, and how much they may send: no user or group takes what others have.
use crate::folders::{make_folder, remove_folder};
use crate::host_sockets::{Sockets, listens_for, open};
use std::io::Write;
use std::os::unix::net::UnixStream;
use ug_links::{Accepted, LinkId, LinkRead, Links};

/// Who has a socket and where, and how many sessions each can have.
const NAMES: [(&str, &str, usize); 5] = [
    ("ann", ANN, 14),
    ("ben", "out/many/run/ben.socket", 14),
    ("cem", "out/many/run/cem.socket", 14),
    ("dan", "out/many/run/dan.socket", 14),
    ("root", "out/many/run/root.socket", 8),
];

const ANN: &str = "out/many/run/ann.socket";

/// The peers that have connected, and the first session.
#[derive(Drop)]
struct Crowd {
    peers: Vec<UnixStream>,
    first: Option<LinkId>,
}

impl Crowd {
    fn connect(&mut self, rt: &HostRuntime, path: &str) -> Option<()> {
        let peer = UnixStream::connect(rt, path).ok()?;
        self.peers.push(peer).ok()
    }
}

// Connects a peer, and tells whether it was accepted.
fn comes(
    rt: &HostRuntime,
    sockets: &mut Sockets,
    listener: u32,
    path: &str,
    crowd: &mut Crowd,
) -> Option<bool> {
    crowd.connect(rt, path)?;
    match sockets.accept(rt.alloc(), listener) {
        Accepted::Session(id) => {
            crowd.first = Some(crowd.first.unwrap_or(id));
            Some(true)
        }
        Accepted::NotYet => Some(false),
        _ => None,
    }
}

// Connects more peers than there are places, and tells how many were accepted.
fn fill(
    rt: &HostRuntime,
    sockets: &mut Sockets,
    listener: u32,
    path: &str,
    crowd: &mut Crowd,
) -> Option<usize> {
    let mut count = 0usize;
    for _ in 0..20 {
        if comes(rt, sockets, listener, path, crowd)? {
            count = count.saturating_add(1);
        }
    }
    Some(count)
}

fn listens_for_all(rt: &HostRuntime, sockets: &mut Sockets) -> bool {
    let mut number = 0u32;
    let mut all = true;
    for (name, _, _) in NAMES {
        all = all && listens_for(rt, sockets, name.as_bytes(), number);
        number = number.saturating_add(1);
    }
    all
}

// Fills the places of each in turn, and tells whether each finds as many as it is to.
fn fill_all(rt: &HostRuntime, sockets: &mut Sockets, crowd: &mut Crowd) -> bool {
    let mut number = 0u32;
    let mut all = true;
    for (_, path, places) in NAMES {
        all = all && fill(rt, sockets, number, path, crowd) == Some(places);
        number = number.saturating_add(1);
    }
    all
}

#[test]
fn each_finds_places_whoever_else_came(rt: HostRuntime) {
    assert!(rt; make_folder(&rt, "out/many"));
    let (_waiter, mut sockets) = open(&rt, "out/many/run").expect(&rt, "no sockets");
    let mut crowd = Crowd {
        peers: Vec::new(rt.alloc()),
        first: None,
    };
    assert!(rt; listens_for_all(&rt, &mut sockets));
    assert!(rt; fill_all(&rt, &mut sockets, &mut crowd));
    let first = crowd.first.expect(&rt, "no session");
    sockets.close(first);
    assert!(rt; comes(&rt, &mut sockets, 0, ANN, &mut crowd) == Some(true));
    assert!(rt; comes(&rt, &mut sockets, 0, ANN, &mut crowd) == Some(false));
    assert!(rt; sockets.faults() == 0);
    assert!(rt; remove_folder(&rt, "out/many"));
}

const FLOOD: &str = "out/flood/run/ann.socket";

// Whether a session that has sent a hundred lines is read forty of them, and then is held back.
fn is_held_back(rt: &HostRuntime, sockets: &mut Sockets) -> Option<bool> {
    let mut peer = UnixStream::connect(rt, FLOOD).ok()?;
    peer.write_all(&[b'\n'; 100]).ok()?;
    let Accepted::Session(id) = sockets.accept(rt.alloc(), 0) else {
        return None;
    };
    let mut piece = [0u8; 4096];
    let first = sockets.read(id, &mut piece);
    Some(first == LinkRead::Took(40) && sockets.read(id, &mut piece) == LinkRead::NotYet)
}

#[test]
fn a_flood_is_held_back(rt: HostRuntime) {
    assert!(rt; make_folder(&rt, "out/flood"));
    let (_waiter, mut sockets) = open(&rt, "out/flood/run").expect(&rt, "no sockets");
    assert!(rt; listens_for(&rt, &mut sockets, b"ann", 0));
    assert!(rt; is_held_back(&rt, &mut sockets) == Some(true));
    assert!(rt; remove_folder(&rt, "out/flood"));
}
