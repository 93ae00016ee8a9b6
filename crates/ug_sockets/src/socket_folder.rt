// The daemon's sockets in a folder of this machine.
ghost use Rattle.std.specs.Prelude.{◌≡◌, ◌<◌, ◌≤◌, ◌+◌, ◌-◌, ◌^◌, ◌++◌, ◌∷◌, [], length, map, position, true, None, IfOk, IfSome, vec_capacity};
ghost use Rattle.ug_types.specs.Ends.{IsCounted, Rose};
ghost use Rattle.ug_links.specs.Steps.{FitsRead, FitsWrite};
ghost use Rattle.ug_sockets.specs.Sockets.{is_session_open};
ghost use Rattle.ug_files.specs.Untold.{untold};

use crate::listener::{
    Arrival, Listener, count_others, find_listener, listen_told, note_full, path_of, watch_at,
    watch_full, watch_later,
};
use crate::pace::{Pace, count_ends, lines_of, lines_of_session, moment};
use crate::peer::Peer;
use crate::places::{Place, count_at, find_place};
use crate::socket_waiter::SocketWaiter;
use crate::tokens::FIRST_SESSION;
use mio::Registry;
use mio::net::UnixListener;
use std::alloc::Global;
use std::io;
use std::net::Net;
use std::rt::Files;
use std::time::{Clock, Instant};
use ug_files::FileFault;
use ug_links::{Accepted, LinkId, LinkRead, LinkWrote, Links, Listening};
use ug_types::Principal;

/// How many newcomers are turned away by one call.
const TURNED_AWAY: u32 = 64;

/// The id of a client that was turned away.
const NOBODY: LinkId = LinkId(0);

/// Unix sockets in a folder, each named by its principal's text and `.socket`. What they answer is told by the machine alone.
///
/// The folder is made where it is missing, with mode 0700, and a socket with mode 0600: owner and mode of both are the
/// administrator's to give. A socket that a dead daemon left is replaced; one at which a program listens is not.
///
/// No call waits for a peer. A session to which a descriptor was sent fails, and its stream is neither read nor closed. It keeps its place
/// for a minute, and its stream for good; of these there are at most 16,384, and each listener has its share of them.
///
/// Each listener has places of its own: 16, or its share of 56 where all but root's together would have more; root has what is left of 64,
/// 8 at least. Beyond 56 listeners those that are full share them. A newcomer that finds no place is turned away at once. Where a session of
/// that listener was idle for a minute, that one ends, and the newcomer waits for its place.
///
/// In 240 milliseconds the listeners other than root's have 40 lines, each its share, and each session its share of that, one at
/// least. What is sent beyond that is left where it is, and no wait ends at once for it.
#[derive(Drop)]
pub struct SocketFolder<R> {
    rt: R,
    alloc: Global,
    registry: Registry,
    folder: String,
    last: Option<String>,
    listeners: Vec<Listener>,
    peers: Vec<Peer>,
    pace: Pace,
    /// The place of the next kept stream to look at again.
    looked: usize,
    next: u64,
    faults: u64,
}

impl<R: Files + Net + Copy> SocketFolder<R> {
    /// No socket yet. The waiter will wait for those that come.
    pub fn new(
        rt: R,
        alloc: Global,
        folder: String,
        waiter: &SocketWaiter<R>,
    ) -> io::Result<SocketFolder<R>>
        ensures { IfOk result (λ sockets. sockets.faults ≡ 0) }
    {
        Ok(SocketFolder {
            rt,
            alloc,
            registry: waiter.registry()?,
            folder,
            last: None,
            listeners: Vec::new(alloc),
            peers: Vec::new(alloc),
            pace: Pace::new(),
            looked: 0,
            next: FIRST_SESSION,
            faults: 0,
        })
    }
}

impl<R: Files + Net + Clock> SocketFolder<R> {
    /// The path of a socket that couldn't be had; else the folder's.
    pub fn last_path(&self) -> &str {
        match &self.last {
            Some(path) => path.as_str(),
            None => self.folder.as_str(),
        }
    }

    // A failure more, if it is one.
    fn count(&mut self, failed: bool)
        ensures counted { IsCounted self.old.faults self.new.faults }
        ensures cause { failed ≡ true → Rose self.old.faults self.new.faults }
    {
        if failed {
            self.faults = self.faults.saturating_add(1);
        }
    }

    // Begins a listener at a socket, and keeps it where there is room.
    #[tactic(auto, using(crate::proofs::Looked::one_more_principal))]
    fn begin_listener(
        &mut self,
        number: u32,
        principal: &Principal,
        socket: UnixListener,
    ) -> Result<u32, FileFault>
        requires { length self.old.listeners.items < vec_capacity self.old.listeners }
        ensures number { IfOk result (λ n. n ≡ number) }
        ensures listener { IfOk result (λ n.
            map (λ l. l.principal) self.new.listeners.items
            ≡ map (λ l. l.principal) self.old.listeners.items ++ principal.now ∷ []) }
        ensures faults { self.new.faults ≡ self.old.faults }
    {
        let listener = Listener::begin(number, principal, socket, &self.registry)?;
        self.listeners.push_reserved(listener);
        Ok(number)
    }

    fn listen_for(&mut self, alloc: Global, principal: &Principal) -> Result<u32, FileFault>
        ensures number { IfOk result (λ number. number ≡ length self.old.listeners.items) }
        ensures listener { IfOk result (λ number.
            map (λ l. l.principal) self.new.listeners.items
            ≡ map (λ l. l.principal) self.old.listeners.items ++ principal.now ∷ []) }
        ensures faults { self.new.faults ≡ self.old.faults }
    {
        let Ok(number) = u32::try_from(self.listeners.len()) else {
            return Err(FileFault::Failed);
        };
        let folder = self.folder.as_str();
        let path = path_of(alloc, folder, principal)?;
        self.listeners.reserve(1)?;
        let socket = listen_told(&self.rt, alloc, folder, path, &mut self.last)?;
        self.begin_listener(number, principal, socket)
    }

    // Keeps the session of a client that came to the listener, as there is room for it.
    fn begin_session(
        &mut self,
        listener: u32,
        arrival: Arrival,
        next: u64,
    ) -> Result<Option<LinkId>, FileFault>
        requires { length self.old.peers.items < vec_capacity self.old.peers }
        ensures id { IfOk result (λ found. IfSome found (λ id. id.0 ≡ self.old.next)) }
        ensures next { self.new.next ≡ next }
        ensures faults { self.new.faults ≡ self.old.faults }
    {
        let id = LinkId(self.next);
        self.next = next;
        let mut peer = Peer::new(id, arrival, moment(&self.rt));
        let begun = peer.begin(&self.registry);
        self.peers.push_reserved(peer);
        begun?;
        watch_at(self.listeners.as_mut_slice(), listener, &self.registry);
        Ok(Some(id))
    }

    // Accepts the next client that waits at the listener.
    fn accept_next(&mut self, listener: u32) -> Result<Option<LinkId>, FileFault>
        ensures above { IfOk result (λ found. IfSome found (λ id. id.0 ≡ self.old.next)) }
        ensures next { IfOk result (λ found. IfSome found (λ id. self.new.next ≡ id.0 + 1)) }
        ensures grows { self.old.next ≤ self.new.next }
        ensures faults { self.new.faults ≡ self.old.faults }
    {
        let Some(at) = find_listener(self.listeners.as_slice(), listener) else {
            return Err(FileFault::Failed);
        };
        self.peers.reserve(1)?;
        let Some(next) = self.next.checked_add(1) else {
            return Err(FileFault::Failed);
        };
        match at.accept() {
            Ok(Some(arrival)) => self.begin_session(listener, arrival, next),
            Ok(None) => Ok(None),
            Err(fault) => Err(fault),
        }
    }

    fn accept_at(&mut self, listener: u32) -> Result<Option<LinkId>, FileFault>
        ensures above { IfOk result (λ found. IfSome found (λ id. id.0 ≡ self.old.next)) }
        ensures next { IfOk result (λ found. IfSome found (λ id. self.new.next ≡ id.0 + 1)) }
        ensures grows { self.old.next ≤ self.new.next }
        ensures faults { self.new.faults ≡ self.old.faults }
    {
        let now = moment(&self.rt);
        match find_place(
            self.listeners.as_slice(),
            self.peers.as_slice(),
            listener,
            now,
        ) {
            Place::Free => return self.accept_next(listener),
            Place::After(place) => self.shut(place),
            Place::Later => {}
            Place::Taken => return self.turn_away(listener),
        }
        watch_later(self.listeners.as_mut_slice(), listener, &self.registry);
        Ok(None)
    }

    // Has the session of that place end.
    fn shut(&mut self, place: usize)
        ensures faults { self.new.faults ≡ self.old.faults }
        ensures next { self.new.next ≡ self.old.next }
    {
        if let Some(peer) = self.peers.get_mut(place) {
            peer.shut(&self.registry);
        }
    }

    // Closes the connections of those that wait at the listener, up to one that can't be closed.
    fn turn_away(&mut self, listener: u32) -> Result<Option<LinkId>, FileFault>
        ensures none { IfOk result (λ found. found ≡ None) }
        ensures faults { self.new.faults ≡ self.old.faults }
        ensures next { self.new.next ≡ self.old.next }
    {
        for _ in 0..TURNED_AWAY {
            if !self.turns_away(listener)? {
                return Ok(None);
            }
        }
        watch_later(self.listeners.as_mut_slice(), listener, &self.registry);
        Ok(None)
    }

    // Closes the connection of the next that waits at the listener, and tells whether there may be another.
    fn turns_away(&mut self, listener: u32) -> Result<bool, FileFault>
        ensures faults { self.new.faults ≡ self.old.faults }
        ensures next { self.new.next ≡ self.old.next }
    {
        let Some(at) = find_listener(self.listeners.as_slice(), listener) else {
            return Err(FileFault::Failed);
        };
        self.peers.reserve(1)?;
        match at.accept() {
            Ok(Some(arrival)) => {
                let mut peer = Peer::new(NOBODY, arrival, moment(&self.rt));
                peer.end(&self.registry);
                let done = peer.is_done(&self.rt, self.alloc);
                if !done {
                    self.peers.push_reserved(peer);
                    watch_later(self.listeners.as_mut_slice(), listener, &self.registry);
                }
                Ok(done)
            }
            Ok(None) => Ok(false),
            Err(fault) => Err(fault),
        }
    }

    // Ends the session of that place, whose stream is closed unless it bears a descriptor.
    fn end_at(&mut self, place: usize, now: Option<Instant>)
        ensures faults { self.new.faults ≡ self.old.faults }
    {
        let Some(peer) = self.peers.get_mut(place) else {
            return;
        };
        peer.end(&self.registry);
        peer.touched = now;
        self.close_if_done(place);
    }

    fn close_if_done(&mut self, place: usize)
        ensures faults { self.new.faults ≡ self.old.faults }
    {
        if place < self.peers.len() && self.peers[place].is_done(&self.rt, self.alloc) {
            drop(self.peers.remove(place));
        }
    }

    // Looks whether one stream that was kept can be closed by now: another by each call.
    fn look_again(&mut self)
        ensures faults { self.new.faults ≡ self.old.faults }
    {
        if self.looked >= self.peers.len() {
            self.looked = 0;
        }
        self.close_if_done(self.looked);
        self.looked = self.looked.saturating_add(1);
    }

    // How many lines more a session may send now.
    fn lines_left(&mut self, place: usize) -> usize
        ensures faults { self.new.faults ≡ self.old.faults }
        ensures next { self.new.next ≡ self.old.next }
        ensures peers { self.new.peers ≡ self.old.peers }
    {
        let now = moment(&self.rt);
        self.pace.renew(now);
        let Some(peer) = self.peers.get(place) else {
            return 0;
        };
        let Some(at) = find_listener(self.listeners.as_slice(), peer.listener) else {
            return 0;
        };
        if at.is_roots() {
            return usize::MAX;
        }
        let others = count_others(self.listeners.as_slice());
        let sessions = count_at(self.peers.as_slice(), peer.listener, now);
        let slice = self.pace.slice;
        let of_all = lines_of(others, sessions).saturating_sub(at.sent.lines_in(slice));
        let own = lines_of_session(others, sessions).saturating_sub(peer.sent.lines_in(slice));
        own.min(of_all)
    }

    // So many lines of a session were taken.
    fn count_lines(&mut self, place: usize, lines: usize)
        ensures faults { self.new.faults ≡ self.old.faults }
        ensures next { self.new.next ≡ self.old.next }
    {
        let slice = self.pace.slice;
        let Some(peer) = self.peers.get_mut(place) else {
            return;
        };
        if lines > 0 {
            peer.touched = moment(&self.rt);
        }
        peer.sent.add(slice, lines);
        if let Some(at) = self.listeners.get_mut(peer.listener as usize) {
            at.sent.add(slice, lines);
        }
    }

    // Reads what the session of that place may send now.
    fn read_at(&mut self, place: usize, into: &mut [u8]) -> LinkRead
        requires room { 0 < length into.old }
        ensures size { FitsRead (length into.old) result }
        ensures length { length into.new ≡ length into.old }
        ensures faults { self.new.faults ≡ self.old.faults }
    {
        let lines = self.lines_left(place);
        let Some(peer) = self.peers.get_mut(place) else {
            return LinkRead::Failed;
        };
        if lines == 0 {
            peer.hold_back(&self.registry);
            return LinkRead::NotYet;
        }
        let answer = peer.read(&self.rt, self.alloc, &self.registry, lines, into);
        if let LinkRead::Took(n) = answer {
            self.count_lines(place, count_ends(&into[..n]));
        }
        answer
    }
}

// The place of a session that isn't over.
fn place_of(peers: &[Peer], id: LinkId) -> Option<usize>
    ensures { result ≡ position (is_session_open id) peers.now }
{
    for place in 0..peers.len() {
        if peers[place].is_open(id) {
            return Some(place);
        }
    }
    None
}

// A session that isn't over.
#[tactic(auto, using(crate::proofs::Looked::open_at))]
fn open_peer(peers: &mut [Peer], id: LinkId) -> Option<&mut Peer>
    ensures { IfSome result (λ peer. is_session_open id peer.now ≡ true) }
{
    match place_of(peers, id) {
        Some(i) => Some(&mut peers[i]),
        None => None,
    }
}

impl<R: Files + Net + Clock> Links for SocketFolder<R> {
    ghost gives = { λ s step t. Unit {0} };

    ghost told = { λ s. None };

    ghost faults = { λ s. s.faults };

    ghost tells = { λ s step t after gives told. untold after told };

    fn listen(&mut self, alloc: Global, principal: &Principal) -> Listening {
        let answer = match self.listen_for(alloc, principal) {
            Ok(number) => Listening::Ready(number),
            Err(FileFault::Memory) => Listening::Memory,
            Err(_) => Listening::Failed,
        };
        self.count(matches!(answer, Listening::Failed));
        answer
    }

    fn accept(&mut self, _alloc: Global, listener: u32) -> Accepted {
        let answer = match self.accept_at(listener) {
            Ok(Some(id)) => Accepted::Session(id),
            Ok(None) => Accepted::NotYet,
            Err(FileFault::Memory) => Accepted::Memory,
            Err(_) => Accepted::Failed,
        };
        if matches!(answer, Accepted::Memory | Accepted::Failed) {
            note_full(self.listeners.as_mut_slice(), listener);
        }
        self.count(matches!(answer, Accepted::Failed));
        answer
    }

    fn read(&mut self, id: LinkId, into: &mut [u8]) -> LinkRead {
        let answer = match place_of(self.peers.as_slice(), id) {
            Some(place) => self.read_at(place, into),
            None => LinkRead::Failed,
        };
        self.count(matches!(answer, LinkRead::Failed));
        answer
    }

    fn write(&mut self, id: LinkId, bytes: &[u8]) -> LinkWrote {
        let now = moment(&self.rt);
        let answer = match open_peer(&mut self.peers, id) {
            Some(peer) => peer.write(&self.registry, now, bytes),
            None => LinkWrote::Failed,
        };
        self.count(matches!(answer, LinkWrote::Failed));
        answer
    }

    fn close(&mut self, id: LinkId) {
        let now = moment(&self.rt);
        if let Some(place) = place_of(self.peers.as_slice(), id) {
            self.end_at(place, now);
        }
        self.look_again();
        watch_full(self.listeners.as_mut_slice(), &self.registry);
    }

    fn faults(&self) -> u64 {
        self.faults
    }
}
