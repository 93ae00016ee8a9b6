// What listeners and sessions in memory go by.
ghost use Rattle.std.specs.Prelude.{◌≡◌, ◌<◌, length, IfOk};
ghost use Rattle.ug_links.specs.Steps.{reading_given, FitsRead, FitsWrite};
ghost use Rattle.ug_links.specs.Scripts.{listen_answer, scripts_after_listen, arrival_at, changed_at, accept_answer, scripts_after_accept, read_from_peer, scripts_after_read, written_to_peer, scripts_after_write};
ghost use Rattle.ug_links.specs.Planned.{unopened};
ghost use Rattle.ug_links.specs.Peers.{other_items, read_after, write_after};

use crate::links::{Accepted, LinkRead, LinkWrote, Listening};
use crate::peer::Peer;
use crate::script::Script;
use crate::waiter::LinkId;
use std::alloc::Global;
use std::marker::Model;
use ug_types::NoMemory;

/// What a listening meets. Past the script it succeeds.
#[derive(Clone, Copy)]
pub enum ListenItem {
    Opens,
    Fails,
}

/// What an accept meets. Past the script nothing comes.
#[derive(Drop)]
pub enum Arrival {
    Comes(Peer),
    Wait,
    Fail,
}

/// A script for listening and one for each listener, by its number; the other ends of the sessions that came, by their ids.
#[derive(Drop)]
pub struct Scripts {
    listens: Script<ListenItem>,
    arrivals: Vec<Script<Arrival>>,
    peers: Vec<Peer>,
    listening: u32,
}

impl Model for Scripts {
    ghost use Rattle.ug_links.specs.Planned.{Planned};

    ghost Value = { Planned };

    ghost view = { λ s. record {
      listens = s.listens;
      arrivals = s.arrivals.items;
      peers = s.peers.items;
      listening = s.listening;
    } };
}

fn next_arrival(arrivals: &mut [Script<Arrival>], listener: u32) -> Option<Arrival>
    ensures item { result ≡ arrival_at arrivals.old listener }
    ensures after { arrivals.new ≡ changed_at other_items listener arrivals.old }
{
    let i = listener as usize;
    if i >= arrivals.len() {
        return None;
    }
    let script = &mut arrivals[i];
    script.next()
}

fn read_peer(peers: &mut [Peer], id: LinkId, into: &mut [u8]) -> LinkRead
    requires room { 0 < length into.old }
    ensures size { FitsRead (length into.old) result }
    ensures answer { reading_given result into.new
        ≡ read_from_peer (length into.old) id.0 peers.old }
    ensures after { peers.new ≡ changed_at (read_after (length into.old)) id.0 peers.old }
{
    let i = id.0 as usize;
    if i >= peers.len() {
        return LinkRead::End;
    }
    let peer = &mut peers[i];
    peer.read(into)
}

fn write_peer(peers: &mut [Peer], id: LinkId, bytes: &[u8]) -> LinkWrote
    requires { 0 < length bytes.now }
    ensures size { FitsWrite (length bytes.now) result }
    ensures answer { result ≡ written_to_peer (length bytes.now) id.0 peers.old }
    ensures after { peers.new ≡ changed_at write_after id.0 peers.old }
{
    let i = id.0 as usize;
    if i >= peers.len() {
        return LinkWrote::Sent(bytes.len());
    }
    let peer = &mut peers[i];
    peer.write(bytes)
}

impl Scripts {
    /// Scripts, and no session yet. It takes no memory.
    pub fn new(
        alloc: Global,
        listens: Script<ListenItem>,
        arrivals: Vec<Script<Arrival>>,
    ) -> Scripts
        ensures { result ≡ unopened listens arrivals.items }
    {
        Scripts {
            listens,
            arrivals,
            peers: Vec::new(alloc),
            listening: 0,
        }
    }

    /// Opens the next listener, or fails where the next item does. There are at most 2^32 - 1 listeners.
    pub fn listen(&mut self) -> Listening
        ensures answer { result ≡ listen_answer self.old }
        ensures after { self.new ≡ scripts_after_listen self.old }
    {
        match self.listens.next() {
            Some(ListenItem::Fails) => return Listening::Failed,
            Some(ListenItem::Opens) => {}
            None => {}
        }
        let number = self.listening;
        if number == u32::MAX {
            return Listening::Failed;
        }
        self.listening = number + 1;
        Listening::Ready(number)
    }

    /// Takes the next arrival. A session's id is the number of sessions that came before it.
    pub fn accept(&mut self, listener: u32) -> Result<Accepted, NoMemory>
        ensures answer { IfOk result (λ answer. answer ≡ accept_answer self.old listener) }
        ensures after { IfOk result (λ _. self.new ≡ scripts_after_accept self.old listener) }
    {
        match next_arrival(&mut self.arrivals, listener) {
            None => Ok(Accepted::NotYet),
            Some(Arrival::Wait) => Ok(Accepted::NotYet),
            Some(Arrival::Fail) => Ok(Accepted::Failed),
            Some(Arrival::Comes(peer)) => {
                let id = LinkId(self.peers.len() as u64);
                match self.peers.push(peer) {
                    Ok(()) => Ok(Accepted::Session(id)),
                    Err(_) => Err(NoMemory),
                }
            }
        }
    }

    /// Reads from the session's other end. Where no session has the id, nothing more comes.
    pub fn read(&mut self, id: LinkId, into: &mut [u8]) -> LinkRead
        requires room { 0 < length into.old }
        ensures size { FitsRead (length into.old) result }
        ensures answer { reading_given result into.new
            ≡ read_from_peer (length into.old) id.0 self.old.peers }
        ensures after { self.new ≡ scripts_after_read (length into.old) id.0 self.old }
    {
        read_peer(&mut self.peers, id, into)
    }

    /// Writes to the session's other end. Where no session has the id, all is sent.
    pub fn write(&mut self, id: LinkId, bytes: &[u8]) -> LinkWrote
        requires { 0 < length bytes.now }
        ensures size { FitsWrite (length bytes.now) result }
        ensures answer { result ≡ written_to_peer (length bytes.now) id.0 self.old.peers }
        ensures after { self.new ≡ scripts_after_write id.0 self.old }
    {
        write_peer(&mut self.peers, id, bytes)
    }
}
