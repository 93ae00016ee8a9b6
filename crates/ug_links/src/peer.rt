// The other end of a session, in memory.
ghost use Rattle.std.specs.Prelude.{◌≡◌, ◌<◌, [], length};
ghost use Rattle.ug_links.specs.Steps.{reading_given, FitsRead, FitsWrite};
ghost use Rattle.ug_links.specs.Peers.{piece_read, piece_left, read_answer, read_after, write_answer, write_after};

use crate::byte_queue::ByteQueue;
use crate::links::{LinkRead, LinkWrote};
use crate::script::Script;
use std::alloc::Global;
use ug_types::Text;

/// What a read meets. Past the script it meets the end.
#[derive(Drop)]
pub enum ReadItem {
    /// So many bytes, as far as there is room; the rest comes with the next reads. None are a wait.
    Piece(Text),
    Wait,
    Fail,
}

/// What a write meets. Past the script all is sent.
#[derive(Clone, Copy)]
pub enum WriteItem {
    /// At most so many bytes are sent. None are a wait.
    Takes(usize),
    Wait,
    Fail,
}

/// What is left of a piece, and what reads and writes meet.
#[derive(Drop)]
pub struct Peer {
    pub rest: ByteQueue,
    pub reads: Script<ReadItem>,
    pub writes: Script<WriteItem>,
}

impl Peer {
    /// A peer that goes by these scripts. It takes no memory.
    pub fn new(alloc: Global, reads: Script<ReadItem>, writes: Script<WriteItem>) -> Peer
        ensures rest { result.rest ≡ [] }
        ensures reads { result.reads ≡ reads }
        ensures writes { result.writes ≡ writes }
    {
        Peer {
            rest: ByteQueue::new(alloc),
            reads,
            writes,
        }
    }

    fn give(&mut self, into: &mut [u8]) -> LinkRead
        requires room { 0 < length into.old }
        ensures size { FitsRead (length into.old) result }
        ensures answer { reading_given result into.new
            ≡ piece_read (length into.old) self.old.rest }
        ensures after { self.new ≡ piece_left (length into.old) self.old }
    {
        let n = self.rest.len().min(into.len());
        if n == 0 {
            return LinkRead::NotYet;
        }
        into[..n].copy_from_slice(&self.rest.bytes()[..n]);
        self.rest.drop_front(n);
        LinkRead::Took(n)
    }

    /// Gives what is left of a piece, or else goes by the next item.
    pub fn read(&mut self, into: &mut [u8]) -> LinkRead
        requires room { 0 < length into.old }
        ensures size { FitsRead (length into.old) result }
        ensures answer { reading_given result into.new ≡ read_answer (length into.old) self.old }
        ensures after { self.new ≡ read_after (length into.old) self.old }
    {
        if self.rest.len() != 0 {
            return self.give(into);
        }
        match self.reads.next() {
            None => LinkRead::End,
            Some(ReadItem::Wait) => LinkRead::NotYet,
            Some(ReadItem::Fail) => LinkRead::Failed,
            Some(ReadItem::Piece(piece)) => {
                self.rest = ByteQueue::from_text(piece);
                self.give(into)
            }
        }
    }

    /// Goes by the next item.
    pub fn write(&mut self, bytes: &[u8]) -> LinkWrote
        requires { 0 < length bytes.now }
        ensures size { FitsWrite (length bytes.now) result }
        ensures answer { result ≡ write_answer (length bytes.now) self.old }
        ensures after { self.new ≡ write_after self.old }
    {
        match self.writes.next() {
            None => LinkWrote::Sent(bytes.len()),
            Some(WriteItem::Wait) => LinkWrote::NotYet,
            Some(WriteItem::Fail) => LinkWrote::Failed,
            Some(WriteItem::Takes(n)) => {
                if n == 0 {
                    return LinkWrote::NotYet;
                }
                LinkWrote::Sent(n.min(bytes.len()))
            }
        }
    }
}
