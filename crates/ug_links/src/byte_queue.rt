// Bytes that wait.
ghost use Rattle.std.specs.Prelude.{◌≡◌, [], ◌++◌, length, drop, OnOk, OnErr, ◌≤◌};

use std::alloc::Global;
use std::marker::Model;
use ug_types::{NoMemory, Text};

/// Bytes that go at the front and come at the end, seen as their list.
#[derive(Drop)]
pub struct ByteQueue {
    bytes: Vec<u8>,
}

impl Model for ByteQueue {
    ghost use Rattle.std.specs.Prelude.{ℕ, List};

    ghost Value = { List ℕ };

    ghost view = { λ q. q.bytes.items };
}

impl ByteQueue {
    /// No bytes. It takes no memory.
    pub fn new(alloc: Global) -> ByteQueue
        ensures { result ≡ [] }
    {
        ByteQueue {
            bytes: Vec::new(alloc),
        }
    }

    /// The same bytes, without memory.
    pub fn from_text(text: Text) -> ByteQueue
        ensures { result ≡ text }
    {
        ByteQueue {
            bytes: text.into_vec(),
        }
    }

    pub fn bytes(&self) -> &[u8]
        ensures { result.now ≡ self.now }
    {
        self.bytes.as_slice()
    }

    pub fn len(&self) -> usize
        ensures { result ≡ length self.now }
    {
        self.bytes.len()
    }

    pub fn clear(&mut self)
        ensures { self.new ≡ [] }
    {
        self.bytes.clear();
    }

    /// Takes the first n bytes away.
    pub fn drop_front(&mut self, n: usize)
        requires { n ≤ length self.old }
        ensures { self.new ≡ drop n self.old }
    {
        let left = self.bytes.len() - n;
        self.bytes.rotate_left(n);
        self.bytes.truncate(left);
    }

    /// Appends bytes. A refusal changes nothing.
    pub fn append(&mut self, more: &[u8]) -> Result<(), NoMemory>
        ensures ok { OnOk result (self.new ≡ self.old ++ more.now) }
        ensures err { OnErr result (self.new ≡ self.old) }
    {
        match self.bytes.extend_from_slice(more) {
            Ok(()) => Ok(()),
            Err(_) => Err(NoMemory),
        }
    }
}
