// A client's connection to the daemon on this machine.
ghost use Rattle.std.specs.Prelude.{◌≡◌, ◌<◌, ◌≤◌, length, true, None};
ghost use Rattle.ug_types.specs.Ends.{Fits, IsCounted, Rose};

use crate::reached::{Reached, refused};
use std::alloc::Global;
use std::net::Net;
use std::os::unix::net::UnixStream;
use ug_files::{FileFault, put_all, read_piece, text_of};
use ug_links::{Dialled, Link};
use ug_types::{Put, Taken, Text};

/// A Unix stream, whose calls wait for the daemon. What comes is told by the machine alone.
#[derive(Drop)]
pub struct SocketLink<R> {
    rt: R,
    stream: Option<UnixStream>,
    faults: u64,
    path: Option<Text>,
    reached: Reached,
    /// Whether anything came on the connection.
    heard: bool,
}

fn receive_from(stream: &mut UnixStream, into: &mut [u8]) -> Taken
    requires { 0 < length into.old }
    ensures { Fits (length into.old) result }
{
    match read_piece(stream, into) {
        Ok(0) => Taken::End,
        Ok(n) => Taken::Bytes(n),
        Err(_) => Taken::Failed,
    }
}

impl<R: Net> SocketLink<R> {
    /// It isn't connected yet, and takes no memory.
    pub fn new(rt: R) -> SocketLink<R>
        ensures faults { result.faults ≡ 0 }
    {
        SocketLink {
            rt,
            stream: None,
            faults: 0,
            path: None,
            reached: Reached::Nowhere,
            heard: false,
        }
    }

    /// The path that was dialled last.
    pub fn path(&self) -> Option<&[u8]> {
        match &self.path {
            Some(path) => Some(path.bytes()),
            None => None,
        }
    }

    /// How far the connection came that was dialled last.
    pub fn reached(&self) -> Reached {
        self.reached
    }

    // A failure more, if it is one.
    fn count(&mut self, failed: bool)
        ensures counted { IsCounted self.old.faults self.new.faults }
        ensures cause { failed ≡ true → Rose self.old.faults self.new.faults }
    {
        if failed {
            self.faults = self.faults.saturating_add(1);
        }
    }

    // A call on the connection failed.
    fn note_break(&mut self)
        ensures faults { self.new.faults ≡ self.old.faults }
    {
        if self.stream.is_some() {
            self.reached = if self.heard {
                Reached::Broken
            } else {
                Reached::TurnedAway
            };
        }
    }

    // What a call that receives has answered.
    fn note_taken(&mut self, taken: Taken)
        ensures faults { self.new.faults ≡ self.old.faults }
    {
        match taken {
            Taken::Bytes(_) => self.heard = true,
            Taken::End if !self.heard => self.reached = Reached::TurnedAway,
            Taken::End => {}
            Taken::Failed => self.note_break(),
        }
    }

    // Connects to the socket at a path, and keeps both.
    fn connect(&mut self, alloc: Global, path: &[u8]) -> Result<(), FileFault>
        ensures faults { self.new.faults ≡ self.old.faults }
    {
        self.stream = None;
        self.heard = false;
        self.reached = Reached::Nowhere;
        self.path = Some(Text::of(alloc, path)?);
        let text = text_of(path)?;
        match UnixStream::connect(&self.rt, text) {
            Ok(stream) => {
                self.stream = Some(stream);
                self.reached = Reached::Connected;
                Ok(())
            }
            Err(error) => {
                self.reached = refused(&error);
                Err(FileFault::from(error))
            }
        }
    }
}

impl<R: Net> Link for SocketLink<R> {
    ghost told = { λ s. None };

    ghost sent = { λ s. None };

    ghost left = { λ s. None };

    ghost faults = { λ s. s.faults };

    fn dial(&mut self, alloc: Global, path: &[u8]) -> Dialled {
        let answer = match self.connect(alloc, path) {
            Ok(()) => Dialled::Ready,
            Err(FileFault::Memory) => Dialled::Memory,
            Err(_) => Dialled::Failed,
        };
        self.count(answer == Dialled::Failed);
        answer
    }

    fn send(&mut self, bytes: &[u8]) -> Put {
        let put = match &mut self.stream {
            Some(stream) => put_all(stream, bytes),
            None => Put::Failed,
        };
        if put == Put::Failed {
            self.note_break();
        }
        self.count(put == Put::Failed);
        put
    }

    fn receive(&mut self, into: &mut [u8]) -> Taken {
        let taken = match &mut self.stream {
            Some(stream) => receive_from(stream, into),
            None => Taken::Failed,
        };
        self.note_taken(taken);
        self.count(matches!(taken, Taken::Failed));
        taken
    }

    fn faults(&self) -> u64 {
        self.faults
    }
}
