// A client that is connected.
ghost use Rattle.std.specs.Prelude.{◌≡◌, ◌↔◌, ◌<◌, ◌≤◌, length, IfOk, IsErrAnd};
ghost use Rattle.std.specs.IoError.{error_kind};
ghost use Rattle.ug_links.specs.Steps.{FitsRead, FitsWrite};
ghost use Rattle.ug_sockets.specs.Sockets.{is_session_open};

use crate::listener::Arrival;
use crate::pace::{Sent, front_with};
use crate::passed_files::{has_none, peek};
use crate::tokens::{patient_token, token_of};
use mio::event::Source;
use mio::net::UnixStream;
use mio::{Interest, Registry};
use std::alloc::Global;
use std::io::{self, ErrorKind, Write};
use std::net::Shutdown;
use std::os::fd::AsRawFd;
use std::rt::Files;
use std::time::Instant;
use ug_files::{FileFault, read_piece};
use ug_links::{LinkId, LinkRead, LinkWrote, Ready};

/// A client's session, over the daemon's end of its stream.
///
/// Closing a descriptor that the client sent can take as long as the client likes, and it is closed with the bytes that bear it, or with
/// the stream. So no bytes are taken while there is one, and the stream isn't closed.
#[derive(Drop)]
pub struct Peer {
    pub id: LinkId,
    /// The listener to which it came.
    pub listener: u32,
    /// Whether the session is over, and the stream is kept for a descriptor in its queue.
    pub over: bool,
    /// Whether it was shut for want of places, and waits to be read to its end.
    pub leaves: bool,
    /// When a line of it was taken last, or something was sent to it; or when it was over. None where no clock told.
    pub touched: Option<Instant>,
    /// What it has sent of late.
    pub sent: Sent,
    stream: UnixStream,
    /// Whether bytes wait until the stream takes more.
    waits: bool,
    /// Whether what it sends can wait.
    patient: bool,
}

// What a reading answers that has room for so many bytes.
fn read_answer(read: io::Result<usize>, room: usize) -> LinkRead
    requires { IfOk read (λ n. n ≤ room) }
    ensures size { FitsRead room result }
    ensures took { IfOk read (λ n. 0 < n → result ≡ LinkRead.Took n) }
    ensures ended { IfOk read (λ n. n ≡ 0 → result ≡ LinkRead.End) }
    ensures waits { (result ≡ LinkRead.NotYet)
        ↔ IsErrAnd read (λ e. error_kind e ≡ ErrorKind.WouldBlock) }
{
    match read {
        Ok(0) => LinkRead::End,
        Ok(n) => LinkRead::Took(n),
        Err(e) if e.kind() == ErrorKind::WouldBlock => LinkRead::NotYet,
        Err(_) => LinkRead::Failed,
    }
}

// What a writing of so many bytes answers.
fn write_answer(written: io::Result<usize>, size: usize) -> LinkWrote
    requires { IfOk written (λ n. n ≤ size) }
    ensures size { FitsWrite size result }
    ensures sent { IfOk written (λ n. 0 < n → result ≡ LinkWrote.Sent n) }
    ensures none { IfOk written (λ n. n ≡ 0 → result ≡ LinkWrote.Failed) }
    ensures waits { (result ≡ LinkWrote.NotYet)
        ↔ IsErrAnd written (λ e. error_kind e ≡ ErrorKind.WouldBlock) }
{
    match written {
        Ok(0) => LinkWrote::Failed,
        Ok(n) => LinkWrote::Sent(n),
        Err(e) if e.kind() == ErrorKind::WouldBlock => LinkWrote::NotYet,
        Err(_) => LinkWrote::Failed,
    }
}

impl Peer {
    /// A session over that stream, which came at that moment. No wait tells of it yet.
    pub fn new(id: LinkId, arrival: Arrival, now: Option<Instant>) -> Peer
        ensures id { result.id ≡ id }
        ensures listener { result.listener ≡ arrival.listener }
    {
        Peer {
            id,
            listener: arrival.listener,
            over: false,
            leaves: false,
            touched: now,
            sent: Sent::new(),
            stream: arrival.stream,
            waits: false,
            patient: false,
        }
    }

    /// Whether it is the session of that id, and isn't over.
    pub fn is_open(&self, id: LinkId) -> bool
        ensures { result ≡ is_session_open id self.now }
    {
        self.id.0 == id.0 && !self.over
    }

    /// Has waits tell of it from now on. Where that can't be had, it is over.
    pub fn begin(&mut self, registry: &Registry) -> Result<(), FileFault>
        ensures id { self.new.id ≡ self.old.id }
        ensures listener { self.new.listener ≡ self.old.listener }
    {
        let token = token_of(Ready::Session(self.id));
        match registry.register(&mut self.stream, token, Interest::READABLE) {
            Ok(()) => Ok(()),
            Err(e) => {
                self.end(registry);
                Err(FileFault::from(e))
            }
        }
    }

    // Has the next wait tell what is ready now. Where that can't be had, a wait may miss it.
    fn watch_again(&mut self, registry: &Registry)
        ensures id { self.new.id ≡ self.old.id }
    {
        let interests = if self.waits {
            Interest::READABLE | Interest::WRITABLE
        } else {
            Interest::READABLE
        };
        let ready = Ready::Session(self.id);
        let token = if self.patient {
            patient_token(ready)
        } else {
            token_of(ready)
        };
        let _again = registry.reregister(&mut self.stream, token, interests);
    }

    /// Leaves what has come for a later turn, which it doesn't call for at once.
    pub fn hold_back(&mut self, registry: &Registry)
        ensures id { self.new.id ≡ self.old.id }
    {
        self.patient = true;
        self.watch_again(registry);
    }

    // Takes at most so many lines of what has come, if no descriptor came along. What is looked at first was there before the look for
    // descriptors.
    fn take<R: Files>(
        &mut self,
        rt: &R,
        alloc: Global,
        lines: usize,
        into: &mut [u8],
    ) -> io::Result<usize>
        ensures bound { IfOk result (λ n. n ≤ length into.old) }
        ensures length { length into.new ≡ length into.old }
        ensures id { self.new.id ≡ self.old.id }
    {
        let count = peek(self.stream.as_raw_fd(), into)?;
        if count > 0 && !has_none(rt, alloc, self.stream.as_raw_fd()) {
            return Err(io::Error::from(ErrorKind::PermissionDenied));
        }
        let front = front_with(&into[..count], lines);
        read_piece(&mut self.stream, &mut into[..front])
    }

    /// Reads at most so many lines of what has come. Where a descriptor came along it fails.
    pub fn read<R: Files>(
        &mut self,
        rt: &R,
        alloc: Global,
        registry: &Registry,
        lines: usize,
        into: &mut [u8],
    ) -> LinkRead
        requires { 0 < length into.old }
        ensures size { FitsRead (length into.old) result }
        ensures length { length into.new ≡ length into.old }
        ensures id { self.new.id ≡ self.old.id }
    {
        let room = into.len();
        let answer = read_answer(self.take(rt, alloc, lines, into), room);
        if matches!(answer, LinkRead::Took(_)) {
            self.patient = false;
            self.watch_again(registry);
        }
        answer
    }

    /// Writes as much as it takes at that moment.
    pub fn write(&mut self, registry: &Registry, now: Option<Instant>, bytes: &[u8]) -> LinkWrote
        requires { 0 < length bytes.now }
        ensures size { FitsWrite (length bytes.now) result }
        ensures id { self.new.id ≡ self.old.id }
    {
        let answer = write_answer(self.stream.write(bytes), bytes.len());
        let waits = match answer {
            LinkWrote::Sent(n) => self.waits && n < bytes.len(),
            LinkWrote::NotYet => true,
            LinkWrote::Failed => false,
        };
        if matches!(answer, LinkWrote::Sent(_)) {
            self.touched = now;
        }
        if waits != self.waits {
            self.waits = waits;
            self.watch_again(registry);
        }
        answer
    }

    /// Ends the session: nothing more comes or goes, and no wait tells of it.
    pub fn end(&mut self, registry: &Registry)
        ensures id { self.new.id ≡ self.old.id }
        ensures listener { self.new.listener ≡ self.old.listener }
    {
        self.over = true;
        let _shut = self.stream.shutdown(Shutdown::Both);
        let _unwatched = registry.deregister(&mut self.stream);
    }

    /// Shuts the session, so that the next reading finds its end.
    pub fn shut(&mut self, registry: &Registry)
        ensures id { self.new.id ≡ self.old.id }
    {
        self.leaves = true;
        self.patient = false;
        let _shut = self.stream.shutdown(Shutdown::Both);
        self.watch_again(registry);
    }

    /// Whether the stream of a session that is over may be closed.
    pub fn is_done<R: Files>(&self, rt: &R, alloc: Global) -> bool {
        self.over && has_none(rt, alloc, self.stream.as_raw_fd())
    }
}
