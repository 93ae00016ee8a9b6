// A socket at which the daemon listens for a user or a group.
ghost use Rattle.std.specs.Prelude.{◌≡◌, ◌++◌, nat_eq, codes, IfOk, IfSome, option_copied, string_bytes};
ghost use Rattle.std.specs.List.{find};
ghost use Rattle.ug_conf.specs.Files.{pointwise};
ghost use Rattle.ug_types.specs.Principals.{principal_text};
ghost use Rattle.ug_sockets.specs.Sockets.{has_listener_number, socket_path};

use crate::listening::{listen_at, make_folder};
use crate::pace::Sent;
use crate::tokens::{patient_token, token_of};
use mio::net::{UnixListener, UnixStream};
use mio::{Interest, Registry};
use std::alloc::{AllocError, Global};
use std::io::{self, ErrorKind};
use std::net::Net;
use std::rt::Files;
use std::str;
use ug_files::{FileFault, tell_failed};
use ug_links::Ready;
use ug_types::{Line, Principal};

#[derive(Drop)]
pub struct Listener {
    pub number: u32,
    pub principal: Principal,
    /// Whether somebody may wait who wasn't accepted for want of a place.
    pub is_full: bool,
    /// What its sessions have sent of late.
    pub sent: Sent,
    socket: UnixListener,
}

/// A client's stream, and the number of the listener to which it came.
#[derive(Drop)]
pub struct Arrival {
    pub listener: u32,
    pub stream: UnixStream,
}

fn wait_at(registry: &Registry, number: u32, socket: &mut UnixListener) -> io::Result<()> {
    let token = token_of(Ready::Listener(number));
    registry.register(socket, token, Interest::READABLE)
}

impl Listener {
    /// Has waits tell of a socket from now on, at which that principal's clients come.
    pub fn begin(
        number: u32,
        principal: &Principal,
        mut socket: UnixListener,
        registry: &Registry,
    ) -> Result<Listener, FileFault>
        ensures number { IfOk result (λ listener. listener.number ≡ number) }
        ensures principal { IfOk result (λ listener. listener.principal ≡ principal.now) }
    {
        match wait_at(registry, number, &mut socket) {
            Ok(()) => Ok(Listener {
                number,
                principal: *principal,
                is_full: false,
                sent: Sent::new(),
                socket,
            }),
            Err(e) => Err(FileFault::from(e)),
        }
    }

    pub fn is_roots(&self) -> bool
        ensures { result ≡ pointwise nat_eq (principal_text self.now.principal) (codes "root") }
    {
        Line::naming(&self.principal).bytes() == b"root".as_slice()
    }

    /// Has the next wait tell whether somebody waits.
    pub fn watch_again(&mut self, registry: &Registry)
        ensures number { self.new.number ≡ self.old.number }
        ensures principal { self.new.principal ≡ self.old.principal }
    {
        self.is_full = false;
        let token = token_of(Ready::Listener(self.number));
        let _again = registry.reregister(&mut self.socket, token, Interest::READABLE);
    }

    /// The same, of one that can wait.
    pub fn watch_patiently(&mut self, registry: &Registry) {
        let token = patient_token(Ready::Listener(self.number));
        let _again = registry.reregister(&mut self.socket, token, Interest::READABLE);
    }

    /// The next client that waits there.
    pub fn accept(&self) -> Result<Option<Arrival>, FileFault>
        ensures { IfOk result (λ found.
            IfSome found (λ arrival. arrival.listener ≡ self.now.number)) }
    {
        match self.socket.accept() {
            Ok((stream, _)) => Ok(Some(Arrival {
                listener: self.number,
                stream,
            })),
            Err(e) if e.kind() == ErrorKind::WouldBlock => Ok(None),
            Err(e) => Err(FileFault::from(e)),
        }
    }
}

/// The listener of that number.
pub fn find_listener(listeners: &[Listener], number: u32) -> Option<&Listener>
    ensures { option_copied result ≡ find (has_listener_number number) listeners.now }
{
    for listener in listeners {
        if listener.number == number {
            return Some(listener);
        }
    }
    None
}

/// Has the next wait tell whether somebody waits at the listener of that number.
pub fn watch_at(listeners: &mut [Listener], number: u32, registry: &Registry) {
    if let Some(listener) = listeners.get_mut(number as usize) {
        listener.watch_again(registry);
    }
}

/// Remembers that somebody may wait at the listener of that number.
pub fn note_full(listeners: &mut [Listener], number: u32) {
    if let Some(listener) = listeners.get_mut(number as usize) {
        listener.is_full = true;
    }
}

/// The same, and has a wait tell of it that ends a while later.
pub fn watch_later(listeners: &mut [Listener], number: u32, registry: &Registry) {
    if let Some(listener) = listeners.get_mut(number as usize) {
        listener.is_full = true;
        listener.watch_patiently(registry);
    }
}

/// How many listeners aren't root's.
pub fn count_others(listeners: &[Listener]) -> usize {
    let mut count = 0usize;
    for listener in listeners {
        if !listener.is_roots() {
            count = count.saturating_add(1);
        }
    }
    count
}

/// Has the next wait tell of each listener at which somebody may wait for a place.
pub fn watch_full(listeners: &mut [Listener], registry: &Registry) {
    for listener in listeners {
        if listener.is_full {
            listener.watch_again(registry);
        }
    }
}

fn path_by(alloc: Global, folder: &str, name: &str) -> Result<String, AllocError>
    ensures { IfOk result (λ path. string_bytes path ≡ socket_path folder.now name.now) }
{
    let mut path = String::from_str(alloc, folder)?;
    path.push_str("/")?;
    path.push_str(name)?;
    path.push_str(".socket")?;
    Ok(path)
}

/// The path of a principal's socket in a folder.
pub fn path_of(alloc: Global, folder: &str, principal: &Principal) -> Result<String, FileFault>
    ensures { IfOk result (λ path. string_bytes path
        ≡ socket_path folder.now (principal_text principal.now)) }
{
    let text = Line::naming(principal);
    let Ok(name) = str::from_utf8(text.bytes()) else {
        return Err(FileFault::Failed);
    };
    match path_by(alloc, folder, name) {
        Ok(path) => Ok(path),
        Err(_) => Err(FileFault::Memory),
    }
}

/// Listens at a path in a folder, which is made where it is missing. Where nobody can listen there, that is told, and the path is the
/// last one of which it was.
pub fn listen_told<R: Files + Net>(
    rt: &R,
    alloc: Global,
    folder: &str,
    path: String,
    last: &mut Option<String>,
) -> Result<UnixListener, FileFault> {
    make_folder(rt, folder)?;
    match listen_at(rt, path.as_str()) {
        Ok(socket) => Ok(socket),
        Err(error) => {
            tell_failed(alloc, "listened at", path.as_str(), &error);
            *last = Some(path);
            Err(FileFault::from(error))
        }
    }
}
