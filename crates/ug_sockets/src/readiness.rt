// Telling the service manager that the daemon is ready: sd_notify(3).
use libc::net::{
    _SS_SIZE, AF_UNIX, MSG_DONTWAIT, MSG_NOSIGNAL, SOCK_CLOEXEC, SOCK_DGRAM, SOCK_NONBLOCK, sendto,
    socket,
};

/// Where an address has its path: behind two bytes of its family.
const PATH: usize = 2;

/// The most bytes of a path: unix(7).
const MOST: usize = 108;

/// The address of a manager's socket, to which a message is still to be sent.
#[derive(Clone, Copy)]
pub struct Readiness {
    address: [u8; _SS_SIZE],
    len: u32,
}

fn family() -> [u8; 2] {
    (AF_UNIX as u16).to_ne_bytes()
}

impl Readiness {
    /// The manager's socket is at that path; where an `@` is its first byte, in the abstract namespace. A longer path than an address
    /// can have gives none.
    pub fn at(path: &[u8]) -> Option<Readiness> {
        if path.is_empty() || path.len() >= MOST {
            return None;
        }
        let mut address = [0u8; _SS_SIZE];
        address[..PATH].copy_from_slice(&family());
        address[PATH..PATH + path.len()].copy_from_slice(path);
        if path[0] == b'@' {
            address[PATH] = 0;
        }
        Some(Readiness {
            address,
            len: (PATH + path.len()) as u32,
        })
    }

    fn send(&self, message: &[u8]) -> bool {
        let sender = unsafe { socket(AF_UNIX, SOCK_DGRAM | SOCK_NONBLOCK | SOCK_CLOEXEC, 0) };
        if sender < 0 {
            return false;
        }
        let flags = MSG_DONTWAIT | MSG_NOSIGNAL;
        let len = self.len.min(_SS_SIZE as u32);
        let sent = unsafe { sendto(sender, message, flags, &self.address, len) };
        libc::close(sender);
        sent >= 0
    }

    /// Tells the manager that the daemon is ready. It never waits, and tells whether the message was taken.
    pub fn tell(&self) -> bool {
        self.send(b"READY=1\n")
    }
}
