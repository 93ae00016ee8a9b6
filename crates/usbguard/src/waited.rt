// A watch that waits for a daemon: usbguard(1), watch.
use crate::socket_choice::choose_socket;
use libc::net::poll;
use libc::types::pollfd;
use std::str;
use ug_arguments::{Command, read_command};
use ug_files::{Priority, Teller};
use ug_links::{Dialled, Link};
use ug_sockets::SocketLink;
use ug_types::Text;

const NOTICE: Teller = Teller {
    priority: Priority::Notice,
    waits: true,
};

/// How many milliseconds lie between two tries.
const BETWEEN: i32 = 1000;

/// What is waited for.
#[derive(Drop)]
pub struct Waited {
    /// The socket that the words name, or the usual one.
    socket: Text,
    most: u64,
    once: bool,
}

/// What these words wait for, if they wait.
pub fn waited_for(rt: &HostRuntime, words: &[&str]) -> Option<Waited> {
    match read_command(rt.alloc(), words) {
        Ok(Command::WatchWaiting { socket, most, once }) => Some(Waited { socket, most, once }),
        Ok(command) => {
            command.discard();
            None
        }
        Err(_) => None,
    }
}

// Whether somebody listens at the socket of that path.
fn answers(rt: HostRuntime, path: &[u8]) -> bool {
    let mut link = SocketLink::new(rt);
    let answers = matches!(link.dial(rt.alloc(), path), Dialled::Ready);
    drop(link);
    answers
}

fn sleep() {
    let mut nothing: [pollfd; 0] = [];
    let _slept = poll(&mut nothing, BETWEEN);
}

impl Waited {
    // Whether somebody listens where the words ask now.
    fn is_there(&self, rt: HostRuntime, words: &[&str]) -> bool {
        match choose_socket(&rt, words) {
            Some(path) => {
                let is_there = answers(rt, path.as_bytes());
                drop(path);
                is_there
            }
            None => answers(rt, self.socket.bytes()),
        }
    }

    /// Waits until a daemon listens, and says once that it does so.
    pub fn wait(&self, rt: HostRuntime, words: &[&str]) {
        if self.is_there(rt, words) {
            return;
        }
        let path = str::from_utf8(self.socket.bytes()).unwrap_or("the socket");
        eprintln!(NOTICE; "usbguard: nobody listens at {path}: trying again each second.");
        for _ in 0..u64::MAX {
            sleep();
            if self.is_there(rt, words) {
                return;
            }
        }
    }

    /// Whether nothing more is waited for behind a watch that ended with that status, and wrote so many lines.
    pub fn is_over(&self, status: u8, lines: u64) -> bool {
        self.once || !matches!(status, 0 | 8) || lines >= self.most
    }
}
