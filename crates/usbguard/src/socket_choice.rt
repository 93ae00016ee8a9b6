// The socket at which a command asks, where its words name none.
use crate::folder::names_in;
use crate::shown::read_text;
use std::alloc::Global;
use std::fs::{self, Metadata};
use std::os::unix::fs::MetadataExt;
use std::{env, str};
use ug_arguments::{Command, read_command};

/// The folder of the daemon's sockets.
pub const SOCKETS: &str = "/run/usbguard";

/// What tells the groups of the process: proc(5).
const STATUS: &str = "/proc/self/status";

/// Whose socket one is.
#[derive(Clone, Copy, PartialEq)]
enum Holder {
    /// The caller's own.
    Caller,
    /// One of his groups.
    Group,
    Other,
}

/// The caller, and the groups that he is in as numbers in a text.
#[derive(Drop)]
pub struct Caller {
    user: u32,
    groups: Vec<u8>,
}

// The line of the groups in what tells of the process.
fn groups_in(status: &str) -> &str {
    for line in status.lines() {
        if let Some(groups) = line.strip_prefix("Groups:") {
            return groups;
        }
    }
    ""
}

impl Caller {
    pub fn of_process(rt: &HostRuntime) -> Caller {
        let groups = match read_text(rt, STATUS) {
            Some(status) => status,
            None => Vec::new(rt.alloc()),
        };
        Caller {
            user: libc::geteuid(),
            groups,
        }
    }

    fn is_in(&self, group: u32) -> bool {
        if group == libc::getegid() {
            return true;
        }
        let groups = groups_in(str::from_utf8(self.groups.as_slice()).unwrap_or(""));
        for number in groups.split_ascii_whitespace() {
            if number.parse::<u32>().ok() == Some(group) {
                return true;
            }
        }
        false
    }

    fn holder(&self, name: &str, metadata: &Metadata) -> Holder {
        if name.starts_with(':') {
            return if self.is_in(metadata.gid()) {
                Holder::Group
            } else {
                Holder::Other
            };
        }
        if metadata.uid() == self.user {
            Holder::Caller
        } else {
            Holder::Other
        }
    }

    // Whose socket the folder has by that name.
    fn holder_of(&self, rt: &HostRuntime, name: &str) -> Holder {
        if !name.ends_with(".socket") {
            return Holder::Other;
        }
        let Some(path) = socket_path(rt.alloc(), name) else {
            return Holder::Other;
        };
        let holder = match fs::metadata(rt, path.as_str()) {
            Ok(metadata) => self.holder(name, &metadata),
            Err(_) => Holder::Other,
        };
        drop(path);
        holder
    }

    /// Whether he may ask at the socket of that name: root may at each.
    pub fn may_open(&self, rt: &HostRuntime, name: &str) -> bool {
        name.ends_with(".socket") && (self.user == 0 || self.holder_of(rt, name) != Holder::Other)
    }

    // The first of these names, in byte order, of a socket with that holder.
    fn first_held<'a>(
        &self,
        rt: &HostRuntime,
        names: &'a [String],
        holder: Holder,
    ) -> Option<&'a str> {
        let mut first: Option<&'a str> = None;
        for name in names {
            let name = name.as_str();
            let is_earlier = match first {
                Some(other) => name.as_bytes() < other.as_bytes(),
                None => true,
            };
            if is_earlier && self.holder_of(rt, name) == holder {
                first = Some(name);
            }
        }
        first
    }

    // The first of his own sockets, else of his groups'.
    fn first_of<'a>(&self, rt: &HostRuntime, names: &'a [String]) -> Option<&'a str> {
        match self.first_held(rt, names, Holder::Caller) {
            Some(name) => Some(name),
            None => self.first_held(rt, names, Holder::Group),
        }
    }
}

fn socket_path(alloc: Global, name: &str) -> Option<String> {
    [SOCKETS, "/", name].concat(alloc).ok()
}

// The path of the first socket in the folder that is the caller's own, or one of his groups'.
// Root's is the usual one.
fn own_socket(rt: &HostRuntime) -> Option<String> {
    let caller = Caller::of_process(rt);
    if caller.user == 0 {
        drop(caller);
        return None;
    }
    let Some(names) = names_in(rt, SOCKETS) else {
        drop(caller);
        return None;
    };
    let path = match caller.first_of(rt, &names) {
        Some(name) => socket_path(rt.alloc(), name),
        None => None,
    };
    drop(names);
    drop(caller);
    path
}

// Whether the command asks the daemon.
fn asks_daemon(command: &Command) -> bool {
    matches!(
        command,
        Command::Ask { .. }
            | Command::ListChosen { .. }
            | Command::ListLabelled { .. }
            | Command::ListRuleDevices { .. }
            | Command::ChangeParameter { .. }
            | Command::Order { .. }
            | Command::Watch { .. }
            | Command::WatchWaiting { .. }
    )
}

// Whether these words ask the daemon, and name no socket.
fn lack_socket(rt: &HostRuntime, words: &[&str]) -> bool {
    for word in words {
        if word.starts_with("--socket") {
            return false;
        }
    }
    match read_command(rt.alloc(), words) {
        Ok(command) => {
            let asks = asks_daemon(&command);
            command.discard();
            asks
        }
        Err(_) => false,
    }
}

/// The path of the socket at which these words ask, where it is neither among them nor the usual
/// one: that of `USBGUARD_SOCKET`, or the first that is there of the caller's own and his groups'.
pub fn choose_socket(rt: &HostRuntime, words: &[&str]) -> Option<String> {
    if !lack_socket(rt, words) {
        return None;
    }
    match env::var(rt, "USBGUARD_SOCKET") {
        Ok(path) if !path.as_str().is_empty() && !path.as_str().contains('\n') => Some(path),
        _ => own_socket(rt),
    }
}

/// The words with that path among them.
pub fn words_with<'a>(alloc: Global, words: &[&'a str], path: &'a str) -> Option<Vec<&'a str>> {
    let [first, behind @ ..] = words else {
        return None;
    };
    let mut all = Vec::new(alloc);
    let is_whole = all.extend_from_slice(&[first, "--socket", path]).is_ok()
        && all.extend_from_slice(behind).is_ok();
    if !is_whole {
        drop(all);
        return None;
    }
    Some(all)
}
