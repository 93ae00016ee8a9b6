// What the program tells a person of the daemon's socket.
use crate::folder::names_in;
use crate::refusals::ERROR;
use crate::service_words::tell_service;
use crate::socket_choice::{Caller, SOCKETS};
use std::str;
use ug_sockets::{Reached, SocketLink};

// What the numbers of errno(3) say that connect(2) gives here, and what to do.
fn reason(errno: i32) -> &'static str {
    match errno {
        1 => "the system doesn't permit it.",
        2 => { "there is no such socket." }
        13 => "this user may not open it: a socket is its user's or its group's alone.",
        20 => "a part of the path is no folder.",
        111 => "nobody listens there: the daemon has ended, and left its socket.",
        11 => "the daemon has too many connections that wait: try again.",
        91 => "that is no socket of the daemon's.",
        _ => "the system refused the connection.",
    }
}

// What became of the connection.
fn outcome(reached: Reached) -> &'static str {
    match reached {
        Reached::Nowhere => "the path can't be that of a socket.",
        Reached::Refused(errno) => reason(errno),
        Reached::Connected => {
            "the connection ended without a whole reply: a list would be too long, the daemon has ended, or it isn't the daemon."
        }
        Reached::TurnedAway => {
            "the connection was closed without an answer: there are as many at this socket as the daemon takes. Close one of them, or try again in a minute. Else a list would be too long, or the daemon has ended."
        }
        Reached::Broken => "the connection broke: the daemon has ended, or has closed it.",
    }
}

// The sockets among these names that the caller may open, and how to name one.
fn tell_sockets(rt: &HostRuntime, names: &[String]) {
    let caller = Caller::of_process(rt);
    let mut any = false;
    for name in names {
        let name = name.as_str();
        if caller.may_open(rt, name) {
            eprintln!(ERROR; "usbguard: this one is there: --socket={SOCKETS}/{name}");
            any = true;
        }
    }
    drop(caller);
    if !any {
        eprintln!(ERROR;
            "usbguard: no socket in {SOCKETS} is this user's or his groups': IPCAllowedUsers, IPCAllowedGroups or an access file makes one."
        );
    }
}

// The sockets that are there, or why there are none.
fn tell_folder(rt: &HostRuntime) {
    match names_in(rt, SOCKETS) {
        Some(names) => {
            tell_sockets(rt, &names);
            drop(names);
        }
        None => tell_service(rt),
    }
}

/// Tells on standard error at which socket a command asked in vain, why, and what would help.
pub fn tell_link(rt: &HostRuntime, link: &SocketLink<HostRuntime>) {
    let Some(path) = link.path() else {
        return;
    };
    let path = str::from_utf8(path).unwrap_or("the socket");
    let outcome = outcome(link.reached());
    eprintln!(ERROR; "usbguard: {path}: {outcome}");
    if matches!(link.reached(), Reached::Refused(_)) {
        tell_folder(rt);
    }
}
