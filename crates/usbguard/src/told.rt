// What a daemon that has ended tells a person.
use crate::folder::names_in;
use crate::refusals::blanks_before;
use crate::shown::{line_of, read_text, tell_excerpt};
use crate::words::{access_fault, rule_fault, settings_fault};
use std::{fs, str};
use ug_files::{Priority, Teller};
use ug_host::{RefusedPart, StartRefusal};
use ug_types::Principal;

/// The paths of the files and sockets that were used last.
#[derive(Drop)]
pub struct LastPaths<'a> {
    pub files: &'a [u8],
    pub rules: &'a [u8],
    pub socket: &'a str,
}

fn text_of(path: &[u8]) -> &str {
    str::from_utf8(path).unwrap_or("a path that isn't UTF-8")
}

// What is wrong with a line.
fn fault_of(refusal: &StartRefusal, line: &[u8]) -> &'static str {
    match &refusal.part {
        RefusedPart::Settings => settings_fault(refusal.kind, line),
        RefusedPart::Access => access_fault(refusal.kind, line),
        RefusedPart::Folder => "its files have more than 67,108,864 bytes together",
        RefusedPart::FolderFile(_) | RefusedPart::Rules => {
            rule_fault(refusal.kind, line, refusal.place, false)
        }
    }
}

// How many bytes stand before the fault: blanks that begin a line count only in rules.
fn place_in(refusal: &StartRefusal, line: &[u8]) -> u64 {
    match &refusal.part {
        RefusedPart::Rules | RefusedPart::FolderFile(_) => refusal.place,
        _ => refusal.place.saturating_add(blanks_before(line)),
    }
}

// The folder in which a file lies.
fn folder_of(path: &str) -> &str {
    match path.rsplit_once('/') {
        Some((folder, _name)) => folder,
        None => ".",
    }
}

// Whether a name is none of a user or a group, and comes before the other in byte order.
fn is_first_odd(name: &str, other: Option<&str>) -> bool {
    let is_first = match other {
        Some(other) => name.as_bytes() < other.as_bytes(),
        None => true,
    };
    is_first && Principal::parse(name.as_bytes()).is_none()
}

// The first of these names, in byte order, that is none of a user or a group.
fn odd_name(names: &[String]) -> Option<&str> {
    let mut odd = None;
    for name in names {
        if is_first_odd(name.as_str(), odd) {
            odd = Some(name.as_str());
        }
    }
    odd
}

// The one of these names in the folder of access files that can't be taken.
fn tell_name(folder: &str, names: &[String], fault: &str) {
    match odd_name(names) {
        Some(name) => eprintln!(Priority::Error;
            "usbguard: not started: {folder}/{name} isn't taken: {fault}. Remove it, or name it after a user, or after a group behind a colon."
        ),
        None => eprintln!(Priority::Error;
            "usbguard: not started: a file in {folder} isn't taken: {fault}."
        ),
    }
}

// A name in the folder of access files that can't be taken. The path that was used last is the
// folder's, or that of a file in it.
fn tell_folder(rt: &HostRuntime, path: &str, fault: &str) {
    let folder = match fs::metadata(rt, path) {
        Ok(metadata) if metadata.is_dir() => path.trim_end_matches('/'),
        _ => folder_of(path),
    };
    match names_in(rt, folder) {
        Some(names) => {
            tell_name(folder, &names, fault);
            drop(names);
        }
        None => tell_name(folder, &[], fault),
    }
}

// A line that isn't taken, as far as the file can be read.
fn tell_line(rt: &HostRuntime, refusal: &StartRefusal, path: &str, line: &[u8]) {
    let (number, fault) = (refusal.line, fault_of(refusal, line));
    let place = place_in(refusal, line);
    let column = place.saturating_add(1);
    eprintln!(Priority::Error;
        "usbguard: not started: {path}, line {number}, column {column}: {fault}."
    );
    let teller = Teller {
        priority: Priority::Error,
        waits: false,
    };
    tell_excerpt(rt.alloc(), teller, line, place);
}

// A line of a file that isn't taken.
fn tell_line_of(rt: &HostRuntime, refusal: &StartRefusal, path: &str) {
    match read_text(rt, path) {
        Some(text) => {
            let line = line_of(text.as_slice(), refusal.line).unwrap_or(b"");
            tell_line(rt, refusal, path, line);
            drop(text);
        }
        None => tell_line(rt, refusal, path, b""),
    }
}

// A part that isn't taken.
fn tell_refusal(rt: &HostRuntime, refusal: &StartRefusal, path: &str) {
    if refusal.line > 0 {
        return tell_line_of(rt, refusal, path);
    }
    let fault = fault_of(refusal, b"");
    if matches!(refusal.part, RefusedPart::Access) && refusal.kind > 0 {
        return tell_folder(rt, path, fault);
    }
    eprintln!(Priority::Error; "usbguard: not started: {path} isn't taken: {fault}.");
}

fn tell_status(status: u8, paths: &LastPaths<'_>) {
    let (front, path, rest) = match status {
        4 => ("not started: ", text_of(paths.files), " can't be read."),
        6 => ("not started: memory is short.", "", ""),
        9 => (
            "not started: the rule file ",
            text_of(paths.rules),
            " can't be read.",
        ),
        10 => ("ended: its numbers have run out.", "", ""),
        11 => (
            "ended: it can't listen at ",
            paths.socket,
            ", or a wait failed.",
        ),
        _ => return,
    };
    eprintln!(Priority::Error; "usbguard: {front}{path}{rest}");
}

// The folder of rules is that of the file which was read last.
fn tell_refused(rt: &HostRuntime, refusal: &StartRefusal, paths: &LastPaths<'_>) {
    let files = text_of(paths.files);
    match &refusal.part {
        RefusedPart::Settings | RefusedPart::Access => tell_refusal(rt, refusal, files),
        RefusedPart::Folder => tell_refusal(rt, refusal, folder_of(files)),
        RefusedPart::FolderFile(name) => {
            let folder = folder_of(files);
            let name = name.as_str();
            match format!(in rt.alloc(); "{folder}/{name}") {
                Ok(path) => tell_refusal(rt, refusal, path.as_str()),
                Err(_) => tell_refusal(rt, refusal, name),
            }
        }
        RefusedPart::Rules => tell_refusal(rt, refusal, text_of(paths.rules)),
    }
}

/// Tells on standard error why a daemon has ended with that status: the file or the socket, and of
/// a refusal the line and the place too. It doesn't wait.
pub fn tell_end(
    rt: &HostRuntime,
    status: u8,
    refusal: Option<&StartRefusal>,
    paths: &LastPaths<'_>,
) {
    match refusal {
        Some(refusal) if status == 3 => tell_refused(rt, refusal, paths),
        _ => tell_status(status, paths),
    }
}
