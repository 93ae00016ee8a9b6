// The daemon over objects in memory.
use crate::audit::{panel, took};
use crate::devices::hub_and_key;
use crate::turns::{clock, one, peer, was_sent};
use std::alloc::Global;
use std::collections::VecDeque;
use ug_audit::Panel;
use ug_cond::FixedZone;
use ug_conf::{MemFile, MemFiles, MemFolder};
use ug_kernel::Sysfs;
use ug_links::{Arrival, ListClock, ListWaiter, ListenItem, MemLinks, Script};
use ug_serve::run_daemon;
use ug_store::MemDisk;
use ug_types::{List, Text};

pub const USUAL: &[u8] = b"/etc/usbguard/usbguard-daemon.conf";

fn file(alloc: Global, path: &[u8], text: &[u8]) -> Option<MemFile> {
    let path = Text::of(alloc, path).ok()?;
    let text = Text::of(alloc, text).ok()?;
    Some(MemFile { path, text })
}

fn list_of_files(alloc: Global, all: &[(&[u8], &[u8])]) -> Option<Vec<MemFile>> {
    let mut files = Vec::new(alloc);
    for (path, text) in all {
        files.push(file(alloc, path, text)?).ok()?;
    }
    Some(files)
}

pub fn files(alloc: Global, all: &[(&[u8], &[u8])]) -> Option<MemFiles> {
    let files = list_of_files(alloc, all)?;
    Some(MemFiles::new(files, Vec::new(alloc), Vec::new(alloc)))
}

// Two auditors, of whom the first fails at these lines.
fn two(alloc: Global, failing: &[u64]) -> Option<Panel> {
    panel(alloc, &[failing, &[]])
}

pub fn no_links(alloc: Global) -> MemLinks {
    let listens = Script::new(VecDeque::new(alloc));
    MemLinks::new(alloc, listens, Vec::new(alloc))
}

/// What a run is given beside its settings and the devices: the rules, the sockets and the clock.
#[derive(Drop)]
pub struct Given {
    disk: MemDisk,
    links: MemLinks,
    clock: ListClock,
}

pub fn make_given(alloc: Global, rules: &[u8], links: MemLinks) -> Option<Given> {
    let clock = clock(alloc)?;
    let disk = MemDisk::with_text(alloc, rules).ok()?;
    Some(Given { disk, links, clock })
}

/// The status of a run of that many turns.
pub fn run_over<Y: Sysfs>(
    alloc: Global,
    words: &[&str],
    files: &mut MemFiles,
    kernel: &mut Y,
    given: &mut Given,
    turns: u64,
    panel: &mut Panel,
) -> u8 {
    run_daemon(
        alloc,
        words,
        [0; 32],
        FixedZone::UTC,
        kernel,
        &mut given.disk,
        files,
        &mut given.links,
        &mut ListWaiter::new(Vec::new(alloc)),
        &mut given.clock,
        panel,
        turns,
    )
}

// The same with a hub and a key that are on, and without sockets.
fn run(
    alloc: Global,
    words: &[&str],
    files: &mut MemFiles,
    rules: &[u8],
    turns: u64,
    panel: &mut Panel,
) -> Option<u8> {
    let mut kernel = hub_and_key(alloc, true)?;
    let mut given = make_given(alloc, rules, no_links(alloc))?;
    Some(run_over(alloc, words, files, &mut kernel, &mut given, turns, panel))
}

const SWEEP: &[u8] = b"event 1 sweep 100
judged 1 usb1 allow keep
judged 2 1-1 block implicit
intent 2 1-1 off
wrote 2 1-1 off done
end 1
";

const SWEEP_WITH_DROP: &[u8] = b"event 1 sweep 100
judged 1 usb1 allow keep
dropped 0
judged 2 1-1 block implicit
intent 2 1-1 off
wrote 2 1-1 off done
end 1
";

#[test]
fn a_device_without_a_rule_is_blocked(rt: HostRuntime) {
    let alloc = rt.alloc();
    let mut files = files(alloc, &[(USUAL, b"")]).expect(&rt, "memory");
    let mut panel = two(alloc, &[]).expect(&rt, "memory");
    assert!(rt; run(alloc, &[], &mut files, b"", 1, &mut panel) == Some(0));
    assert!(rt; took(&panel, 0, SWEEP));
    assert!(rt; took(&panel, 1, SWEEP));
}

#[test]
fn an_auditor_that_fails_is_told_to_the_other(rt: HostRuntime) {
    let alloc = rt.alloc();
    let mut files = files(alloc, &[(USUAL, b"")]).expect(&rt, "memory");
    let mut panel = two(alloc, &[2]).expect(&rt, "memory");
    assert!(rt; run(alloc, &[], &mut files, b"", 1, &mut panel) == Some(0));
    assert!(rt; took(&panel, 0, b"event 1 sweep 100\n"));
    assert!(rt; took(&panel, 1, SWEEP_WITH_DROP));
}

// 64 auditors, of whom each fails one line behind the one before it, the first at its first line.
fn failing_in_turn(alloc: Global) -> Option<Panel> {
    let mut places = Vec::new(alloc);
    for i in 0..64u64 {
        places.push([i + 1]).ok()?;
    }
    let mut all: Vec<&[u64]> = Vec::new(alloc);
    for place in places.as_slice() {
        all.push(place.as_slice()).ok()?;
    }
    panel(alloc, all.as_slice())
}

// Whether the member of that number took that many lines.
fn took_lines(panel: &Panel, i: usize, count: usize) -> bool {
    if i >= panel.len() {
        return false;
    }
    match panel.text(i) {
        Some(text) => text.iter().filter(|byte| **byte == b'\n').count() == count,
        None => false,
    }
}

// Whether the last member took the lines that tell of the others.
fn was_told(panel: &Panel) -> bool {
    if panel.len() != 64 {
        return false;
    }
    match panel.text(63) {
        Some(text) => {
            text.starts_with(b"event 1 sweep 100\ndropped 0\ndropped 1\n")
                && text.ends_with(b"dropped 60\ndropped 61\n")
        }
        None => false,
    }
}

#[test]
fn auditors_that_fail_in_turn_are_told_in_turn(rt: HostRuntime) {
    let alloc = rt.alloc();
    let mut files = files(alloc, &[(USUAL, b"")]).expect(&rt, "memory");
    let mut panel = failing_in_turn(alloc).expect(&rt, "memory");
    assert!(rt; run(alloc, &[], &mut files, b"", 1, &mut panel) == Some(0));
    for i in 0..64usize {
        assert!(rt; took_lines(&panel, i, i));
    }
    assert!(rt; was_told(&panel));
}

const TWO_SWEEPS: &[u8] = b"note unused-key 2
event 1 sweep 100
judged 1 usb1 allow keep
judged 2 1-1 allow keep
end 1
event 2 sweep 100
end 2
";

#[test]
fn unused_keys_are_noted_before_the_turns(rt: HostRuntime) {
    let alloc = rt.alloc();
    let text = b"PresentDevicePolicy=keep\nHidePII=true\n".as_slice();
    let mut files = files(alloc, &[(b"/tmp/c", text)]).expect(&rt, "memory");
    let mut panel = two(alloc, &[]).expect(&rt, "memory");
    let words = ["--conf", "/tmp/c"];
    assert!(rt; run(alloc, &words, &mut files, b"block", 2, &mut panel) == Some(0));
    assert!(rt; took(&panel, 0, TWO_SWEEPS));
}

// Whether a run with these files and rules has status 3, and tells that line alone.
fn refuses(alloc: Global, mut files: MemFiles, rules: &[u8], line: &[u8]) -> Option<bool> {
    let mut panel = two(alloc, &[])?;
    let status = run(alloc, &[], &mut files, rules, 1, &mut panel)?;
    Some(status == 3 && took(&panel, 0, line))
}

// The same with these settings.
fn refuses_settings(
    alloc: Global,
    all: &[(&[u8], &[u8])],
    rules: &[u8],
    line: &[u8],
) -> Option<bool> {
    refuses(alloc, files(alloc, all)?, rules, line)
}

#[test]
fn what_is_refused_is_told(rt: HostRuntime) {
    let none = b"start-refused settings 0 0 0\n";
    let key = b"start-refused settings 1 2 0\n";
    let rule = b"start-refused rules 2 4 0\n";
    let alloc = rt.alloc();
    let bad: [(&[u8], &[u8]); 1] = [(USUAL, b"Foo=1")];
    let good: [(&[u8], &[u8]); 1] = [(USUAL, b"")];
    assert!(rt; refuses_settings(alloc, &bad, b"", key) == Some(true));
    assert!(rt; refuses_settings(alloc, &good, b"allow\nfrob", rule) == Some(true));
    assert!(rt; refuses_settings(alloc, &[], b"", none) == Some(true));
}

// The status for these words, where the only settings are at /tmp/c.
fn status_for(alloc: Global, words: &[&str]) -> Option<u8> {
    let mut files = files(alloc, &[(b"/tmp/c", b"")])?;
    let mut panel = two(alloc, &[])?;
    run(alloc, words, &mut files, b"", 1, &mut panel)
}

const GOOD_WORDS: [(&[&str], u8); 4] = [
    (&[], 3),
    (&["--conf", "/tmp/c"], 0),
    (&["--conf=/tmp/c"], 0),
    (&["--conf", ""], 3),
];

const BAD_WORDS: [&[&str]; 7] = [
    &["--conf"],
    &["/tmp/c"],
    &["--conf", "/tmp/c", "now"],
    &["--conf=/tmp/c", "--conf=/tmp/c"],
    &["--conf", "/tmp/c\n"],
    &["--config", "/tmp/c"],
    &["--help"],
];

#[test]
fn words_name_the_settings(rt: HostRuntime) {
    for (words, status) in GOOD_WORDS {
        assert!(rt; status_for(rt.alloc(), words) == Some(status));
    }
}

#[test]
fn bad_words_end_the_daemon(rt: HostRuntime) {
    for words in BAD_WORDS {
        assert!(rt; status_for(rt.alloc(), words) == Some(1));
    }
}

// A folder of access files with one of that name.
fn access_folder(alloc: Global, name: &[u8]) -> Option<Vec<MemFolder>> {
    let mut names = List::new(alloc);
    names.push(Text::of(alloc, name).ok()?).ok()?;
    let mut folders = Vec::new(alloc);
    let path = Text::of(alloc, b"/a").ok()?;
    folders.push(MemFolder::new(path, names)).ok()?;
    Some(folders)
}

const ROOT_ALONE: &[u8] = b"IPCAllowedUsers=root\nIPCAccessControlFiles=/a\n";

// Settings that name a user, and an access file of that name at that path.
fn two_principals(alloc: Global, name: &[u8], path: &[u8], grants: &[u8]) -> Option<MemFiles> {
    let all: [(&[u8], &[u8]); 2] = [(USUAL, ROOT_ALONE), (path, grants)];
    let files = list_of_files(alloc, &all)?;
    let folders = access_folder(alloc, name)?;
    Some(MemFiles::new(files, folders, Vec::new(alloc)))
}

// One that asks for the rules.
fn asker(alloc: Global) -> Option<Script<Arrival>> {
    one(alloc, peer(alloc, &[b"list-rules\n"])?)
}

// Joe and root each ask for the rules.
fn two_sessions(alloc: Global, listens: Script<ListenItem>) -> Option<MemLinks> {
    let mut arrivals = Vec::new(alloc);
    for _ in 0..2u32 {
        arrivals.push(asker(alloc)?).ok()?;
    }
    Some(MemLinks::new(alloc, listens, arrivals))
}

// A run of one turn over two sessions, and its status.
fn serves_two(
    alloc: Global,
    files: &mut MemFiles,
    listens: Script<ListenItem>,
) -> Option<(Given, u8)> {
    let links = two_sessions(alloc, listens)?;
    let mut given = make_given(alloc, b"block\n", links)?;
    let mut kernel = hub_and_key(alloc, true)?;
    let mut nobody = Panel::new(Vec::new(alloc));
    let status = run_over(alloc, &[], files, &mut kernel, &mut given, 1, &mut nobody);
    Some((given, status))
}

#[test]
fn each_user_is_answered_by_what_it_may(rt: HostRuntime) {
    let alloc = rt.alloc();
    let files = two_principals(alloc, b"joe", b"/a/joe", b"Devices=list\n");
    let mut files = files.expect(&rt, "memory");
    let listens = Script::new(VecDeque::new(alloc));
    let (given, status) = serves_two(alloc, &mut files, listens).expect(&rt, "memory");
    assert!(rt; status == 0);
    assert!(rt; was_sent(alloc, &given.links, 0, b"refused 2 denied Policy list\n"));
    assert!(rt; was_sent(alloc, &given.links, 1, b"ok 1\n1: block\n"));
}

// The same with an access file.
fn refuses_access(
    alloc: Global,
    name: &[u8],
    path: &[u8],
    grants: &[u8],
    line: &[u8],
) -> Option<bool> {
    refuses(alloc, two_principals(alloc, name, path, grants)?, b"", line)
}

#[test]
fn a_bad_access_file_is_told(rt: HostRuntime) {
    let alloc = rt.alloc();
    let privilege = b"start-refused access 1 3 8\n";
    let name = b"start-refused access 0 5 0\n";
    let refused = refuses_access(alloc, b"joe", b"/a/joe", b"Devices=frob", privilege);
    assert!(rt; refused == Some(true));
    let refused = refuses_access(alloc, b"a b", b"/a/a b", b"Devices=list", name);
    assert!(rt; refused == Some(true));
}

// The second socket can't be had.
fn second_fails(alloc: Global) -> Option<Script<ListenItem>> {
    let mut listens = VecDeque::new(alloc);
    for item in [ListenItem::Opens, ListenItem::Fails] {
        listens.push_back(item).ok()?;
    }
    Some(Script::new(listens))
}

#[test]
fn a_listener_that_fails_ends_the_daemon(rt: HostRuntime) {
    let alloc = rt.alloc();
    let files = two_principals(alloc, b"joe", b"/a/joe", b"Devices=list");
    let mut files = files.expect(&rt, "memory");
    let listens = second_fails(alloc).expect(&rt, "memory");
    let (_given, status) = serves_two(alloc, &mut files, listens).expect(&rt, "memory");
    assert!(rt; status == 11);
}
