// Ordinary files of this machine.
use crate::folders::{make_folder, put, remove_folder, set_mode};
use std::alloc::Global;
use std::fs;
use std::os::unix::fs::{MetadataExt, symlink};
use std::time::Instant;
use ug_conf::{ConfFiles, FileRead, FolderRead};
use ug_host::{ConfFolder, RuleFile, SystemClock};
use ug_links::{Clock, Ready, Waiter, Woken};
use ug_sockets::SocketWaiter;
use ug_store::{DiskAnswer, Loaded, RuleDisk};

type Disk = RuleFile<HostRuntime>;

type Settings = ConfFolder<HostRuntime>;

const RULES: &str = "out/rules/rules.conf";

const LINK: &str = "out/rules/link.conf";

fn has_mode(rt: &HostRuntime, mode: u32) -> bool {
    match fs::metadata(rt, RULES) {
        Ok(file) => file.mode() & 0o7777 == mode,
        Err(_) => false,
    }
}

fn is_link(rt: &HostRuntime) -> bool {
    match fs::symlink_metadata(rt, LINK) {
        Ok(file) => file.is_symlink(),
        Err(_) => false,
    }
}

fn saves(alloc: Global, disk: &mut Disk, text: &[u8]) -> bool {
    disk.write_new(alloc, text) == DiskAnswer::Done
        && disk.sync_new() == DiskAnswer::Done
        && disk.swap() == DiskAnswer::Done
}

fn finds_none(alloc: Global, disk: &mut Disk) -> bool {
    matches!(disk.load(alloc), Loaded::Absent)
}

fn loads(alloc: Global, disk: &mut Disk, text: &[u8]) -> bool {
    matches!(disk.load(alloc), Loaded::Bytes(loaded) if loaded.bytes() == text)
}

// A swap without a new file fails, and is counted.
fn fails_to_swap(disk: &mut Disk) -> bool {
    let before = disk.faults();
    before == 0 && disk.swap() == DiskAnswer::Failed && disk.faults() == 1
}

// A disk whose file is named by a link.
fn aimed(rt: HostRuntime) -> Option<Disk> {
    symlink(&rt, "rules.conf", LINK).ok()?;
    let mut disk = RuleFile::new(rt, rt.alloc());
    disk.aim(rt.alloc(), LINK.as_bytes()).ok()?;
    Some(disk)
}

#[test]
fn a_save_keeps_link_and_mode(rt: HostRuntime) {
    let alloc = rt.alloc();
    assert!(rt; make_folder(&rt, "out/rules"));
    let mut disk = aimed(rt).expect(&rt, "no disk");
    assert!(rt; finds_none(alloc, &mut disk));
    assert!(rt; saves(alloc, &mut disk, b"block\n"));
    assert!(rt; has_mode(&rt, 0o600));
    assert!(rt; set_mode(&rt, RULES, 0o640));
    assert!(rt; saves(alloc, &mut disk, b"reject\n"));
    assert!(rt; has_mode(&rt, 0o640));
    assert!(rt; is_link(&rt));
    assert!(rt; loads(alloc, &mut disk, b"reject\n"));
    assert!(rt; fails_to_swap(&mut disk));
    assert!(rt; remove_folder(&rt, "out/rules"));
}

fn reads(alloc: Global, files: &mut Settings, path: &[u8], wanted: &[u8]) -> bool {
    matches!(files.read_file(alloc, path), FileRead::Bytes(text) if text.bytes() == wanted)
}

fn is_absent(alloc: Global, files: &mut Settings, path: &[u8]) -> bool {
    let read = matches!(files.read_file(alloc, path), FileRead::Absent);
    read && matches!(files.list_folder(alloc, path), FolderRead::Absent)
}

// Whether a folder has a file of that name alone.
fn lists(alloc: Global, files: &mut Settings, path: &[u8], name: &[u8]) -> bool {
    match files.list_folder(alloc, path) {
        FolderRead::Names(names) => match names.as_slice() {
            [only] => only.bytes() == name,
            _ => false,
        },
        _ => false,
    }
}

// A folder isn't read as a file, and that is counted.
fn fails_to_read(alloc: Global, files: &mut Settings, path: &[u8]) -> bool {
    let before = files.faults();
    let failed = matches!(files.read_file(alloc, path), FileRead::Failed);
    before == 0 && failed && files.faults() == 1
}

#[test]
fn files_of_settings(rt: HostRuntime) {
    let alloc = rt.alloc();
    assert!(rt; make_folder(&rt, "out/settings"));
    assert!(rt; put(&rt, "out/settings/daemon.conf", b"RuleFile=x\n"));
    let mut files = ConfFolder::new(rt);
    assert!(rt;
        reads(
            alloc,
            &mut files,
            b"out/settings/daemon.conf",
            b"RuleFile=x\n"
        )
    );
    assert!(rt; is_absent(alloc, &mut files, b"out/settings/other"));
    assert!(rt; lists(alloc, &mut files, b"out/settings", b"daemon.conf"));
    assert!(rt; fails_to_read(alloc, &mut files, b"out/settings"));
    assert!(rt; remove_folder(&rt, "out/settings"));
}

// How many milliseconds a wait takes, which is to end well.
fn waits(rt: &HostRuntime, waiter: &mut SocketWaiter<HostRuntime>) -> Option<u128> {
    let mut ready = [Ready::Listener(0); 256];
    let start = Instant::now(rt).ok()?;
    if !matches!(waiter.wait(&mut ready), Woken::Got(0)) {
        return None;
    }
    Some(start.elapsed(rt).ok()?.as_millis())
}

const SEQNUM: &str = "out/announced/uevent_seqnum";

// Whether a change of the file ends a wait, which else takes its second.
fn minds(rt: &HostRuntime) -> Option<bool> {
    let announced = String::from_str(rt.alloc(), SEQNUM).ok()?;
    let mut waiter = SocketWaiter::new(*rt, rt.alloc(), announced).ok()?;
    let first = put(rt, SEQNUM, b"1\n");
    let at_once = waits(rt, &mut waiter)?;
    let whole = waits(rt, &mut waiter)?;
    let second = put(rt, SEQNUM, b"2\n");
    let again = waits(rt, &mut waiter)?;
    Some(first && second && at_once < 500 && whole >= 900 && again < 500)
}

#[test]
fn an_announcement_ends_the_second(rt: HostRuntime) {
    assert!(rt; make_folder(&rt, "out/announced"));
    assert!(rt; minds(&rt) == Some(true));
    assert!(rt; remove_folder(&rt, "out/announced"));
}

#[test]
fn the_clock_tells_this_century(rt: HostRuntime) {
    assert!(rt; SystemClock::new(rt).now().0 > 1_700_000_000);
}
