// Files that others may have written, and rule files that another hand changed.
use crate::folders::{holds, make_folder, put, remove_folder, set_mode};
use std::alloc::Global;
use std::fs;
use std::os::unix::fs::chown;
use ug_conf::{ConfFiles, FileRead};
use ug_host::{ConfFolder, RuleFile};
use ug_store::{DiskAnswer, Loaded, RuleDisk};

type Disk = RuleFile<HostRuntime>;

type Settings = ConfFolder<HostRuntime>;

const FOLDER: &str = "out/trust";

const PATH: &str = "out/trust/daemon.conf";

// Whether the file is read while the path has that mode.
fn is_taken(rt: &HostRuntime, files: &mut Settings, path: &str, mode: u32) -> bool {
    set_mode(rt, path, mode)
        && matches!(
            files.read_file(rt.alloc(), PATH.as_bytes()),
            FileRead::Bytes(_)
        )
}

fn fails(alloc: Global, files: &mut Settings) -> bool {
    matches!(files.read_file(alloc, PATH.as_bytes()), FileRead::Failed)
}

// Whether it fails at each of these modes.
fn fails_at(rt: &HostRuntime, files: &mut Settings, path: &str, modes: &[u32]) -> bool {
    for mode in modes {
        if !set_mode(rt, path, *mode) || !fails(rt.alloc(), files) {
            return false;
        }
    }
    true
}

// Root alone can give it to another user.
fn fails_for_another(rt: &HostRuntime, files: &mut Settings) -> bool {
    chown(rt, PATH, Some(1), None).is_err() || fails(rt.alloc(), files)
}

#[test]
fn a_file_that_others_may_write_fails(rt: HostRuntime) {
    assert!(rt; make_folder(&rt, FOLDER));
    assert!(rt; put(&rt, PATH, b"RuleFile=x\n"));
    let mut files = ConfFolder::new(rt);
    assert!(rt; is_taken(&rt, &mut files, PATH, 0o644));
    assert!(rt; fails_at(&rt, &mut files, PATH, &[0o664, 0o646, 0o666]));
    assert!(rt; is_taken(&rt, &mut files, PATH, 0o600));
    assert!(rt; fails_at(&rt, &mut files, FOLDER, &[0o775, 0o757]));
    assert!(rt; is_taken(&rt, &mut files, FOLDER, 0o1777));
    assert!(rt; files.faults() == 5);
    assert!(rt; files.last_path() == PATH.as_bytes());
    assert!(rt; fails_for_another(&rt, &mut files));
    assert!(rt; remove_folder(&rt, FOLDER));
}

// A disk that has loaded a text, in a folder of its own.
fn loaded(rt: HostRuntime, path: &str, text: &[u8]) -> Option<Disk> {
    if !put(&rt, path, text) || !set_mode(&rt, path, 0o600) {
        return None;
    }
    let mut disk = RuleFile::new(rt, rt.alloc());
    disk.aim(rt.alloc(), path.as_bytes()).ok()?;
    match disk.load(rt.alloc()) {
        Loaded::Bytes(_) => Some(disk),
        _ => None,
    }
}

fn writes(alloc: Global, disk: &mut Disk, text: &[u8]) -> bool {
    disk.write_new(alloc, text) == DiskAnswer::Done
}

fn saves(alloc: Global, disk: &mut Disk, text: &[u8]) -> bool {
    writes(alloc, disk, text)
        && disk.sync_new() == DiskAnswer::Done
        && disk.swap() == DiskAnswer::Done
}

fn fails_to_write(alloc: Global, disk: &mut Disk) -> bool {
    disk.write_new(alloc, b"allow\n") == DiskAnswer::Failed
}

fn fails_to_swap(disk: &mut Disk) -> bool {
    disk.swap() == DiskAnswer::Failed
}

const RULES: &str = "out/hand/rules.conf";

#[test]
fn a_rule_file_that_another_hand_changed_stays(rt: HostRuntime) {
    let alloc = rt.alloc();
    assert!(rt; make_folder(&rt, "out/hand"));
    let mut disk = loaded(rt, RULES, b"allow\n").expect(&rt, "not loaded");
    assert!(rt; saves(alloc, &mut disk, b"allow\nblock\n"));
    assert!(rt; put(&rt, RULES, b"block\n"));
    assert!(rt; fails_to_write(alloc, &mut disk));
    assert!(rt; fails_to_write(alloc, &mut disk));
    assert!(rt; holds(&rt, RULES, b"block\n"));
    assert!(rt; disk.faults() == 2);
    assert!(rt; fs::remove_file(&rt, RULES).is_ok());
    assert!(rt; saves(alloc, &mut disk, b"allow\n"));
    assert!(rt; writes(alloc, &mut disk, b"reject\n"));
    assert!(rt; put(&rt, RULES, b"block\n"));
    assert!(rt; fails_to_swap(&mut disk));
    assert!(rt; holds(&rt, RULES, b"block\n"));
    assert!(rt; remove_folder(&rt, "out/hand"));
}

const OPEN: &str = "out/open/rules.conf";

// A load fails, and is counted.
fn fails_to_load(alloc: Global, disk: &mut Disk) -> bool {
    matches!(disk.load(alloc), Loaded::Failed) && disk.faults() == 1
}

#[test]
fn a_rule_file_that_others_may_write_fails(rt: HostRuntime) {
    assert!(rt; make_folder(&rt, "out/open"));
    let mut disk = loaded(rt, OPEN, b"allow\n").expect(&rt, "not loaded");
    assert!(rt; set_mode(&rt, OPEN, 0o622));
    assert!(rt; fails_to_load(rt.alloc(), &mut disk));
    assert!(rt; remove_folder(&rt, "out/open"));
}
