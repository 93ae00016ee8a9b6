// A rule file is saved and read, with calls that fail.
use std::alloc::Global;
use ug_store::{
    Loaded, MemDisk, Mishap, RecoverFault, RuleDisk, Saved, Store, history_law, moment_law,
};

const TEXT: &[u8] = b"allow\nblock\n";

// Nothing is read of an empty file, and a save of it makes three calls.
fn saves(alloc: Global, disk: &mut MemDisk) -> bool {
    let Ok((mut store, text)) = Store::recover(alloc, disk) else {
        return false;
    };
    disk.begin();
    let saved = store.save(alloc, disk, TEXT);
    text.is_empty() && matches!(saved, Saved::Done) && !store.pending() && disk.calls() == 3
}

fn is_read_back(alloc: Global, disk: &mut MemDisk) -> bool {
    match Store::recover(alloc, disk) {
        Ok((_store, text)) => text.as_slice() == TEXT,
        Err(_) => false,
    }
}

#[test]
fn a_save_stands(rt: HostRuntime) {
    let alloc = rt.alloc();
    let mut disk = MemDisk::new(alloc);
    assert!(rt; disk.aim(alloc, b"/etc/usbguard/rules.conf").is_ok());
    assert!(rt; saves(alloc, &mut disk));
    assert!(rt; is_read_back(alloc, &mut disk));
    assert!(rt; disk.forget().is_ok());
    assert!(rt; !disk.ran_out());
}

#[test]
fn laws_are_called() {
    history_law();
    moment_law();
}

// The second call fails with its effect, and so does the fifth, by the last word on it.
fn planned(alloc: Global) -> Option<MemDisk> {
    let mut disk = MemDisk::with_text(alloc, b"allow\n").ok()?;
    disk.begin();
    disk.fail(2, Mishap::Effect).ok()?;
    disk.fail(5, Mishap::NoEffect).ok()?;
    disk.fail(5, Mishap::Effect).ok()?;
    Some(disk)
}

// Whether a save answers that, and leaves that text in the file.
fn saves_as(
    alloc: Global,
    store: &mut Store,
    disk: &mut MemDisk,
    saved: Saved,
    text: &[u8],
) -> bool {
    store.save(alloc, disk, b"block\n") == saved
        && store.pending() == !matches!(saved, Saved::Done)
        && disk.text() == text
}

fn loads(alloc: Global, disk: &mut MemDisk, text: &[u8]) -> bool {
    matches!(&disk.load(alloc), Loaded::Bytes(loaded) if loaded.bytes() == text)
}

#[test]
fn a_failed_save_is_pending(rt: HostRuntime) {
    let alloc = rt.alloc();
    let mut disk = planned(alloc).expect(&rt, "memory");
    let Ok((mut store, _first)) = Store::recover(alloc, &mut disk) else {
        panic!(rt; "nothing was recovered");
    };
    assert!(rt; saves_as(alloc, &mut store, &mut disk, Saved::Failed(1), b"allow\n"));
    assert!(rt; saves_as(alloc, &mut store, &mut disk, Saved::Failed(2), b"block\n"));
    disk.end_event();
    assert!(rt; disk.faults() == 2);
    assert!(rt; saves_as(alloc, &mut store, &mut disk, Saved::Done, b"block\n"));
    assert!(rt; loads(alloc, &mut disk, b"block\n"));
}

// Whether a file of so many spaces is too long.
fn is_too_long(alloc: Global, len: usize) -> Option<bool> {
    let text = vec![in alloc; b' '; len].ok()?;
    let mut disk = MemDisk::with_text(alloc, &text).ok()?;
    match Store::recover(alloc, &mut disk) {
        Ok(_) => Some(false),
        Err(fault) => Some(matches!(fault, RecoverFault::TooLong)),
    }
}

#[test]
fn a_long_file_is_refused(rt: HostRuntime) {
    assert!(rt; is_too_long(rt.alloc(), 67_108_864) == Some(false));
    assert!(rt; is_too_long(rt.alloc(), 67_108_865) == Some(true));
}
