// A folder like that of sysfs.
use crate::folders::{make_folder, put, remove_folder};
use std::alloc::Global;
use ug_host::SysfsFolder;
use ug_kernel::{Attr, Control, Held, Listing, Opened, Probe, ReadOut, Sysfs, Write, Wrote};
use ug_types::NodeName;

type Folder = SysfsFolder<HostRuntime>;

const ROOT: &str = "out/devices";

const FOLDERS: [&str; 3] = [
    "out/devices/usb1/1-0:1.0/usb1-port1",
    "out/devices/1-1",
    "out/devices/1-0:1.0",
];

const FILES: [(&str, &[u8]); 6] = [
    (
        "out/devices/usb1/1-0:1.0/usb1-port1/connect_type",
        b"hotplug\n",
    ),
    ("out/devices/usb1/authorized", b"1\n"),
    ("out/devices/usb1/devnum", b"1\n"),
    ("out/devices/1-1/authorized", b"0\n"),
    ("out/devices/1-1/devnum", b"2\n"),
    ("out/devices/1-1/descriptors", b"\x12\x01"),
];

// A root hub with one port, and a device at it.
fn make_devices(rt: &HostRuntime) -> bool {
    let mut all = true;
    for folder in FOLDERS {
        all = all && make_folder(rt, folder);
    }
    for (file, text) in FILES {
        all = all && put(rt, file, text);
    }
    all
}

fn open_folder(rt: &HostRuntime) -> Option<Folder> {
    let root = String::from_str(rt.alloc(), ROOT).ok()?;
    let mut folder = SysfsFolder::new(*rt, rt.alloc(), root);
    folder.begin();
    Some(folder)
}

fn lists(alloc: Global, sysfs: &mut Folder, hub: NodeName, key: NodeName) -> bool {
    match sysfs.list(alloc) {
        Listing::Names(names) => names.as_slice() == [hub, key].as_slice(),
        _ => false,
    }
}

fn opens(alloc: Global, sysfs: &mut Folder, key: &NodeName) -> Option<Held> {
    match sysfs.open_control(alloc, key, Control::Authorized) {
        Opened::Token(held) => Some(held),
        _ => None,
    }
}

// Whether a file of a device holds that; None where there is none.
fn reads(
    alloc: Global,
    sysfs: &mut Folder,
    key: &NodeName,
    attr: Attr,
    wanted: Option<&[u8]>,
) -> bool {
    match (sysfs.read(alloc, key, attr), wanted) {
        (ReadOut::Bytes(text), Some(wanted)) => text.bytes() == wanted,
        (ReadOut::Absent, None) => true,
        _ => false,
    }
}

// It is switched on, and its file is closed.
fn switches(sysfs: &mut Folder, held: Held) -> bool {
    let off = matches!(sysfs.probe(held), Probe::Alive(false));
    let done = sysfs.write(held, Write::On) == Wrote::Done;
    let on = matches!(sysfs.probe(held), Probe::Alive(true));
    sysfs.close(held);
    off && done && on && matches!(sysfs.probe(held), Probe::Failed)
}

fn is_missing(alloc: Global, sysfs: &mut Folder, name: &NodeName) -> bool {
    matches!(
        sysfs.open_control(alloc, name, Control::Authorized),
        Opened::Absent
    )
}

// The hub, the device at it, and one that isn't there.
fn names() -> Option<(NodeName, NodeName, NodeName)> {
    let hub = NodeName::parse(b"usb1").ok()?;
    let key = NodeName::parse(b"1-1").ok()?;
    Some((hub, key, NodeName::parse(b"1-2").ok()?))
}

#[test]
fn devices_of_a_folder(rt: HostRuntime) {
    let alloc = rt.alloc();
    assert!(rt; make_devices(&rt));
    let (hub, key, other) = names().expect(&rt, "no name");
    let mut sysfs = open_folder(&rt).expect(&rt, "no folder");
    assert!(rt; lists(alloc, &mut sysfs, hub, key));
    let held = opens(alloc, &mut sysfs, &key).expect(&rt, "not opened");
    assert!(rt;
        reads(
            alloc,
            &mut sysfs,
            &key,
            Attr::Descriptors,
            Some(b"\x12\x01")
        )
    );
    assert!(rt; reads(alloc, &mut sysfs, &key, Attr::Serial, None));
    assert!(rt; reads(alloc, &mut sysfs, &key, Attr::Connect, Some(b"hotplug\n")));
    assert!(rt; switches(&mut sysfs, held));
    assert!(rt; is_missing(alloc, &mut sysfs, &other));
    assert!(rt; sysfs.calls() == 10 && sysfs.faults() == 1);
    assert!(rt; remove_folder(&rt, ROOT));
}
