// The connect type of the port at which a device hangs: sysfs-bus-usb, `portX/connect_type`.
use crate::names::is_unreadable;
use std::alloc::{AllocError, Global};
use std::fs::{self, DirEntry};
use std::io;
use std::rt::Files;
use ug_files::{Content, FileFault, read_file, word_of};
use ug_types::NodeName;

/// The most bytes of a connect type.
const LIMIT: usize = 4096;

/// The last number of a device's name, which is its port at the hub: 2 in `1-1.2` and in `1-2`.
fn port_of(word: &str) -> &str {
    match word.rsplit_once('.') {
        Some((_, port)) => port,
        None => match word.rsplit_once('-') {
            Some((_, port)) => port,
            None => word,
        },
    }
}

/// How the interface of a hub's ports begins, in the folder of the hub: `1-0:1.0` at the root hub `usb1`, and at another
/// hub its name, a colon, the number of its configuration and `.0`.
fn is_hub_interface(entry: &str, hub: &str) -> bool {
    match entry.split_once(':') {
        Some((device, rest)) => rest.ends_with(".0") && is_of_hub(device, hub),
        None => false,
    }
}

/// Whether the part of an interface's name before its colon is that of the hub: `1-0` for `usb1`.
fn is_of_hub(device: &str, hub: &str) -> bool {
    match hub.strip_prefix("usb") {
        Some(bus) => match device.strip_suffix("-0") {
            Some(number) => number == bus,
            None => false,
        },
        None => device == hub,
    }
}

/// The path of the file at the hub's port, below an interface in the hub's folder.
fn path_below(
    alloc: Global,
    folder: &str,
    interface: &str,
    hub: &str,
    port: &str,
) -> Result<String, AllocError> {
    [
        folder,
        "/",
        interface,
        "/",
        hub,
        "-port",
        port,
        "/connect_type",
    ]
    .concat(alloc)
}

/// The same, where an entry of the hub's folder is the interface that has its ports.
fn path_by<R: Files + Drop>(
    alloc: Global,
    entry: io::Result<DirEntry<R>>,
    folder: &str,
    hub: &str,
    port: &str,
) -> Result<Option<String>, FileFault> {
    if is_unreadable(&entry) {
        return Ok(None);
    }
    let entry = entry?;
    if !is_hub_interface(entry.file_name(), hub) {
        return Ok(None);
    }
    let path = path_below(alloc, folder, entry.file_name(), hub, port)?;
    Ok(Some(path))
}

/// The path of the file at the hub's port, in the folder of the hub. It is missing where the hub has no folder, or no interface there.
fn path_in<R: Files + AllocGlobal + Clone + Drop>(
    rt: &R,
    folder: &str,
    hub: &str,
    port: &str,
) -> Result<String, FileFault> {
    for entry in fs::read_dir(rt, folder)? {
        if let Some(path) = path_by(rt.alloc(), entry, folder, hub, port)? {
            return Ok(path);
        }
    }
    Err(FileFault::Missing)
}

/// The same, of the hub in that folder of devices.
fn path_at_hub<R: Files + AllocGlobal + Clone + Drop>(
    rt: &R,
    root: &str,
    hub: &str,
    port: &str,
) -> Result<String, FileFault> {
    let folder = [root, hub].join(rt.alloc(), "/")?;
    path_in(rt, folder.as_str(), hub, port)
}

/// Reads the connect type at the port of a device's hub, where there is a hub with such a folder.
fn read_at_hub<R: Files + AllocGlobal + Clone + Drop>(
    rt: &R,
    alloc: Global,
    root: &str,
    name: &NodeName,
    word: &str,
) -> Result<Content, FileFault> {
    let Some(parent) = name.parent() else {
        return Err(FileFault::Missing);
    };
    let path = path_at_hub(rt, root, word_of(&parent)?, port_of(word))?;
    read_file(rt, alloc, path.as_str(), LIMIT)
}

/// Reads the connect type of a device. It is there before the device in the folder of the hub's port; the device's own link
/// to that folder comes later, and serves only where the hub has no such folder. A root hub has none.
pub fn read_connect_type<R: Files + AllocGlobal + Clone + Drop>(
    rt: &R,
    alloc: Global,
    root: &str,
    name: &NodeName,
) -> Result<Content, FileFault> {
    let word = word_of(name)?;
    match read_at_hub(rt, alloc, root, name, word) {
        Err(FileFault::Missing) => {}
        read => return read,
    }
    let path = [root, word, "port/connect_type"].join(alloc, "/")?;
    read_file(rt, alloc, path.as_str(), LIMIT)
}
