// The names of devices in a folder.
ghost use Rattle.std.specs.Prelude.{◌≡◌, true};
ghost use Rattle.std.specs.List.Sorted.{IsSorted};
ghost use Rattle.ug_types.specs.Elements.{AllDistinct};
ghost use Rattle.ug_types.specs.Names.{sweep_cmp};
ghost use Rattle.ug_kernel.specs.Few.{HasFew, AreDistinct};

use std::fs::{self, DirEntry};
use std::io::{self, ErrorKind};
use std::rt::Files;
use ug_files::FileFault;
use ug_kernel::{Listing, MAX_DEVICES};
use ug_types::{List, NodeName, sort_names};

/// Whether the entry has a name that isn't UTF-8.
pub fn is_unreadable<R: Files + Drop>(entry: &io::Result<DirEntry<R>>) -> bool {
    match entry {
        Ok(_) => false,
        Err(error) => error.kind() == ErrorKind::InvalidFilename,
    }
}

/// A name more, where the entry has that of a device. Others are passed over, as interfaces, which
/// have a colon, and names that aren't UTF-8.
fn add_device<R: Files + Drop>(
    names: &mut Vec<NodeName>,
    entry: io::Result<DirEntry<R>>,
) -> Result<(), FileFault> {
    if is_unreadable(&entry) {
        return Ok(());
    }
    let entry = entry?;
    if let Ok(name) = NodeName::parse(entry.file_name().as_bytes()) {
        if names.push(name).is_err() {
            return Err(FileFault::Memory);
        }
    }
    Ok(())
}

/// Adds the entries of the folder that are names of devices.
fn add_names<R: Files + AllocGlobal + Clone + Drop>(
    rt: &R,
    names: &mut Vec<NodeName>,
    folder: &str,
) -> Result<(), FileFault> {
    for entry in fs::read_dir(rt, folder)? {
        add_device(names, entry)?;
    }
    Ok(())
}

/// Whether no two names are the same.
fn are_apart(names: &[NodeName]) -> bool
    requires { IsSorted sweep_cmp names.now }
    ensures { result ≡ true → AllDistinct names.now }
{
    for i in 1..names.len() {
        if names[i - 1] == names[i] {
            return false;
        }
    }
    true
}

/// The names in their order. More than a kernel can have, or one name twice, is a failure.
fn listing_of(mut names: Vec<NodeName>) -> Listing
    ensures few { HasFew result }
    ensures distinct { AreDistinct result }
{
    sort_names(&mut names);
    if names.len() > MAX_DEVICES || !are_apart(names.as_slice()) {
        return Listing::Failed;
    }
    Listing::Names(List::from_vec(names))
}

/// The names of all devices in the folder.
pub fn list_devices<R: Files + AllocGlobal + Clone + Drop>(rt: &R, folder: &str) -> Listing
    ensures few { HasFew result }
    ensures distinct { AreDistinct result }
{
    let mut names = Vec::new(rt.alloc());
    match add_names(rt, &mut names, folder) {
        Ok(()) => listing_of(names),
        Err(FileFault::Memory) => Listing::Memory,
        Err(_) => Listing::Failed,
    }
}
