// The names in a folder.
ghost use Rattle.std.specs.Prelude.{◌≡◌, nat_eq, OnOk};
ghost use Rattle.std.specs.List.{list_any};
ghost use Rattle.ug_conf.specs.Files.{FitsFolder, pointwise};
ghost use Rattle.ug_host.specs.Names.{AreFewNames};

use crate::names::is_unreadable;
use std::alloc::Global;
use std::fs::{self, DirEntry, ReadDir};
use std::io;
use std::rt::Files;
use ug_conf::FolderRead;
use ug_files::{FileFault, plain};
use ug_types::{List, Text};

/// The most names that are listed.
const MOST: usize = 2_147_483_647;

fn has_name(names: &[Text], name: &[u8]) -> bool
    ensures { result ≡ list_any (λ n. pointwise nat_eq n name.now) names.now }
{
    for known in names {
        if known.bytes() == name {
            return true;
        }
    }
    false
}

// A name more. One that stands there already is a failure.
fn add_name(names: &mut List<Text>, name: Text) -> Result<(), FileFault>
    requires { AreFewNames names.old }
    ensures { OnOk result (AreFewNames names.new) }
{
    let known = names.as_slice();
    if known.len() >= MOST || has_name(known, name.bytes()) {
        return Err(FileFault::Failed);
    }
    names.push(name)?;
    Ok(())
}

// The same of a copy of these bytes.
fn add_bytes(alloc: Global, names: &mut List<Text>, name: &[u8]) -> Result<(), FileFault>
    requires { AreFewNames names.old }
    ensures { OnOk result (AreFewNames names.new) }
{
    match Text::of(alloc, name) {
        Ok(name) => add_name(names, name),
        Err(_) => Err(FileFault::Memory),
    }
}

// Whether a folder stands there, or a link to one.
fn is_folder<R: Files + Drop>(rt: &R, entry: &DirEntry<R>) -> bool {
    match fs::metadata(rt, entry.path()) {
        Ok(metadata) => metadata.is_dir(),
        Err(_) => false,
    }
}

// The name of an entry that is no folder. One that isn't UTF-8 is passed over.
fn add_entry<R: Files + Drop>(
    rt: &R,
    alloc: Global,
    names: &mut List<Text>,
    entry: io::Result<DirEntry<R>>,
) -> Result<(), FileFault>
    requires { AreFewNames names.old }
    ensures { OnOk result (AreFewNames names.new) }
{
    if is_unreadable(&entry) {
        return Ok(());
    }
    match plain(entry) {
        Ok(entry) if is_folder(rt, &entry) => Ok(()),
        Ok(entry) => add_bytes(alloc, names, entry.file_name().as_bytes()),
        Err(fault) => Err(fault),
    }
}

fn add_entries<R: Files + AllocGlobal + Clone + Drop>(
    rt: &R,
    alloc: Global,
    names: &mut List<Text>,
    entries: ReadDir<R>,
) -> Result<(), FileFault>
    requires { AreFewNames names.old }
    ensures { OnOk result (AreFewNames names.new) }
{
    for entry in entries {
        add_entry(rt, alloc, names, entry)?;
    }
    Ok(())
}

// Adds the names in a folder, and tells whether the folder is there.
fn add_folder<R: Files + AllocGlobal + Clone + Drop>(
    rt: &R,
    alloc: Global,
    names: &mut List<Text>,
    folder: &str,
) -> Result<bool, FileFault>
    requires { AreFewNames names.old }
    ensures { OnOk result (AreFewNames names.new) }
{
    match plain(fs::read_dir(rt, folder)) {
        Ok(entries) => {
            add_entries(rt, alloc, names, entries)?;
            Ok(true)
        }
        Err(FileFault::Missing) => Ok(false),
        Err(fault) => Err(fault),
    }
}

/// All names in a folder, but those of folders, and those that aren't UTF-8.
pub fn list_entries<R: Files + AllocGlobal + Clone + Drop>(
    rt: &R,
    alloc: Global,
    folder: &str,
) -> FolderRead
    ensures { FitsFolder result }
{
    let mut names = List::new(alloc);
    match add_folder(rt, alloc, &mut names, folder) {
        Ok(true) => FolderRead::Names(names),
        Ok(false) => FolderRead::Absent,
        Err(FileFault::Memory) => FolderRead::Memory,
        Err(_) => FolderRead::Failed,
    }
}
