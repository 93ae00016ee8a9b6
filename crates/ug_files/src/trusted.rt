// Files that decide what the daemon does: who may have written them.
use crate::file::{FileFault, plain};
use crate::linked::{folder_of, resolve};
use crate::opening::open_plain;
use crate::sentence::{Priority, tell};
use std::alloc::Global;
use std::fs::{self, Metadata, OpenFile};
use std::io::{self, ErrorKind};
use std::os::unix::fs::MetadataExt;
use std::rt::Files;

/// The modes by which the group or others may write, and that by which a folder's files are their owners' to remove.
const WRITABLE: u32 = 0o022;

const STICKY: u32 = 0o1000;

/// How often a file is opened in whose place there is another by then.
const TRIES: u32 = 100;

/// Whether root or the daemon's user owns it.
fn is_owned(metadata: &Metadata) -> bool {
    metadata.uid() == 0 || metadata.uid() == libc::geteuid()
}

fn is_safe_file(metadata: &Metadata) -> bool {
    is_owned(metadata) && metadata.mode() & WRITABLE == 0
}

/// The same of a folder, in which anybody may make files that nobody else can remove where it is sticky.
fn is_safe_folder(metadata: &Metadata) -> bool {
    is_owned(metadata) && (metadata.mode() & WRITABLE == 0 || metadata.mode() & STICKY != 0)
}

fn tell_unsafe(alloc: Global, path: &str, metadata: &Metadata) {
    let (owner, mode) = (metadata.uid(), metadata.mode() & 0o7777);
    if let Ok(sentence) = format!(in alloc;
        "usbguard: {path} isn't taken: its owner is {owner} and its mode {mode:o}. Root or the daemon's user must own it, and nobody else may write to it.\n"
    ) {
        tell(sentence.as_str());
    }
}

/// Tells on standard error that a file can't be had, and why.
pub fn tell_failed(alloc: Global, what: &str, path: &str, error: &io::Error) {
    if let Ok(sentence) = format!(in alloc; "usbguard: {path} can't be {what}: {error}\n") {
        tell(sentence.as_str());
    }
}

// Whether nobody else can put another file into the folder. Its text has a slash at its end, or is empty where it is the working one.
fn check_folder<R: Files>(rt: &R, alloc: Global, folder: &str) -> Result<(), FileFault> {
    let path = [folder, "."].concat(alloc)?;
    match plain(fs::metadata(rt, path.as_str())) {
        Ok(metadata) if is_safe_folder(&metadata) => Ok(()),
        Ok(metadata) => {
            tell_unsafe(alloc, folder, &metadata);
            Err(FileFault::Failed)
        }
        Err(fault) => Err(fault),
    }
}

// Whether the file stands at the path still.
fn is_at<R: Files>(rt: &R, path: &str, file: &Metadata) -> Result<bool, FileFault> {
    match plain(fs::metadata(rt, path)) {
        Ok(there) => Ok(there.dev() == file.dev() && there.ino() == file.ino()),
        Err(FileFault::Missing) => Ok(false),
        Err(fault) => Err(fault),
    }
}

// Whether the file stands behind the links at the path still. It fails where somebody else can put
// another one there.
fn is_target<R: Files>(
    rt: &R,
    alloc: Global,
    path: &str,
    file: &Metadata,
) -> Result<bool, FileFault> {
    let target = plain(resolve(rt, alloc, path))?;
    match check_folder(rt, alloc, folder_of(target.as_str())) {
        Ok(()) => is_at(rt, target.as_str(), file),
        Err(fault) => Err(fault),
    }
}

// The same of a file that nobody else may write to. It fails where somebody may.
fn is_safe_target<R: Files>(
    rt: &R,
    alloc: Global,
    path: &str,
    file: &R::File,
) -> Result<bool, FileFault> {
    let metadata = plain(file.metadata())?;
    if is_safe_file(&metadata) {
        return is_target(rt, alloc, path, &metadata);
    }
    tell_unsafe(alloc, path, &metadata);
    Err(FileFault::Failed)
}

fn tell_replaced(alloc: Global, path: &str) {
    if let Ok(sentence) = format!(in alloc;
        "usbguard: {path} isn't taken: another file takes its place again and again.\n"
    ) {
        tell(sentence.as_str());
    }
}

fn tell_other_kind(alloc: Global, path: &str) {
    if let Ok(sentence) = format!(in alloc; "usbguard: {path} isn't taken: it is no file.\n") {
        tell(sentence.as_str());
    }
}

// Tells whose a file is that may not be read.
fn tell_denied<R: Files>(rt: &R, alloc: Global, path: &str, error: &io::Error) {
    match fs::metadata(rt, path) {
        Ok(metadata) => {
            let (owner, mode) = (metadata.uid(), metadata.mode() & 0o7777);
            eprintln!(Priority::Error;
                "usbguard: {path} can't be opened: its owner is {owner} and its mode {mode:o}. The daemon's user must own it: chown root {path}"
            );
        }
        Err(_) => tell_failed(alloc, "opened", path, error),
    }
}

// Tells why the file can't be opened, if there is one.
fn tell_unopened<R: Files>(rt: &R, alloc: Global, path: &str, error: &io::Error) {
    match error.kind() {
        ErrorKind::NotFound => {}
        ErrorKind::InvalidInput => tell_other_kind(alloc, path),
        ErrorKind::PermissionDenied => tell_denied(rt, alloc, path, error),
        _ => tell_failed(alloc, "opened", path, error),
    }
}

// Opens the file at a path, and gives None where there is none. What else failed is told on standard error.
fn open_told<R: Files>(rt: &R, alloc: Global, path: &str) -> Result<Option<R::File>, FileFault> {
    let opened = open_plain(rt, path);
    if let Err(error) = &opened {
        tell_unopened(rt, alloc, path, error);
    }
    match plain(opened) {
        Ok(file) => Ok(Some(file)),
        Err(FileFault::Missing) => Ok(None),
        Err(fault) => Err(fault),
    }
}

/// Opens the file at a path, and gives None where there is none. It fails where another user than root and the daemon's own may have
/// written the file, or may put another in its place, and where it is neither a file nor a folder;
/// why, or what else failed, is told on standard error. A file whose place another one takes
/// meanwhile is let go, and that one opened.
pub fn open_trusted<R: Files>(
    rt: &R,
    alloc: Global,
    path: &str,
) -> Result<Option<R::File>, FileFault> {
    for _ in 0..TRIES {
        let Some(file) = open_told(rt, alloc, path)? else {
            return Ok(None);
        };
        if is_safe_target(rt, alloc, path, &file)? {
            return Ok(Some(file));
        }
    }
    tell_replaced(alloc, path);
    Err(FileFault::Failed)
}
