// A new file that is to take another's place: rename(2), fsync(2).
use crate::linked::{folder_of, resolve};
use crate::opening::open_plain;
use crate::status::check_status;
use std::alloc::{AllocError, Global};
use std::fs;
use std::fs::{Metadata, OpenFile, OpenOptions};
use std::io::{self, ErrorKind, Write};
use std::os::fd::AsRawFd;
use std::os::unix::fs::{MetadataExt, OpenOptionsExt, PermissionsExt};
use std::rt::Files;

/// What is put behind the other file's name.
const ENDING: &str = ".usbguard-new";

/// The path of the new file and its folder, and the path of the file whose place it is to take.
#[derive(Drop)]
struct Places {
    path: String,
    folder: String,
    target: String,
}

/// The new file, and its places.
#[derive(Drop)]
pub struct Fresh<F> {
    file: F,
    places: Places,
}

impl<F> Fresh<F> {
    /// Puts the file in the other's place, and makes that durable.
    pub fn swap<R: Files>(&self, rt: &R) -> io::Result<()> {
        let places = &self.places;
        fs::rename(rt, places.path.as_str(), places.target.as_str())?;
        let folder = open_plain(rt, places.folder.as_str())?;
        folder.sync_all()
    }
}

impl<F: OpenFile> Fresh<F> {
    /// Makes the file's bytes durable, and its owner and mode.
    pub fn sync(&self) -> io::Result<()> {
        self.file.sync_all()
    }
}

fn take_owner<F: OpenFile + AsRawFd>(file: &F, old: &Metadata) -> io::Result<()> {
    let new = file.metadata()?;
    if old.uid() == new.uid() && old.gid() == new.gid() {
        return Ok(());
    }
    check_status(libc::fchown(file.as_raw_fd(), old.uid(), old.gid()))
}

fn take_mode<F: OpenFile>(file: &F, old: &Metadata) -> io::Result<()> {
    let mut mode = old.permissions();
    mode.set_mode(old.mode() & 0o7777);
    file.set_permissions(mode)
}

// Gives a file the owner and the mode of the one at the other path. Where there is none, it keeps those that it was made with.
fn take_over<R: Files>(rt: &R, file: &R::File, target: &str) -> io::Result<()>
where
    R::File: AsRawFd,
{
    match fs::metadata(rt, target) {
        Ok(old) => {
            take_owner(file, &old)?;
            take_mode(file, &old)
        }
        Err(error) if error.kind() == ErrorKind::NotFound => Ok(()),
        Err(error) => Err(error),
    }
}

fn places_of(alloc: Global, target: String) -> Result<Places, AllocError> {
    let path = [target.as_str(), ENDING].concat(alloc)?;
    let folder = [folder_of(target.as_str()), "."].concat(alloc)?;
    Ok(Places {
        path,
        folder,
        target,
    })
}

// Makes a file at the path, from which it removes what an earlier run left.
fn create<R: Files>(rt: &R, path: &str) -> io::Result<R::File> {
    if let Err(error) = fs::remove_file(rt, path)
        && error.kind() != ErrorKind::NotFound
    {
        return Err(error);
    }
    OpenOptions::new()
        .write(true)
        .create_new(true)
        .mode(0o600)
        .open(rt, path)
}

fn make_at<R: Files>(rt: &R, places: &Places, bytes: &[u8]) -> io::Result<R::File>
where
    R::File: AsRawFd,
{
    let mut file = create(rt, places.path.as_str())?;
    take_over(rt, &file, places.target.as_str())?;
    file.write_all(bytes)?;
    Ok(file)
}

/// Makes a new file of these bytes in the folder of the file at a path, whose links are followed. It has that file's owner and mode, or
/// 0600 where there is none.
pub fn make_fresh<R: Files>(
    rt: &R,
    alloc: Global,
    path: &str,
    bytes: &[u8],
) -> io::Result<Fresh<R::File>>
where
    R::File: AsRawFd,
{
    let places = places_of(alloc, resolve(rt, alloc, path)?)?;
    let file = make_at(rt, &places, bytes)?;
    Ok(Fresh { file, places })
}
