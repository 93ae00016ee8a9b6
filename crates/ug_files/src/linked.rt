// Links in a file's place: symlink(7).
use std::alloc::{AllocError, Global};
use std::fs;
use std::io::{self, ErrorKind};
use std::path::AsPath;
use std::rt::Files;

/// The most links that are followed, as in path_resolution(7).
const MOST: usize = 40;

/// The folder of a path, with the slash behind it. It is empty where the path is a name alone.
pub fn folder_of(path: &str) -> &str {
    match path.rfind('/') {
        Some(place) => &path[..place + 1],
        None => "",
    }
}

/// The path that a link in that folder has, where it leads to the target.
fn whole_path(alloc: Global, folder: &str, target: &str) -> Result<String, AllocError> {
    if target.starts_with('/') {
        return String::from_str(alloc, target);
    }
    [folder, target].concat(alloc)
}

/// Where the link at a path leads, or None where no link is there.
fn follow<R: Files>(rt: &R, alloc: Global, path: &str) -> io::Result<Option<String>> {
    match fs::symlink_metadata(rt, path) {
        Ok(metadata) if metadata.is_symlink() => {}
        Ok(_) => return Ok(None),
        Err(error) if error.kind() == ErrorKind::NotFound => return Ok(None),
        Err(error) => return Err(error),
    }
    let target = rt.read_link(alloc, path)?;
    let whole = whole_path(alloc, folder_of(path), target.path_text())?;
    Ok(Some(whole))
}

/// The path behind all links in a file's place, whether or not a file is there.
pub fn resolve<R: Files>(rt: &R, alloc: Global, path: &str) -> io::Result<String> {
    let mut at = String::from_str(alloc, path)?;
    for _ in 0..MOST {
        match follow(rt, alloc, at.as_str())? {
            Some(next) => at = next,
            None => return Ok(at),
        }
    }
    Err(io::Error::from(ErrorKind::FilesystemLoop))
}
