// By what a file is known again that was read.
use std::fs::{self, Metadata};
use std::io::{self, ErrorKind};
use std::os::unix::fs::MetadataExt;
use std::rt::Files;

/// Which file it is, its size, and when it changed last: inode(7). Another text of it has another
/// one.
#[derive(Clone, Copy, PartialEq, Eq)]
pub struct FileStamp {
    device: u64,
    number: u64,
    size: u64,
    second: i64,
    nanosecond: i64,
}

fn stamp_of(metadata: &Metadata) -> FileStamp {
    FileStamp {
        device: metadata.dev(),
        number: metadata.ino(),
        size: metadata.size(),
        second: metadata.ctime(),
        nanosecond: metadata.ctime_nsec(),
    }
}

/// The stamp of the file at a path, whose links are followed, or None where there is no file.
pub fn stamp_at<R: Files>(rt: &R, path: &str) -> io::Result<Option<FileStamp>> {
    match fs::metadata(rt, path) {
        Ok(metadata) => Ok(Some(stamp_of(&metadata))),
        Err(error) if error.kind() == ErrorKind::NotFound => Ok(None),
        Err(error) => Err(error),
    }
}
