// Files below a folder, and why one can't be had.
ghost use Rattle.std.specs.Prelude.{◌≡◌, ◌≤◌, length, IfOk};
ghost use Rattle.ug_files.specs.Content.{FitsContent};

use std::alloc::{AllocError, Global};
use std::fs::OpenOptions;
use std::io::{ErrorKind, Read};
use std::rt::Files;
use std::{fs, io, str};
use ug_types::{NoMemory, NodeName, Text};

/// `ENODEV` of errno(3): what a file of sysfs answers whose device is gone.
const NO_DEVICE: i32 = 19;

/// Why a file couldn't be had.
#[derive(Clone, Copy)]
pub enum FileFault {
    /// There is no such file, or its device is gone.
    Missing,
    Failed,
    Memory,
}

impl From<io::Error> for FileFault {
    fn from(error: io::Error) -> FileFault {
        match error.kind() {
            ErrorKind::NotFound => FileFault::Missing,
            ErrorKind::OutOfMemory => FileFault::Memory,
            _ => match error.raw_os_error() {
                Some(NO_DEVICE) => FileFault::Missing,
                _ => FileFault::Failed,
            },
        }
    }
}

/// What a call on an ordinary file answers, where `ENODEV` is a failure as others are.
pub fn plain<T>(answer: io::Result<T>) -> Result<T, FileFault> {
    match answer {
        Ok(value) => Ok(value),
        Err(e) => Err(match e.kind() {
            ErrorKind::NotFound => FileFault::Missing,
            ErrorKind::OutOfMemory => FileFault::Memory,
            _ => FileFault::Failed,
        }),
    }
}

impl From<AllocError> for FileFault {
    fn from(_error: AllocError) -> FileFault {
        FileFault::Memory
    }
}

impl From<NoMemory> for FileFault {
    fn from(_error: NoMemory) -> FileFault {
        FileFault::Memory
    }
}

/// What a file holds, up to a limit.
#[derive(Drop)]
pub enum Content {
    Whole(Text),
    TooLong,
}

/// A device's name as a word of a path. It is ASCII.
pub fn word_of(name: &NodeName) -> Result<&str, FileFault> {
    match str::from_utf8(name.bytes()) {
        Ok(word) => Ok(word),
        Err(_) => Err(FileFault::Failed),
    }
}

/// How often a reading is made again that a signal interrupted.
const TRIES: u32 = 1000;

fn was_interrupted(read: &io::Result<usize>) -> bool {
    match read {
        Ok(_) => false,
        Err(e) => e.kind() == ErrorKind::Interrupted,
    }
}

/// Reads a piece. A file of sysfs whose device is busy answers EINTR where the program is stopped meanwhile and goes on.
pub fn read_piece<F: Read>(file: &mut F, piece: &mut [u8]) -> io::Result<usize>
    ensures bound { IfOk result (λ count. count ≤ length piece.old) }
    ensures length { length piece.new ≡ length piece.old }
{
    for _ in 0..TRIES {
        let read = file.read(piece);
        if !was_interrupted(&read) {
            return read;
        }
    }
    file.read(piece)
}

/// Reads a file to its end, which comes in pieces, and stops above the limit.
pub fn read_content<F: Read>(
    alloc: Global,
    file: &mut F,
    limit: usize,
) -> Result<Content, FileFault>
    ensures { IfOk result (FitsContent limit) }
{
    let mut bytes = Vec::new(alloc);
    let mut piece = [0u8; 4096];
    for _ in 0..u64::MAX {
        let count = match read_piece(file, &mut piece) {
            Ok(count) => count,
            Err(e) => return Err(FileFault::from(e)),
        };
        if count == 0 {
            return Ok(Content::Whole(Text::from_vec(bytes)));
        }
        if count > limit.saturating_sub(bytes.len()) {
            return Ok(Content::TooLong);
        }
        bytes.extend_from_slice(&piece[..count])?;
    }
    Err(FileFault::Failed)
}

/// Opens a file and reads it.
pub fn read_file<R: Files>(
    rt: &R,
    alloc: Global,
    path: &str,
    limit: usize,
) -> Result<Content, FileFault> {
    let mut file = fs::open(rt, path)?;
    read_content(alloc, &mut file, limit)
}

/// The number that a short file holds, in decimal with a newline behind it.
pub fn read_number<R: Files>(rt: &R, path: &str) -> Result<u32, FileFault> {
    let mut file = fs::open(rt, path)?;
    let mut piece = [0u8; 16];
    let count = read_piece(&mut file, &mut piece)?;
    number_of(&piece[..count]).ok_or(FileFault::Failed)
}

fn number_of(text: &[u8]) -> Option<u32> {
    str::from_utf8(text).ok()?.trim().parse::<u32>().ok()
}

/// Opens a file to write to it, and to read it where that is asked for.
pub fn open_to_write<R: Files>(rt: &R, path: &str, read: bool) -> Result<R::File, FileFault> {
    let file = OpenOptions::new().read(read).write(true).open(rt, path)?;
    Ok(file)
}
