// Whether a file has a text, which takes no memory.
use crate::file::read_piece;
use crate::opening::open_plain;
use std::io::{self, ErrorKind, Read};
use std::rt::Files;

// Whether what is left of a file is that text.
fn ends_with<F: Read>(file: &mut F, text: &[u8]) -> io::Result<bool> {
    let mut rest = text;
    let mut piece = [0u8; 4096];
    for _ in 0..u64::MAX {
        let count = read_piece(file, &mut piece)?;
        if count == 0 {
            return Ok(rest.is_empty());
        }
        match rest.strip_prefix(&piece[..count]) {
            Some(behind) => rest = behind,
            None => return Ok(false),
        }
    }
    Err(io::Error::from(ErrorKind::FileTooLarge))
}

/// Whether the file at a path has that text, or isn't there.
pub fn has_text<R: Files>(rt: &R, path: &str, text: &[u8]) -> io::Result<bool> {
    match open_plain(rt, path) {
        Ok(mut file) => ends_with(&mut file, text),
        Err(error) if error.kind() == ErrorKind::NotFound => Ok(true),
        Err(error) => Err(error),
    }
}
