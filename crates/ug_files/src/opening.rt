// The one way in which a file of the daemon's is opened to be read.
use std::fs::{self, Metadata, OpenFile};
use std::io::{self, ErrorKind};
use std::rt::Files;

// Opening a pipe waits for its writer, and opening a terminal for its line.
fn check_kind(metadata: &Metadata) -> io::Result<()> {
    if metadata.is_file() || metadata.is_dir() {
        return Ok(());
    }
    Err(io::Error::from(ErrorKind::InvalidInput))
}

/// Opens a file or a folder to read it, without waiting for anybody. What stands at the path is
/// looked at first, and what was opened is looked at again. Where it is neither a file nor a
/// folder, the error is `InvalidInput`.
pub fn open_plain<R: Files>(rt: &R, path: &str) -> io::Result<R::File> {
    check_kind(&fs::metadata(rt, path)?)?;
    let file = fs::open(rt, path)?;
    check_kind(&file.metadata()?)?;
    Ok(file)
}
