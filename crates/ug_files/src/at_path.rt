// Ordinary files, whose paths are bytes.
ghost use Rattle.std.specs.Prelude.{IfOk};
ghost use Rattle.ug_files.specs.Content.{FitsIfThere};

use crate::file::{Content, FileFault, read_content};
use crate::trusted::open_trusted;
use std::alloc::Global;
use std::rt::Files;
use std::str;
use ug_types::TEXT_LIMIT;

/// Reads the file at a path, and gives None where there is none. It fails where others may have written it.
pub fn read_at<R: Files>(rt: &R, alloc: Global, path: &str) -> Result<Option<Content>, FileFault>
    ensures { IfOk result FitsIfThere }
{
    let Some(mut file) = open_trusted(rt, alloc, path)? else {
        return Ok(None);
    };
    Ok(Some(read_content(alloc, &mut file, TEXT_LIMIT)?))
}

/// A path as text. One that isn't UTF-8 is a failure, since the library can't open it.
pub fn text_of(path: &[u8]) -> Result<&str, FileFault> {
    match str::from_utf8(path) {
        Ok(text) => Ok(text),
        Err(_) => Err(FileFault::Failed),
    }
}
