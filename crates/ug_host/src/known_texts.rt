// Which texts of the rule file are the daemon's own.
use std::alloc::Global;
use std::io;
use std::rt::Files;
use ug_files::{FileStamp, has_text, stamp_at};
use ug_types::Text;

/// The text that the file had when it was last known, and the one that a save since then tried to
/// write. A file with another text is strange, and isn't read again until it changes.
#[derive(Drop)]
pub struct KnownTexts {
    known: Text,
    tried: Option<Text>,
    strange: Option<FileStamp>,
}

/// What stands in the rule file's place.
#[derive(Clone, Copy)]
pub enum FoundText {
    /// A text of the daemon's own, or no file.
    Known,
    /// Another one, which wasn't there before.
    NewStrange,
    /// The same one again.
    Strange,
}

impl KnownTexts {
    /// The empty text alone. It takes no memory.
    pub fn new(alloc: Global) -> KnownTexts {
        KnownTexts {
            known: Text::new(alloc),
            tried: None,
            strange: None,
        }
    }

    /// The file has that text, as far as there is memory to keep it: else the next save finds
    /// another one.
    pub fn begin(&mut self, alloc: Global, text: &[u8]) {
        self.tried = None;
        self.strange = None;
        self.known = match Text::of(alloc, text) {
            Ok(text) => text,
            Err(_) => Text::new(alloc),
        };
    }

    /// The file has that text from now on.
    pub fn set(&mut self, text: Text) {
        self.known = text;
        self.tried = None;
    }

    /// The file has that text from now on, or the one that it had.
    pub fn set_tried(&mut self, text: Text) {
        self.tried = Some(text);
    }

    /// Looks at the file at the path.
    pub fn look<R: Files>(&mut self, rt: &R, path: &str) -> io::Result<FoundText> {
        let stamp = stamp_at(rt, path)?;
        if stamp.is_some() && stamp == self.strange {
            return Ok(FoundText::Strange);
        }
        if self.is_own(rt, path)? {
            return Ok(FoundText::Known);
        }
        self.strange = stamp;
        Ok(FoundText::NewStrange)
    }

    // Whether the file has the known text, or the one that was tried, which is then the known one,
    // or is gone.
    fn is_own<R: Files>(&mut self, rt: &R, path: &str) -> io::Result<bool> {
        if has_text(rt, path, self.known.bytes())? {
            return Ok(true);
        }
        match self.tried.take() {
            Some(tried) => self.is_tried(rt, path, tried),
            None => Ok(false),
        }
    }

    fn is_tried<R: Files>(&mut self, rt: &R, path: &str, tried: Text) -> io::Result<bool> {
        let is = has_text(rt, path, tried.bytes());
        match is {
            Ok(true) => self.known = tried,
            _ => self.tried = Some(tried),
        }
        is
    }
}
