// The texts of the command line.
use std::alloc::Global;
use std::{env, io};

/// Why the texts can't be had.
#[derive(Clone, Copy)]
pub enum TextsFault {
    Memory,
    /// One isn't UTF-8.
    Unreadable,
}

fn fault_of(error: &io::Error) -> TextsFault {
    if error.kind() == io::ErrorKind::OutOfMemory {
        TextsFault::Memory
    } else {
        TextsFault::Unreadable
    }
}

/// The texts behind the program's name.
pub fn read_texts(rt: &HostRuntime) -> Result<Vec<String>, TextsFault> {
    let texts = match env::args(rt) {
        Ok(texts) => texts,
        Err(error) => return Err(fault_of(&error)),
    };
    let mut kept = Vec::new(rt.alloc());
    for text in texts.skip(1) {
        if kept.push(text).is_err() {
            drop(kept);
            return Err(TextsFault::Memory);
        }
    }
    Ok(kept)
}

/// The texts as words; None where memory is short.
pub fn words_of(alloc: Global, texts: &[String]) -> Option<Vec<&str>> {
    let mut words = Vec::new(alloc);
    for text in texts {
        words.push(text.as_str()).ok()?;
    }
    Some(words)
}
