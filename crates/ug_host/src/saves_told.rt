// What a person is told of saves of the rule file.
use std::alloc::Global;
use std::io;
use ug_files::{tell, text_of};

/// Tells on standard error when saves begin to fail, and when they are done again.
#[derive(Drop)]
pub struct SavesTold {
    alloc: Global,
    fails: bool,
}

// A path for a person.
fn shown(path: &[u8]) -> &str {
    text_of(path).unwrap_or("a path that isn't UTF-8")
}

impl SavesTold {
    /// Nothing was told. It takes no memory.
    pub fn new(alloc: Global) -> SavesTold {
        SavesTold {
            alloc,
            fails: false,
        }
    }

    /// A save to that file failed. It is told where the save before didn't fail.
    pub fn fail(&mut self, path: &[u8], error: &io::Error) {
        if self.fails {
            return;
        }
        self.fails = true;
        let path = shown(path);
        if let Ok(sentence) = format!(in self.alloc;
            "usbguard: rules can't be saved in {path}: {error}.\n"
        ) {
            tell(sentence.as_str());
        }
    }

    /// A save failed, since the file isn't the daemon's any more. It is told.
    pub fn find_changed(&mut self, path: &[u8]) {
        self.fails = true;
        let path = shown(path);
        if let Ok(sentence) = format!(in self.alloc;
            "usbguard: {path} was changed by another hand, so rules aren't saved in it. To take what stands there, restart the daemon; to go on with the daemon's rules, move the file away.\n"
        ) {
            tell(sentence.as_str());
        }
    }

    /// A save was done. It is told where the one before failed.
    pub fn succeed(&mut self, path: &[u8]) {
        if !self.fails {
            return;
        }
        self.fails = false;
        let path = shown(path);
        if let Ok(sentence) = format!(in self.alloc;
            "usbguard: rules are saved in {path} again.\n"
        ) {
            tell(sentence.as_str());
        }
    }
}
