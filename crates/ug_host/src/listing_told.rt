// What a person is told of listings of the devices.
use std::alloc::Global;
use std::fs;
use std::rt::Files;
use ug_files::tell;

/// Tells on standard error when listings begin to fail, and when one is done again.
#[derive(Drop)]
pub struct ListingTold {
    alloc: Global,
    fails: bool,
}

impl ListingTold {
    /// Nothing was told. It takes no memory.
    pub fn new(alloc: Global) -> ListingTold {
        ListingTold {
            alloc,
            fails: false,
        }
    }

    /// Tells that a listing of the folder at that path failed where the one before didn't, and that
    /// it was done where that failed.
    pub fn look<R: Files>(&mut self, rt: &R, path: &str, failed: bool) {
        if failed == self.fails {
            return;
        }
        self.fails = failed;
        if failed {
            self.tell_failed(rt, path);
        } else {
            self.tell_done(path);
        }
    }

    fn tell_failed<R: Files>(&self, rt: &R, path: &str) {
        let told = match fs::metadata(rt, path) {
            Err(error) => format!(in self.alloc;
                "usbguard: no device is judged: {path} can't be listed: {error}. It is tried again each second.\n"
            ),
            Ok(_) => format!(in self.alloc;
                "usbguard: no device is judged: {path} can't be listed. It is tried again each second.\n"
            ),
        };
        if let Ok(sentence) = told {
            tell(sentence.as_str());
        }
    }

    fn tell_done(&self, path: &str) {
        if let Ok(sentence) = format!(in self.alloc; "usbguard: {path} is listed again.\n") {
            tell(sentence.as_str());
        }
    }
}
