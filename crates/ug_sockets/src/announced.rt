// Looks for what the kernel announces.
use std::io::Read;
use std::rt::Files;
use std::{fs, str};

fn number_in(text: &[u8]) -> Option<u64> {
    str::from_utf8(text).ok()?.trim().parse::<u64>().ok()
}

/// A file in which the kernel counts the events that it announces, such as `/sys/kernel/uevent_seqnum` (sysfs-kernel-uevent_seqnum),
/// and what the last look at it found.
#[derive(Drop)]
pub struct Announced<R> {
    rt: R,
    path: String,
    looked: bool,
    /// How many events the kernel had announced at the last look, where its file told that.
    last: Option<u64>,
}

impl<R: Files> Announced<R> {
    /// Nothing was looked at yet. It takes no memory.
    pub fn new(rt: R, path: String) -> Announced<R> {
        Announced {
            rt,
            path,
            looked: false,
            last: None,
        }
    }

    fn read(&self) -> Option<u64> {
        let Ok(mut file) = fs::open(&self.rt, self.path.as_str()) else {
            return None;
        };
        let mut piece = [0u8; 24];
        match file.read(&mut piece) {
            Ok(count) => number_in(&piece[..count]),
            Err(_) => None,
        }
    }

    /// Looks again, and tells whether that found anything else than the last look. The first look does.
    pub fn is_other(&mut self) -> bool {
        let count = self.read();
        let other = !self.looked || self.last != count;
        self.looked = true;
        self.last = count;
        other
    }
}
