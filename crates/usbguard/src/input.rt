// Standard input, of which a person is shown a line.
use crate::shown::line_of;
use std::alloc::Global;
use std::fs;
use std::io::{self, Read};

/// The link of proc(5) that tells what standard input is.
const ITS_LINK: &str = "/proc/self/fd/0";

/// The most bytes that are kept of a text that is read whole, and of a script, of which the last
/// lines are.
pub const WHOLE: usize = 67_108_864;

pub const LAST_LINES: usize = 2_097_152;

// How many lines end in a text, and how many bytes they take.
fn whole_lines(text: &[u8]) -> (u64, usize) {
    let mut lines = 0u64;
    let mut bytes = 0;
    for at in 0..text.len() {
        if text[at] == b'\n' {
            lines = lines.saturating_add(1);
            bytes = at + 1;
        }
    }
    (lines, bytes)
}

/// Reads bytes, and keeps the last lines of them.
#[derive(Drop)]
pub struct KeptInput<R> {
    reader: R,
    most: usize,
    text: Vec<u8>,
    /// How many lines stood before the text.
    dropped: u64,
    /// Whether there was no memory for all of it.
    cut: bool,
}

impl<R> KeptInput<R> {
    /// Keeps at least so many bytes, and at most twice as many.
    pub fn new(alloc: Global, reader: R, most: usize) -> KeptInput<R> {
        KeptInput {
            reader,
            most,
            text: Vec::new(alloc),
            dropped: 0,
            cut: false,
        }
    }

    // Drops whole lines in front, as far as enough bytes are left.
    fn drop_lines(&mut self) {
        let surplus = self.text.len().saturating_sub(self.most);
        let (lines, bytes) = match self.text.get(..surplus) {
            Some(front) => whole_lines(front),
            None => (0, 0),
        };
        self.dropped = self.dropped.saturating_add(lines);
        let bytes = bytes.min(self.text.len());
        let _lines = self.text.drain(..bytes);
    }

    fn keep(&mut self, bytes: &[u8]) {
        if self.cut || self.text.extend_from_slice(bytes).is_err() {
            self.cut = true;
            self.text.clear();
        }
        if self.text.len() / 2 > self.most {
            self.drop_lines();
        }
    }

    /// The line of that number, from 1, where it was kept.
    pub fn line(&self, number: u64) -> Option<&[u8]> {
        if self.cut {
            return None;
        }
        line_of(self.text.as_slice(), number.checked_sub(self.dropped)?)
    }
}

impl<R: Read> Read for KeptInput<R> {
    fn read(&mut self, buf: &mut [u8]) -> io::Result<usize> {
        let count = self.reader.read(buf)?;
        if let Some(bytes) = buf.get(..count) {
            self.keep(bytes);
        }
        Ok(count)
    }
}

/// The path of the file that standard input is; None where it is none that can be opened by its
/// name.
pub fn input_path(rt: &HostRuntime) -> Option<String> {
    if !fs::metadata(rt, ITS_LINK).ok()?.is_file() {
        return None;
    }
    input_link(rt)
}

/// What the link says that tells what standard input is.
pub fn input_link(rt: &HostRuntime) -> Option<String> {
    let path = fs::read_link(rt, ITS_LINK).ok()?;
    String::from_str(rt.alloc(), path.to_str()?).ok()
}
