// The last line that a command writes.
use std::io::{self, Write};
use std::str;

/// The most bytes of it that are kept.
const MOST: usize = 200;

/// Passes bytes on, and keeps the last whole line of them, as far as it is short.
#[derive(Drop)]
pub struct LastLine<W> {
    writer: W,
    line: Vec<u8>,
    ended: bool,
    /// How many lines have ended.
    count: u64,
}

impl<W: Write> LastLine<W> {
    pub fn new(alloc: std::alloc::Global, writer: W) -> LastLine<W> {
        LastLine {
            writer,
            line: Vec::new(alloc),
            ended: false,
            count: 0,
        }
    }

    /// How many lines have ended since they were counted anew.
    pub fn count(&self) -> u64 {
        self.count
    }

    pub fn count_anew(&mut self) {
        self.count = 0;
    }

    /// What stands before its newline.
    pub fn text(&self) -> &str {
        str::from_utf8(self.line.as_slice()).unwrap_or("")
    }

    fn keep(&mut self, bytes: &[u8]) {
        for byte in bytes {
            if self.ended {
                self.line.clear();
                self.ended = false;
            }
            if *byte == b'\n' {
                self.ended = true;
                self.count = self.count.saturating_add(1);
            } else if self.line.len() < MOST {
                let _kept = self.line.push(*byte).is_ok();
            }
        }
    }
}

impl<W: Write> Write for LastLine<W> {
    fn write(&mut self, bytes: &[u8]) -> io::Result<usize> {
        let count = self.writer.write(bytes)?;
        self.keep(&bytes[..count]);
        Ok(count)
    }

    fn flush(&mut self) -> io::Result<()> {
        self.writer.flush()
    }
}
