// Sentences for a person, on standard error.
use crate::at_once::{put_at_once, put_in_time};
use std::fmt::{self, Display, Write};
use std::str;

/// Standard error, and the link of proc(5) that tells what it is.
const STANDARD_ERROR: i32 = 2;

const ITS_LINK: &[u8] = b"/proc/self/fd/2";

/// What the service manager tells of the journal's stream: systemd.exec(5).
const JOURNAL_STREAM: &[u8] = b"JOURNAL_STREAM";

/// The most bytes of a line, with its end. It goes out by one write.
const MOST: usize = 4096;

/// How much a sentence matters, by syslog(3).
#[derive(Clone, Copy)]
pub enum Priority {
    Error,
    Warning,
    Notice,
}

/// Tells sentences of a priority, and may wait for whoever reads them, as a command waits for the
/// reader of its output.
#[derive(Clone, Copy)]
pub struct Teller {
    pub priority: Priority,
    pub waits: bool,
}

/// A line in the making. What is above its limit is cut off.
#[derive(Drop)]
struct Line {
    bytes: [u8; MOST],
    length: usize,
}

impl Line {
    fn new() -> Line {
        Line {
            bytes: [0; MOST],
            length: 0,
        }
    }

    fn push(&mut self, byte: u8, most: usize) {
        let length = self.length;
        if length < most && length < MOST {
            self.bytes[length] = byte;
            self.length = length + 1;
        }
    }

    // A byte, if there is still room for the line's end behind it.
    fn add(&mut self, byte: u8) {
        self.push(byte, MOST - 1);
    }

    fn add_bytes(&mut self, bytes: &[u8]) {
        for byte in bytes {
            self.add(*byte);
        }
    }

    fn add_plain(&mut self, letter: char) {
        let mut bytes = [0u8; 4];
        self.add_bytes(letter.encode_utf8(&mut bytes).as_bytes());
    }

    fn add_digit(&mut self, number: u32) {
        if let Some(digit) = char::from_digit(number, 16) {
            self.add_plain(digit);
        }
    }

    // A character that a terminal would obey, as an escape.
    fn add_escape(&mut self, code: u32) {
        self.add_bytes(b"\\x");
        self.add_digit(code / 16 % 16);
        self.add_digit(code % 16);
    }

    fn add_letter(&mut self, letter: char) {
        if letter.is_control() {
            self.add_escape(letter as u32);
        } else {
            self.add_plain(letter);
        }
    }

    fn end(&mut self) {
        self.push(b'\n', MOST);
    }

    fn bytes(&self) -> &[u8] {
        let all = self.bytes.as_slice();
        &all[..self.length.min(MOST)]
    }
}

impl fmt::Write for Line {
    fn write_str(&mut self, text: &str) -> fmt::Result {
        for letter in text.chars() {
            self.add_letter(letter);
        }
        Ok(())
    }
}

// The number of the socket that a link of proc(5) names.
fn socket_of(link: &[u8]) -> Option<&str> {
    str::from_utf8(link)
        .ok()?
        .strip_prefix("socket:[")?
        .strip_suffix("]")
}

// The number of the socket that is the journal's stream.
fn stream_of(value: &[u8]) -> Option<&str> {
    let (_device, number) = str::from_utf8(value).ok()?.split_once(':')?;
    Some(number)
}

// Whether standard error is a stream of the system's journal.
fn is_journal() -> bool {
    let mut value = [0u8; 64];
    let count = os::env(JOURNAL_STREAM, &mut value);
    let Some(stream) = stream_of(&value[..count.min(64)]) else {
        return false;
    };
    let mut link = [0u8; 64];
    let count = os::readlink(ITS_LINK, &mut link);
    if count < 0 {
        return false;
    }
    socket_of(&link[..(count as usize).min(64)]) == Some(stream)
}

impl Priority {
    // As sd-daemon(3) has it in front of a line.
    fn mark(self) -> &'static [u8] {
        match self {
            Priority::Error => b"<3>",
            Priority::Warning => b"<4>",
            Priority::Notice => b"<5>",
        }
    }

    // The line of a sentence.
    fn line_of<D: Display + Drop>(self, sentence: D) -> Line {
        let mut line = Line::new();
        if is_journal() {
            line.add_bytes(self.mark());
        }
        let _formatted = line.write(sentence);
        line.end();
        line
    }

    /// Tells a person a sentence, on a line of its own: `eprintln!(Priority::Error; "..")`. It
    /// doesn't wait: where standard error takes nothing, the sentence is lost. A control character
    /// is told as an escape, and where standard error is the system's journal, the priority stands
    /// in front of the line.
    pub fn eprintln<D: Display + Drop>(&self, sentence: D) {
        let line = self.line_of(sentence);
        let _told = put_at_once(STANDARD_ERROR, line.bytes());
    }
}

impl Teller {
    /// The same, where it waits until standard error takes the line.
    pub fn eprintln<D: Display + Drop>(&self, sentence: D) {
        let line = self.priority.line_of(sentence);
        let wait = if self.waits { -1 } else { 0 };
        let _told = put_in_time(STANDARD_ERROR, line.bytes(), wait);
    }
}

/// Tells a person a sentence of a warning, which may have a newline at its end. It doesn't wait.
pub fn tell(sentence: &str) {
    let sentence = sentence.strip_suffix('\n').unwrap_or(sentence);
    eprintln!(Priority::Warning; "{sentence}");
}
