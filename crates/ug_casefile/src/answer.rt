// Answers that are put together.
use itoa::Buffer;
use std::alloc::Global;
use ug_lines::two_digits;
use ug_types::{NoMemory, Text};

/// A text that grows. Where memory is short for a part, the text is none at its end.
#[derive(Drop)]
pub struct Answer {
    text: Vec<u8>,
    is_short: bool,
}

impl Answer {
    pub fn new(alloc: Global) -> Answer {
        Answer {
            text: Vec::new(alloc),
            is_short: false,
        }
    }

    /// What was added until now.
    pub fn text(&self) -> &[u8] {
        self.text.as_slice()
    }

    pub fn is_empty(&self) -> bool {
        self.text.is_empty()
    }

    pub fn add(&mut self, bytes: &[u8]) {
        if self.text.extend_from_slice(bytes).is_err() {
            self.fall_short();
        }
    }

    /// There was no memory for a part of it.
    pub fn fall_short(&mut self) {
        self.is_short = true;
    }

    /// Adds a text, if there was memory for it.
    pub fn add_text(&mut self, text: Result<Text, NoMemory>) {
        match text {
            Ok(text) => self.add(text.bytes()),
            Err(_) => self.fall_short(),
        }
    }

    /// Adds another answer.
    pub fn add_answer(&mut self, other: &Answer) {
        self.add(&other.text);
        self.is_short = self.is_short || other.is_short;
    }

    /// Adds the two hexadecimal digits of a byte.
    pub fn add_digits(&mut self, byte: u8) {
        self.add(&two_digits(byte));
    }

    /// Takes back what was added.
    pub fn clear(&mut self) {
        self.text.clear();
    }

    pub fn add_number(&mut self, number: u64) {
        let mut digits = Buffer::new();
        self.add(digits.format(number).as_bytes());
    }

    /// Printable bytes as they are, a newline as `\n`, others as `\xhh`.
    pub fn add_escaped(&mut self, bytes: &[u8]) {
        for byte in bytes {
            match *byte {
                b'\n' => self.add(b"\\n"),
                b' '..=b'~' => self.add(&[*byte]),
                other => {
                    self.add(b"\\x");
                    self.add_digits(other);
                }
            }
        }
    }

    /// The same between quotes.
    pub fn add_quoted(&mut self, bytes: &[u8]) {
        self.add(b"\"");
        self.add_escaped(bytes);
        self.add(b"\"");
    }

    pub fn finish(self) -> Result<Vec<u8>, NoMemory> {
        if self.is_short {
            return Err(NoMemory);
        }
        Ok(self.text)
    }
}

/// An answer of these bytes alone.
pub fn say(alloc: Global, bytes: &[u8]) -> Result<Vec<u8>, NoMemory> {
    Ok(Vec::from_slice(alloc, bytes)?)
}
