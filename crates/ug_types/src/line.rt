// A short line.
ghost use Rattle.std.specs.Prelude.{◌≡◌, ◌≤◌, ◌<◌, ◌+◌, ◌++◌, [], ◌∷◌, length, decimal};
ghost use Rattle.ug_types.specs.Principals.{principal_text};

use crate::principal::Principal;
use arrayvec::ArrayVec;
use itoa::Buffer;
use std::marker::Model;

/// A text of at most 512 bytes that takes no memory.
#[derive(Drop)]
pub struct Line {
    bytes: ArrayVec<u8, 512>,
}

impl Model for Line {
    ghost use Rattle.std.specs.Prelude.{ℕ, List, ◌≤◌, length};

    ghost Value = { List ℕ };

    ghost view = { λ l. l.bytes.items };

    ghost invariant = { λ l. length l.bytes.items ≤ 512 };
}

impl Line {
    pub fn new() -> Line
        ensures { result ≡ [] }
    {
        Line {
            bytes: ArrayVec::new(),
        }
    }

    pub fn bytes(&self) -> &[u8]
        ensures { result.now ≡ self.now }
    {
        self.bytes.as_slice()
    }

    /// Appends the bytes, for which there is room.
    pub fn push(&mut self, more: &[u8])
        requires { length self.old + length more.now ≤ 512 }
        ensures { self.new ≡ self.old ++ more.now }
    {
        let _done = self.bytes.try_extend_from_slice(more);
    }
    /// A line of these bytes.
    pub fn of(bytes: &[u8]) -> Line
        requires { length bytes.now ≤ 512 }
        ensures text { result ≡ bytes.now }
        ensures length { length result ≡ length bytes.now }
    {
        let mut line = Line::new();
        line.push(bytes);
        line
    }

    /// The name of a user, or of a group behind `:`.
    pub fn naming(who: &Principal) -> Line
        ensures text { result ≡ principal_text who.now }
        ensures length { length result ≤ 33 }
    {
        let mut line = Line::new();
        if who.is_group() {
            line.push(b":");
        }
        line.push(who.name());
        line
    }

    /// Appends a number in decimal digits.
    pub fn push_decimal(&mut self, number: u64)
        requires { length self.old + 20 ≤ 512 }
        ensures text { self.new ≡ self.old ++ decimal number }
        ensures length { length self.new ≤ length self.old + 20 }
    {
        let mut digits = Buffer::new();
        self.push(digits.format(number).as_bytes());
    }

    /// Appends a space and a word.
    pub fn push_word(&mut self, word: &[u8])
        requires { length self.old + length word.now < 512 }
        ensures text { self.new ≡ self.old ++ 32 ∷ word.now }
        ensures length { length self.new ≡ length self.old + length word.now + 1 }
    {
        self.push(b" ");
        self.push(word);
    }

    /// Appends a space and a number in decimal digits.
    pub fn push_number(&mut self, number: u64)
        requires { length self.old + 20 < 512 }
        ensures text { self.new ≡ self.old ++ 32 ∷ decimal number }
        ensures length { length self.new ≤ length self.old + 21 }
    {
        self.push(b" ");
        self.push_decimal(number);
    }
}
