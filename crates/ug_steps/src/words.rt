// Names, numbers and hexadecimal words of a script's lines.
ghost use Rattle.std.specs.Prelude.{◌≡◌, ◌||◌, Some, find, nat_eq, not};
ghost use Rattle.std.specs.List.{list_any, position};
ghost use Rattle.ug_steps.specs.Words as words;
ghost use Rattle.ug_steps.specs.Words.{name_of, moment_word, bytes_of, Parses};

use crate::step::StepFault;
use std::alloc::Global;
use ug_lines::parse_decimal;
use ug_types::{NodeName, Text};

/// A node name of at most 31 bytes.
pub fn name(text: &[u8]) -> Option<NodeName>
    ensures { result ≡ name_of text.now }
{
    match NodeName::parse(text) {
        Ok(name) => Some(name),
        Err(_) => None,
    }
}

/// A decimal number without sign or leading zero, up to 250,000,000,000.
#[tactic(auto, unfolding(crate::specs::Words::moment_word))]
pub fn moment(text: &[u8]) -> Option<u64>
    ensures { result ≡ moment_word text.now }
{
    match parse_decimal(text) {
        Some(number) => {
            if number <= 250_000_000_000 {
                Some(number)
            } else {
                None
            }
        }
        None => None,
    }
}

// Where the byte first is.
fn place_of(text: &[u8], byte: u8) -> Option<usize>
    ensures { result ≡ position (nat_eq byte) text.now }
{
    for place in 0..text.len() {
        if byte == text[place] {
            return Some(place);
        }
    }
    None
}

/// Where the first space is.
pub fn space(text: &[u8]) -> Option<usize>
    ensures { result ≡ position (nat_eq 32) text.now }
{
    place_of(text, b' ')
}

/// Where the first dot is.
pub fn dot(text: &[u8]) -> Option<usize>
    ensures { result ≡ position (nat_eq 46) text.now }
{
    place_of(text, b'.')
}

/// The first byte that is neither a space nor a tab.
fn first_byte(text: &[u8]) -> Option<u8>
    ensures { result ≡ find (λ b. not (nat_eq b 32 || nat_eq b 9)) text.now }
{
    for byte in text {
        if *byte != b' ' && *byte != b'\t' {
            return Some(*byte);
        }
    }
    None
}

/// Whether a line of settings or of access is neither blank nor a comment.
pub fn is_entry(text: &[u8]) -> bool
    ensures { result ≡ words.is_entry text.now }
{
    match first_byte(text) {
        None => false,
        Some(b) => b != b'#',
    }
}

fn has_newline(text: &[u8]) -> bool
    ensures { result ≡ list_any (λ b. nat_eq b 10) text.now }
{
    for byte in text {
        if *byte == b'\n' {
            return true;
        }
    }
    false
}

/// Whether no newline ends it.
pub fn is_one_line(text: &[u8]) -> bool
    ensures { result ≡ words.is_one_line text.now }
{
    !has_newline(text)
}

/// The bytes that an even number of hexadecimal digits write, at least two.
#[tactic(auto, unfolding(crate::specs::Words::bytes_of))]
pub fn bytes(alloc: Global, digits: &[u8]) -> Result<Text, StepFault>
    ensures { Parses (bytes_of digits.now) result }
{
    match hex::decode(alloc, digits) {
        Ok(bytes) => {
            if bytes.is_empty() {
                return Err(StepFault::Bad);
            }
            Ok(Text::from_vec(bytes))
        }
        Err(hex::FromHexError::OutOfMemory) => Err(StepFault::Memory),
        Err(_) => Err(StepFault::Bad),
    }
}
