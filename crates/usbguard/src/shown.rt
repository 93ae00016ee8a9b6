// A line of a file, with a mark below the place of its fault.
use std::alloc::Global;
use std::io::Read;
use std::rt::Files;
use std::str;
use ug_files::{Teller, open_plain};
use ug_types::TEXT_LIMIT;

/// How much of a line is shown before the fault and behind it.
const BEFORE: usize = 60;

const BEHIND: usize = 40;

fn is_newline(byte: &u8) -> bool {
    *byte == b'\n'
}

/// The bytes of a file, as far as they are looked at. None where they can't be had.
pub fn read_text(rt: &HostRuntime, path: &str) -> Option<Vec<u8>> {
    let file = open_plain(rt, path).ok()?;
    let mut text = Vec::new(rt.alloc());
    match file.take(TEXT_LIMIT as u64).read_to_end(&mut text) {
        Ok(_) => Some(text),
        Err(_) => None,
    }
}

/// A text's line of that number, from 1.
pub fn line_of(text: &[u8], number: u64) -> Option<&[u8]> {
    let before = usize::try_from(number.checked_sub(1)?).ok()?;
    text.split(is_newline).nth(before)
}

/// How a line shows a character: a terminal obeys none of them.
fn plain(letter: char) -> char {
    match letter {
        '\t' => ' ',
        _ if letter.is_control() => '?',
        _ => letter,
    }
}

fn push_text(shown: &mut String, text: &str) -> Option<()> {
    for letter in text.chars() {
        shown.push(plain(letter)).ok()?;
    }
    Some(())
}

/// Bytes that aren't UTF-8, each of which is a character where it is ASCII.
fn push_bytes(shown: &mut String, bytes: &[u8]) -> Option<()> {
    for byte in bytes {
        let letter = if byte.is_ascii() { *byte } else { b'?' };
        shown.push(plain(char::from(letter))).ok()?;
    }
    Some(())
}

fn push_plain(shown: &mut String, bytes: &[u8]) -> Option<()> {
    match str::from_utf8(bytes) {
        Ok(text) => push_text(shown, text),
        Err(_) => push_bytes(shown, bytes),
    }
}

// What a line shows of these bytes.
fn plain_of(alloc: Global, bytes: &[u8]) -> Option<String> {
    let mut shown = String::new(alloc);
    if push_plain(&mut shown, bytes).is_none() {
        drop(shown);
        return None;
    }
    Some(shown)
}

/// The last characters of a text.
fn last_of(text: &str) -> &str {
    match text.char_indices().rev().nth(BEFORE) {
        Some((at, _)) => text.get(at..).unwrap_or(text),
        None => text,
    }
}

/// The first characters of a text.
fn first_of(text: &str) -> &str {
    match text.char_indices().nth(BEHIND) {
        Some((at, _)) => text.get(..at).unwrap_or(text),
        None => text,
    }
}

// Tells a part of a line, and a caret between what stands before a place and what stands behind it.
fn tell_marked(teller: Teller, before: &str, behind: &str) {
    let (before, behind) = (last_of(before), first_of(behind));
    let blanks = before.chars().count();
    eprintln!(teller; "    {before}{behind}");
    eprintln!(teller; "    {:blanks$}^", "");
}

/// Tells a line, and below it a caret where so many of its bytes stand before a fault.
pub fn tell_excerpt(alloc: Global, teller: Teller, line: &[u8], place: u64) {
    let place = usize::try_from(place).unwrap_or(usize::MAX);
    if line.is_empty() {
        return;
    }
    let Some((before, behind)) = line.split_at_checked(place) else {
        return;
    };
    let (Some(before), Some(behind)) = (plain_of(alloc, before), plain_of(alloc, behind)) else {
        return;
    };
    tell_marked(teller, before.as_str(), behind.as_str());
    drop(behind);
    drop(before);
}
