// Strings in double quotes.
ghost use Rattle.std.specs.Prelude.{◌≡◌, ◌+◌, ◌<◌, ◌≤◌, [], IfOk, length, drop};
ghost use Rattle.ug_words.specs.Lexing.{AnswersTokens, digit_of, hex_escape, escape_of, inner_of, more_of, quoted_from};

use crate::fault::LexFault;
use crate::pieces::{Inner, Quoted};
use std::alloc::Global;
use ug_types::{List, NoMemory, Text};

fn digit(byte: u8) -> Option<u8>
    ensures { result ≡ digit_of byte }
{
    match byte {
        b'0'..=b'9' => Some(byte - b'0'),
        b'a'..=b'f' => Some(byte - b'a' + 10),
        b'A'..=b'F' => Some(byte - b'A' + 10),
        _ => None,
    }
}

fn digits(bytes: &[u8]) -> Inner
    ensures is { result ≡ hex_escape bytes.now }
    ensures fits { more_of result ≤ 1 + length bytes.now }
{
    if bytes.len() < 2 {
        return Inner::Stray;
    }
    match (digit(bytes[0]), digit(bytes[1])) {
        (Some(high), Some(low)) => Inner::Byte {
            value: high * 16 + low,
            more: 3,
        },
        _ => Inner::Stray,
    }
}

fn escape(bytes: &[u8]) -> Inner
    ensures is { result ≡ escape_of bytes.now }
    ensures fits { more_of result ≤ length bytes.now }
{
    if bytes.is_empty() {
        return Inner::Stray;
    }
    match bytes[0] {
        b'"' | b'\\' => Inner::Byte {
            value: bytes[0],
            more: 1,
        },
        b'x' => digits(&bytes[1..]),
        _ => Inner::Stray,
    }
}

fn inner(bytes: &[u8]) -> Inner
    ensures is { result ≡ inner_of bytes.now }
    ensures fits { 0 < length bytes.now → more_of result < length bytes.now }
{
    if bytes.is_empty() {
        return Inner::Newline;
    }
    match bytes[0] {
        b'"' => Inner::Quote,
        b'\n' => Inner::Newline,
        b'\\' => escape(&bytes[1..]),
        value => Inner::Byte { value, more: 0 },
    }
}

// No bytes, with room for those before the next quote.
fn room_for(alloc: Global, bytes: &[u8]) -> Result<List<u8>, NoMemory>
    ensures { IfOk result (λ text. text ≡ []) }
{
    let mut room = 0;
    while room < bytes.len() && bytes[room] != b'"' {
        room += 1;
    }
    Ok(List::from_vec(Vec::with_capacity(alloc, room)?))
}

/// Reads a string from its opening quote on.
pub fn string(alloc: Global, line: &[u8], opening: usize) -> Result<Quoted, LexFault>
    requires { opening < length line.now }
    ensures read { AnswersTokens result
        (quoted_from opening (opening + 1) 0 (drop (opening + 1) line.now)) }
    ensures fits { IfOk result (λ quoted. opening + quoted.more < length line.now) }
{
    let mut text = room_for(alloc, &line[opening + 1..])?;
    let mut at = opening + 1;
    while at < line.len() {
        match inner(&line[at..]) {
            Inner::Quote => {
                return Ok(Quoted {
                    text: Text::from_vec(text.into_vec()),
                    more: at - opening,
                });
            }
            Inner::Newline => return Err(LexFault::OpenString(opening as u64)),
            Inner::Stray => return Err(LexFault::BadEscape(at as u64)),
            Inner::Byte { value, more } => {
                text.push(value)?;
                at += 1 + more;
            }
        }
    }
    Err(LexFault::OpenString(opening as u64))
}
