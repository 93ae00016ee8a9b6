// A line about its first `=`.
ghost use Rattle.std.specs.Prelude.{◌≡◌, length, nat_eq};
ghost use Rattle.std.specs.List.{position};
ghost use Rattle.ug_lines.specs.Cuts.{IsWithin, cut_as, cut_of, cut_shown};

use crate::blanks::{without_end, without_front};

/// What a line is by its first `=`, without the blanks about the line and about the sign. A blank is a space or a tab.
pub enum LineCut<'a> {
    /// It is empty, or a comment that begins with `#`.
    Skipped,
    /// It has no `=`.
    NoSign,
    Equation {
        word: &'a [u8],
        value: &'a [u8],
        /// How many bytes stand before the value, from the line's first byte that is no blank.
        place: u64,
    },
}

fn equals_in(text: &[u8]) -> Option<usize>
    ensures { result ≡ position (nat_eq 61) text.now }
{
    for place in 0..text.len() {
        if b'=' == text[place] {
            return Some(place);
        }
    }
    None
}

// A text that is neither empty nor a comment, without its blanks.
fn cut_text(text: &[u8]) -> LineCut<'_>
    ensures is { cut_as result ≡ cut_shown text.now }
    ensures within { IsWithin (length text.now) result }
{
    match equals_in(text) {
        Some(at) => {
            let word = without_end(&text[..at]);
            let value = without_front(&text[at + 1..]);
            let place = (text.len() - value.len()) as u64;
            LineCut::Equation { word, value, place }
        }
        None => LineCut::NoSign,
    }
}

/// Cuts a line without its newline. Linear in the number of bytes, and takes no memory.
pub fn cut_line(line: &[u8]) -> LineCut<'_>
    ensures is { cut_as result ≡ cut_of line.now }
    ensures within { IsWithin (length line.now) result }
{
    let text = without_end(without_front(line));
    if text.is_empty() {
        return LineCut::Skipped;
    }
    if text[0] == b'#' {
        return LineCut::Skipped;
    }
    cut_text(text)
}
