// Bytes outside strings.
ghost use Rattle.std.specs.Prelude.{◌≡◌, ◌≤◌, length};
ghost use Rattle.std.specs.List.{prefix_len};
ghost use Rattle.ug_words.specs.Lexing.{is_blank, is_word_byte, mark_token};

use crate::token::TokenKind;

pub fn separates(byte: u8) -> bool
    ensures { result ≡ is_blank byte }
{
    byte == b' ' || byte == b'\t' || byte == b'\r'
}

pub fn stands_in_word(byte: u8) -> bool
    ensures { result ≡ is_word_byte byte }
{
    byte.is_ascii_alphanumeric()
        || byte == b'-'
        || byte == b'_'
        || byte == b':'
        || byte == b'*'
        || byte == b'.'
}

/// How many bytes of a word stand at the front.
pub fn word_length(bytes: &[u8]) -> usize
    ensures is { result ≡ prefix_len is_word_byte bytes.now }
    ensures fits { result ≤ length bytes.now }
{
    let mut count = 0;
    while count < bytes.len() {
        if !stands_in_word(bytes[count]) {
            return count;
        }
        count += 1;
    }
    count
}

/// A token of one byte.
pub fn mark(byte: u8) -> Option<TokenKind>
    ensures { result ≡ mark_token byte }
{
    match byte {
        b'{' => Some(TokenKind::Open),
        b'}' => Some(TokenKind::Close),
        b'(' => Some(TokenKind::ParenOpen),
        b')' => Some(TokenKind::ParenClose),
        b'!' => Some(TokenKind::Bang),
        _ => None,
    }
}
