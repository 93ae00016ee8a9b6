// What stands at the front of a line's rest.
use crate::token::TokenKind;
use ug_types::Text;

/// What begins a line's rest.
#[derive(Drop)]
pub enum Front {
    Blank,
    /// A comment, which goes to the line's end.
    Comment,
    /// A token of so many bytes beside its first.
    Piece { kind: TokenKind, more: usize },
}

/// What begins the rest of a string's inside.
#[derive(Clone, Copy)]
pub enum Inner {
    Quote,
    /// The line's end comes before the closing quote.
    Newline,
    /// A backslash that begins no escape.
    Stray,
    /// A byte that is spelled by so many bytes beside the first.
    Byte { value: u8, more: usize },
}

/// A string's text, and how many bytes it takes behind its opening quote.
#[derive(Drop)]
pub struct Quoted {
    pub text: Text,
    pub more: usize,
}
