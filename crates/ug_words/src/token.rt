// Tokens of a rule line.
use ug_types::Text;

#[derive(Drop)]
pub enum TokenKind {
    /// A longest run of ASCII letters, digits, `-`, `_`, `:`, `*` and `.`.
    Word,
    /// What a string in double quotes spells, with its escapes undone.
    Str(Text),
    /// `{`
    Open,
    /// `}`
    Close,
    /// `(`
    ParenOpen,
    /// `)`
    ParenClose,
    /// `!`
    Bang,
}

/// A token and the bytes of the line that it takes, from `start` to before `end`. A string takes both its quotes.
#[derive(Drop)]
pub struct Token {
    pub kind: TokenKind,
    pub start: usize,
    pub end: usize,
}
