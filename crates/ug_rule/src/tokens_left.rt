// The tokens that are still to be read.
ghost use Rattle.std.specs.Prelude.{◌≡◌, ◌≤◌, [], ◌∷◌, ◌-◌, length, take, drop, true, false, IfSome, IfNone};
ghost use Rattle.ug_rule.specs.Faults.{AnswersRead};
ghost use Rattle.ug_rule.specs.Tokens.{word_of, first_word, is_open, is_close, starts_with_paren, behind_first, tokens_read};

use crate::fault::{FaultKind, Stop};
use std::alloc::Global;
use std::collections::VecDeque;
use std::marker::Model;
use ug_types::List;
use ug_words::{LexFault, Token, TokenKind, tokens};

/// Tokens in a line's order, seen as their list.
#[derive(Drop)]
pub struct Tokens {
    items: VecDeque<Token>,
}

impl Model for Tokens {
    ghost use Rattle.std.specs.Prelude.{List};
    ghost use Rattle.ug_words.specs.declared.token.Token.{Token};

    ghost Value = { List Token };

    ghost view = { λ t. t.items.items };
}

// The bytes from one place to another, as far as there are any.
#[tactic(auto, using(crate::proofs::Cuts::cut))]
fn between(line: &[u8], start: usize, end: usize) -> &[u8]
    ensures { result.now ≡ take (end - start) (drop start line.now) }
{
    let end = end.min(line.len());
    let start = start.min(end);
    &line[start..end]
}

/// The bytes of a word. Another token has none.
pub fn word<'a>(line: &'a [u8], token: &Token) -> &'a [u8]
    ensures { result.now ≡ word_of line.now token.now }
{
    match token.kind {
        TokenKind::Word => between(line, token.start, token.end),
        _ => &[],
    }
}

/// Whether the token is a `{`.
pub fn opens(token: &Token) -> bool
    ensures { result ≡ is_open token.now.kind }
{
    matches!(token.kind, TokenKind::Open)
}

/// Whether the token is a `}`.
pub fn closes(token: &Token) -> bool
    ensures { result ≡ is_close token.now.kind }
{
    matches!(token.kind, TokenKind::Close)
}

impl Tokens {
    /// The same tokens, without memory.
    pub fn new(tokens: List<Token>) -> Tokens
        ensures { result ≡ tokens }
    {
        Tokens {
            items: VecDeque::from(tokens.into_vec()),
        }
    }

    pub fn next(&mut self) -> Option<Token>
        ensures some { IfSome result (λ token. self.old ≡ token ∷ self.new) }
        ensures none { IfNone result ((self.old ≡ []) × (self.new ≡ [])) }
    {
        self.items.pop_front()
    }

    /// The word that comes next, or no bytes.
    pub fn first_word<'a>(&self, line: &'a [u8]) -> &'a [u8]
        ensures { result.now ≡ first_word line.now self.now }
    {
        match self.items.front() {
            Some(token) => word(line, token),
            None => &[],
        }
    }

    /// Takes the first token, if there is one.
    pub fn skip(&mut self)
        ensures is { self.new ≡ behind_first self.old }
        ensures shorter { length self.new ≤ length self.old }
    {
        let _ = self.next();
    }

    fn opens_paren(&self) -> bool
        ensures { result ≡ starts_with_paren self.now }
    {
        match self.items.front() {
            Some(token) => matches!(token.kind, TokenKind::ParenOpen),
            None => false,
        }
    }

    /// Takes a `(`, if it comes next.
    pub fn take_paren(&mut self) -> bool
        ensures is { result ≡ starts_with_paren self.old }
        ensures taken { result ≡ true → self.new ≡ behind_first self.old }
        ensures kept { result ≡ false → self.new ≡ self.old }
        ensures shorter { length self.new ≤ length self.old }
    {
        if !self.opens_paren() {
            return false;
        }
        self.skip();
        true
    }
}

/// The tokens of a line.
pub fn read(alloc: Global, line: &[u8]) -> Result<List<Token>, Stop>
    ensures { AnswersRead result (tokens_read line.now) }
{
    match tokens(alloc, line) {
        Ok(list) => Ok(list),
        Err(LexFault::BadEscape(place)) => Err(Stop::at(FaultKind::BadEscape, place)),
        Err(LexFault::OpenString(place)) => Err(Stop::at(FaultKind::OpenString, place)),
        Err(LexFault::BadByte(place)) => Err(Stop::at(FaultKind::BadByte, place)),
        Err(LexFault::Memory) => Err(Stop::Memory),
    }
}
