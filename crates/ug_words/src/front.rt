// What stands at the front of a line's rest.
ghost use Rattle.std.specs.Prelude.{◌≡◌, ◌+◌, ◌<◌, IfOk, length, drop};
ghost use Rattle.ug_words.specs.Lexing.{AnswersTokens, front_of, passed_by};

use crate::bytes::{mark, separates, stands_in_word, word_length};
use crate::fault::LexFault;
use crate::pieces::Front;
use crate::string::string;
use crate::token::TokenKind;
use std::alloc::Global;

/// Reads the token that begins at a place, or says what else stands there.
pub fn front(alloc: Global, line: &[u8], at: usize) -> Result<Front, LexFault>
    requires { at < length line.now }
    ensures read { AnswersTokens result (front_of at (drop at line.now)) }
    ensures fits { IfOk result (λ front. at + passed_by (Ok front) < length line.now) }
{
    let byte = line[at];
    if separates(byte) {
        return Ok(Front::Blank);
    }
    if byte == b'#' {
        return Ok(Front::Comment);
    }
    if byte == b'"' {
        let quoted = string(alloc, line, at)?;
        return Ok(Front::Piece {
            kind: TokenKind::Str(quoted.text),
            more: quoted.more,
        });
    }
    if stands_in_word(byte) {
        return Ok(Front::Piece {
            kind: TokenKind::Word,
            more: word_length(&line[at + 1..]),
        });
    }
    match mark(byte) {
        Some(kind) => Ok(Front::Piece { kind, more: 0 }),
        None => Err(LexFault::BadByte(at as u64)),
    }
}
