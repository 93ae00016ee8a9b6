// Tokens read from a line.
ghost use Rattle.std.specs.Prelude.{◌≡◌, [], List, Ok, Err, IfOk, IfErr};
ghost use Rattle.ug_words.specs.declared.token.Token.{Token};
ghost use Rattle.ug_words.specs.Lexing.{AnswersTokens, Fault, tokens_from, tokens_of};
ghost use Rattle.ug_words.specs.Grammar.{Good, Bad, IfLexical};

use crate::fault::LexFault;
use crate::front::front;
use crate::pieces::Front;
use crate::token::Token;
use std::alloc::Global;
use ug_types::{List, NoMemory};

/// The tokens of a line, or its first fault. Space, tab and carriage return separate, and `#` outside a string ends the
/// line. Linear in the number of bytes.
#[tactic(auto, unfolding(crate::specs::Lexing::tokens_of))]
pub fn tokens(alloc: Global, line: &[u8]) -> Result<List<Token>, LexFault>
    ensures good { IfOk result (λ tokens. Good line.now tokens) }
    ensures only_good { (tokens : List Token) → Good line.now tokens
        → AnswersTokens result (Ok tokens) }
    ensures bad { IfErr result (λ e. IfLexical e (Bad line.now)) }
    ensures only_bad { (fault : Fault) → Bad line.now fault → AnswersTokens result (Err fault) }
    ensures exact { AnswersTokens result (tokens_of line.now) }
{
    read(alloc, line)
}

// No tokens, with room for those of most lines.
fn room_for_some(alloc: Global) -> Result<List<Token>, NoMemory>
    ensures { IfOk result (λ tokens. tokens ≡ []) }
{
    Ok(List::from_vec(Vec::with_capacity(alloc, 16)?))
}

fn read(alloc: Global, line: &[u8]) -> Result<List<Token>, LexFault>
    ensures { AnswersTokens result (tokens_from 0 0 line.now) }
{
    let mut tokens = room_for_some(alloc)?;
    let mut at = 0;
    while at < line.len() {
        match front(alloc, line, at)? {
            Front::Blank => at += 1,
            Front::Comment => return Ok(tokens),
            Front::Piece { kind, more } => {
                let start = at;
                at += 1 + more;
                tokens.push(Token {
                    kind,
                    start,
                    end: at,
                })?;
            }
        }
    }
    Ok(tokens)
}
