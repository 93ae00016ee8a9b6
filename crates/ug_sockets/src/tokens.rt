// Sockets as numbers, by which the system names those that are ready.
ghost use Rattle.std.specs.Prelude.{◌≡◌, ◌<◌, ◌^◌};
ghost use Rattle.ug_sockets.specs.Tokens.{token_number};

use mio::Token;
use ug_links::{LinkId, Ready};

/// Sessions are numbered from here, and below it are the listeners' numbers.
pub const FIRST_SESSION: u64 = 4_294_967_296;

pub fn token_of(ready: Ready) -> Token
    ensures { result.0 ≡ token_number ready }
{
    match ready {
        Ready::Listener(number) => Token(number as usize),
        Ready::Session(id) => Token(id.0 as usize),
    }
}

pub fn ready_of(token: Token) -> Ready
    ensures number { token_number result ≡ token.0 }
    ensures listener { token.0 < 2 ^ 32 → result ≡ Ready.Listener token.0 }
{
    let number = token.0 as u64;
    if number < FIRST_SESSION {
        Ready::Listener(number as u32)
    } else {
        Ready::Session(LinkId(number))
    }
}

/// The bit of a token that calls for no turn at once.
const PATIENT: usize = 1 << 62;

/// The token of what can wait for a turn that comes anyway, or a while.
pub fn patient_token(ready: Ready) -> Token {
    Token(token_of(ready).0 | PATIENT)
}

pub fn is_patient(token: Token) -> bool {
    token.0 & PATIENT != 0
}

/// The token of the same socket that calls for a turn at once.
pub fn without_patience(token: Token) -> Token {
    Token(token.0 & !PATIENT)
}
