// Why a line has no tokens.
ghost use Rattle.std.specs.Prelude.{◌≡◌};
ghost use Rattle.ug_words.specs.declared.fault.LexFault.TheVariants.{Memory};

use thiserror::Error;
use ug_types::NoMemory;

/// The first fault from the left, with its place as the number of bytes before it.
#[derive(Clone, Copy, Debug, Error)]
pub enum LexFault {
    /// A backslash in a string begins no escape.
    #[error("BadEscape")]
    BadEscape(u64),
    /// A string isn't closed on its line. The place is that of its opening quote.
    #[error("OpenString")]
    OpenString(u64),
    /// A byte outside a string begins no token.
    #[error("BadByte")]
    BadByte(u64),
    #[error("Memory")]
    Memory,
}

impl From<NoMemory> for LexFault {
    ghost from_gives = { λ _ e. e ≡ Memory };

    fn from(_e: NoMemory) -> LexFault {
        LexFault::Memory
    }
}
