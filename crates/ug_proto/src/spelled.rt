// What is written as one of a few words.
ghost use Rattle.std.specs.Prelude.{◌≡◌, ◌++◌, ◌∷◌, [], IfOk, IfErr};
ghost use Rattle.ug_proto.specs.RefusalParts.{Anything, spelled_then};
ghost use Rattle.ug_proto.specs.Scanning as scanning;
ghost use Rattle.ug_proto.specs.Scanning.{IsTextThen, IsStop};

use crate::scan::{Stop, take_word};
use ug_types::{Privilege, Section};

/// What is written as one word.
pub trait OneWord: Copy {
    ghost use Rattle.std.specs.Prelude.{◌≡◌, ℕ, List};
    ghost use Rattle.ug_types.specs.Elements.{Has};

    ghost word_of: { Self → List ℕ };

    /// All of them.
    fn all() -> &'static [Self]
        ensures { (it : Self) → Has result.now it };

    /// The word for it.
    fn spelling(self) -> &'static [u8]
        ensures { result.now ≡ word_of self };
}

impl OneWord for Section {
    ghost use Rattle.ug_types.specs.Access.{section_word};

    ghost word_of = { section_word };

    fn all() -> &'static [Section] {
        &[
            Section::Devices,
            Section::Policy,
            Section::Exceptions,
            Section::Parameters,
        ]
    }

    fn spelling(self) -> &'static [u8] {
        self.word()
    }
}

impl OneWord for Privilege {
    ghost use Rattle.ug_types.specs.Access.{privilege_word};

    ghost word_of = { privilege_word };

    fn all() -> &'static [Privilege] {
        &[Privilege::Modify, Privilege::List, Privilege::Listen]
    }

    fn spelling(self) -> &'static [u8] {
        self.word()
    }
}

// Takes these bytes, and the byte that ends them.
fn take_ended<'a>(text: &'a [u8], word: &[u8], end: u8) -> Result<&'a [u8], Stop>
    ensures ok { IfOk result (λ rest. text.now ≡ (word.now ++ end ∷ []) ++ rest.now) }
    ensures err { IfErr result
        (λ stop. IsStop {X = Unit {0}} (λ _. word.now ++ end ∷ []) (λ _. Unit {0}) text.now stop) }
{
    let rest = take_word(text, word)?;
    take_word(rest, &[end])
}

// Why neither of two texts stands in front.
fn neither(first: Stop, second: Stop) -> Stop
    ensures { result ≡ scanning.neither first second }
{
    match second {
        Stop::Bad => first,
        _ => second,
    }
}

/// Takes the word of one of them, and the byte that ends it.
pub fn take_spelled<T: OneWord + 'static>(text: &[u8], end: u8) -> Result<(T, &[u8]), Stop>
    ensures ok { IfOk result
        (λ p. IsTextThen (spelled_then T.word_of end) Anything text.now p.0 p.1.now) }
    ensures err { IfErr result
        (λ stop. IsStop (spelled_then T.word_of end) Anything text.now stop) }
{
    let all = T::all();
    let mut stop = Stop::Bad;
    for it in all {
        match take_ended(text, it.spelling(), end) {
            Ok(rest) => return Ok((*it, rest)),
            Err(now) => stop = neither(stop, now),
        }
    }
    Err(stop)
}
