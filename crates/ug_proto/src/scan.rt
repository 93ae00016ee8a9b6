// The parts of a text, from its front. A part is told only once the byte that ends it stands.
ghost use Rattle.std.specs.Prelude.{◌≡◌, ◌++◌, ◌∷◌, ◌≤◌, ◌<◌, ℕ, IfOk, IfErr, IfSome, IfNone, decimal};
ghost use Rattle.ug_types.specs.Elements.{Has};
ghost use Rattle.ug_proto.specs.Scanning.{IsTextThen, IsStop};
ghost use Rattle.ug_proto.specs.RefusalParts.{number_then, IsNumberIn};

use ug_lines::parse_decimal;
use ug_types::NoMemory;

/// Why no part was taken.
#[derive(Clone, Copy)]
pub enum Stop {
    /// It ends before the part does.
    Short,
    /// However it goes on, it has no such part.
    Bad,
    Memory,
}

impl From<NoMemory> for Stop {
    ghost use Rattle.std.specs.Prelude.{◌≡◌};
    ghost use Rattle.ug_proto.specs.declared.scan.Stop.{Stop};
    ghost use Rattle.ug_proto.specs.declared.scan.Stop.TheVariants.{Memory};

    ghost from_gives = { λ _ stop. stop ≡ Memory };

    fn from(_e: NoMemory) -> Stop {
        Stop::Memory
    }
}

/// What stands before the first such byte, and behind it.
pub fn split_at(text: &[u8], end: u8) -> Option<(&[u8], &[u8])>
    ensures some { IfSome result
        (λ p. (text.now ≡ p.0.now ++ end ∷ p.1.now) × (¬ Has p.0.now end)) }
    ensures none { IfNone result (¬ Has text.now end) }
{
    for (i, byte) in text.iter().enumerate() {
        if *byte == end {
            return Some((&text[..i], &text[i + 1..]));
        }
    }
    None
}

/// Takes these bytes.
pub fn take_word<'a>(text: &'a [u8], word: &[u8]) -> Result<&'a [u8], Stop>
    ensures ok { IfOk result (λ rest. text.now ≡ word.now ++ rest.now) }
    ensures err { IfErr result
        (λ stop. IsStop {X = Unit {0}} (λ _. word.now) (λ _. Unit {0}) text.now stop) }
{
    if text.starts_with(word) {
        return Ok(&text[word.len()..]);
    }
    if word.starts_with(text) {
        return Err(Stop::Short);
    }
    Err(Stop::Bad)
}

fn bounded_number(word: &[u8], least: u64, most: u64) -> Option<u64>
    ensures some { IfSome result (λ n. IsNumberIn least most n × (word.now ≡ decimal n)) }
    ensures none { IfNone result ((n : ℕ) → IsNumberIn least most n → word.now ≡ decimal n → ⊥) }
{
    match parse_decimal(word) {
        Some(number) => {
            if number < least {
                return None;
            }
            if number > most {
                return None;
            }
            Some(number)
        }
        None => None,
    }
}

/// Takes a number between those two, and the byte that ends it.
pub fn take_number(text: &[u8], least: u64, most: u64, end: u8) -> Result<(u64, &[u8]), Stop>
    requires digits { end < 48 }
    requires least { least ≤ 1 }
    requires most { least ≤ most }
    ensures ok { IfOk result
        (λ p. IsTextThen (number_then end) (IsNumberIn least most) text.now p.0 p.1.now) }
    ensures err { IfErr result
        (λ stop. IsStop (number_then end) (IsNumberIn least most) text.now stop) }
{
    match split_at(text, end) {
        Some((word, rest)) => match bounded_number(word, least, most) {
            Some(number) => Ok((number, rest)),
            None => Err(Stop::Bad),
        },
        None => {
            if text.is_empty() {
                return Err(Stop::Short);
            }
            match bounded_number(text, least, most) {
                Some(_) => Err(Stop::Short),
                None => Err(Stop::Bad),
            }
        }
    }
}
