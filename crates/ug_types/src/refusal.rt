// Why an order was refused, and its words.
ghost use Rattle.std.specs.Prelude.{◌≡◌, ◌≤◌, ◌+◌, ◌++◌, ◌∷◌, length, decimal};
ghost use Rattle.ug_types.specs.Refusals.{refusal_words};

use crate::access::{Privilege, Section};
use crate::line::Line;

/// Why an order was refused. Where several causes stand together, the first of BadRequest, Denied, BadRule, NoDevice for a
/// number that no device has, ProbeFault, NoDevice for a device that has gone, NoRule, FolderRule, and then the others from
/// BadParameter to DeviceFault in their order is told; Memory may be told in place of any.
#[derive(Clone, Copy)]
pub enum Refusal {
    /// The line is no request: the first word that doesn't fit begins at that byte.
    BadRequest {
        place: u64,
    },
    /// That privilege is wanted, and is the first that isn't held.
    Denied {
        section: Section,
        privilege: Privilege,
    },
    /// The rule can't be read: usbguard-rules.conf(5).
    BadRule {
        kind: u8,
        place: u64,
    },
    /// No device has that number.
    NoDevice {
        number: u64,
    },
    /// No rule has that id.
    NoRule {
        id: u64,
    },
    /// No parameter has that name.
    BadParameter,
    /// The parameter can't have that value.
    BadValue,
    /// A permanent rule was to be made of a device whose descriptors can't be read.
    MalformedDevice {
        number: u64,
    },
    /// There is no room for one more rule.
    RulesFull,
    /// The rules weren't saved: the disk's count of faults.
    StoreFault {
        count: u64,
    },
    /// A call of the kernel failed: its number, and the kernel's count of faults.
    DeviceFault {
        call: u64,
        count: u64,
    },
    /// Memory was short; whether the ordered verdict stands all the same.
    Memory {
        stands: bool,
    },
    /// The device couldn't be looked at: the kernel's count of faults.
    ProbeFault {
        count: u64,
    },
    /// The rule of that id is one of the folder, or one of the folder stands behind it.
    FolderRule {
        id: u64,
    },
}

// A line that is these words and a number.
fn with_number(words: &[u8], number: u64) -> Line
    requires { length words.now ≤ 40 }
    ensures text { result ≡ words.now ++ decimal number }
    ensures length { length result ≤ 60 }
{
    let mut line = Line::of(words);
    line.push_decimal(number);
    line
}

// The same with one more number.
fn with_numbers(words: &[u8], first: u64, second: u64) -> Line
    requires { length words.now ≤ 40 }
    ensures text { result ≡ words.now ++ (decimal first ++ 32 ∷ decimal second) }
    ensures length { length result ≤ 81 }
{
    let mut line = with_number(words, first);
    line.push_number(second);
    line
}

#[tactic(auto, unfolding(crate::specs::Refusals::refusal_words))]
fn denied(section: Section, privilege: Privilege) -> Line
    ensures text { result ≡ refusal_words (Refusal.Denied section privilege) }
    ensures length { length result ≤ 81 }
{
    let mut line = Line::of(b"refused 2 denied");
    line.push_word(section.word());
    line.push_word(privilege.word());
    line
}

/// The words from `refused` on, without a newline. It takes no memory.
#[tactic(auto, unfolding(crate::specs::Refusals::refusal_words))]
pub fn words_of(refusal: &Refusal) -> Line
    ensures text { result ≡ refusal_words refusal.now }
    ensures length { length result ≤ 81 }
{
    match refusal {
        Refusal::BadRequest { place } => with_number(b"refused 1 bad-request ", *place),
        Refusal::Denied { section, privilege } => denied(*section, *privilege),
        Refusal::BadRule { kind, place } => {
            with_numbers(b"refused 3 bad-rule ", *kind as u64, *place)
        }
        Refusal::NoDevice { number } => with_number(b"refused 4 no-device ", *number),
        Refusal::NoRule { id } => with_number(b"refused 5 no-rule ", *id),
        Refusal::BadParameter => Line::of(b"refused 6 bad-parameter"),
        Refusal::BadValue => Line::of(b"refused 7 bad-value"),
        Refusal::MalformedDevice { number } => {
            with_number(b"refused 8 malformed-device ", *number)
        }
        Refusal::RulesFull => Line::of(b"refused 9 rules-full"),
        Refusal::StoreFault { count } => with_number(b"refused 10 store-fault ", *count),
        Refusal::DeviceFault { call, count } => {
            with_numbers(b"refused 11 device-fault ", *call, *count)
        }
        Refusal::Memory { stands: false } => Line::of(b"refused 12 memory 0"),
        Refusal::Memory { stands: true } => Line::of(b"refused 12 memory 1"),
        Refusal::ProbeFault { count } => with_number(b"refused 13 probe-fault ", *count),
        Refusal::FolderRule { id } => with_number(b"refused 14 folder-rule ", *id),
    }
}
