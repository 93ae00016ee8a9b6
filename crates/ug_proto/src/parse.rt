// Replies from their texts.
ghost use Rattle.std.specs.Prelude.{◌≡◌, ◌++◌, ◌∷◌, [], ◌≤◌, ℕ, List, length, IfOk, IfErr, IfSome, IfNone, codes};
ghost use Rattle.ug_types.specs.Elements.{Has};
ghost use Rattle.ug_proto.specs.Scanning.{IsTextThen, IsStop};
ghost use Rattle.ug_proto.specs.NamedNumbers as numbers;
ghost use Rattle.ug_proto.specs.NamedNumbers.{IsNamedThen};
ghost use Rattle.ug_proto.specs.RefusalParts.{IsNumberIn, named_number, named_numbers, IsPairIn, denial_text, refusal_rest, refusal_line, HasRefusalNumber, Anything};
ghost use Rattle.ug_proto.specs.AnswerParts.{IsUnended, AreCountedLines, answer_text, IsAnswer};
ghost use Rattle.ug_proto.specs.Replies.{ended_lines, reply_text, IsReply};
ghost use Rattle.ug_types.specs.Refusals.{IsRefusal};
ghost use Rattle.ug_proto.specs.ReplyReading.{ReadsReply};

use crate::reply::{Reply, ReplyFault};
use crate::scan::{Stop, split_at, take_number, take_word};
use crate::spelled::take_spelled;
use std::alloc::Global;
use ug_types::{List, Privilege, Refusal, Section, Text};

const MAX: u64 = 18446744073709551615;

fn take_denial(text: &[u8]) -> Result<(Section, Privilege, &[u8]), Stop>
    ensures ok { IfOk result (λ p. IsTextThen denial_text Anything text.now (p.0, p.1) p.2.now) }
    ensures err { IfErr result (λ stop. IsStop denial_text Anything text.now stop) }
{
    let rest = take_word(text, b"denied ")?;
    let (section, rest) = take_spelled(rest, b' ')?;
    let (privilege, rest) = take_spelled(rest, b'\n')?;
    Ok((section, privilege, rest))
}

// The refusal with that number in place of its own.
fn renumbered(refusal: Refusal, number: u64) -> Refusal
    ensures { result ≡ numbers.renumbered refusal number }
{
    match refusal {
        Refusal::BadRequest { place: _ } => Refusal::BadRequest { place: number },
        Refusal::NoDevice { number: _ } => Refusal::NoDevice { number },
        Refusal::NoRule { id: _ } => Refusal::NoRule { id: number },
        Refusal::MalformedDevice { number: _ } => Refusal::MalformedDevice { number },
        Refusal::StoreFault { count: _ } => Refusal::StoreFault { count: number },
        Refusal::Memory { stands: _ } => Refusal::Memory {
            stands: number == 1,
        },
        Refusal::ProbeFault { count: _ } => Refusal::ProbeFault { count: number },
        Refusal::FolderRule { id: _ } => Refusal::FolderRule { id: number },
        other => other,
    }
}

// A name and a number of at most that size, which the refusal has in place of its own.
fn take_named<'a>(
    text: &'a [u8],
    name: &[u8],
    most: u64,
    refusal: Refusal,
) -> Result<(Refusal, &'a [u8]), Stop>
    ensures ok { IfOk result (λ p. IsNamedThen name.now most refusal text.now p.0 p.1.now) }
    ensures err { IfErr result
        (λ stop. IsStop (named_number name.now) (IsNumberIn 0 most) text.now stop) }
{
    let rest = take_word(text, name)?;
    let (number, rest) = take_number(rest, 0, most, b'\n')?;
    Ok((renumbered(refusal, number), rest))
}

// A name, a number of at most that size, and a number.
fn take_pair<'a>(text: &'a [u8], name: &[u8], most: u64) -> Result<(u64, u64, &'a [u8]), Stop>
    ensures ok { IfOk result
        (λ p. IsTextThen (named_numbers name.now) (IsPairIn most) text.now (p.0, p.1) p.2.now) }
    ensures err { IfErr result
        (λ stop. IsStop (named_numbers name.now) (IsPairIn most) text.now stop) }
{
    let rest = take_word(text, name)?;
    let (first, rest) = take_number(rest, 0, most, b' ')?;
    let (second, rest) = take_number(rest, 0, MAX, b'\n')?;
    Ok((first, second, rest))
}

// The rest of the refusal of that number.
#[tactic(auto, unfolding(crate::specs::RefusalParts::refusal_rest))]
fn take_numbered(number: u64, text: &[u8]) -> Result<(Refusal, &[u8]), Stop>
    requires { 1 ≤ number }
    ensures ok { IfOk result
        (λ p. IsTextThen refusal_rest (HasRefusalNumber number) text.now p.0 p.1.now) }
    ensures err { IfErr result (λ stop.
        IsStop refusal_rest (HasRefusalNumber number) text.now stop) }
{
    match number {
        1 => take_named(text, b"bad-request ", MAX, Refusal::BadRequest { place: 0 }),
        2 => {
            let (section, privilege, rest) = take_denial(text)?;
            Ok((Refusal::Denied { section, privilege }, rest))
        }
        3 => {
            let (kind, place, rest) = take_pair(text, b"bad-rule ", 255)?;
            let kind = kind as u8;
            Ok((Refusal::BadRule { kind, place }, rest))
        }
        4 => take_named(text, b"no-device ", MAX, Refusal::NoDevice { number: 0 }),
        5 => take_named(text, b"no-rule ", MAX, Refusal::NoRule { id: 0 }),
        6 => {
            let rest = take_word(text, b"bad-parameter\n")?;
            Ok((Refusal::BadParameter, rest))
        }
        7 => {
            let rest = take_word(text, b"bad-value\n")?;
            Ok((Refusal::BadValue, rest))
        }
        _ => take_later(number, text),
    }
}

// The same where the number is at least 8.
#[tactic(auto, unfolding(crate::specs::RefusalParts::refusal_rest))]
fn take_later(number: u64, text: &[u8]) -> Result<(Refusal, &[u8]), Stop>
    requires { 8 ≤ number }
    ensures ok { IfOk result
        (λ p. IsTextThen refusal_rest (HasRefusalNumber number) text.now p.0 p.1.now) }
    ensures err { IfErr result (λ stop.
        IsStop refusal_rest (HasRefusalNumber number) text.now stop) }
{
    match number {
        8 => take_named(
            text,
            b"malformed-device ",
            MAX,
            Refusal::MalformedDevice { number: 0 },
        ),
        9 => {
            let rest = take_word(text, b"rules-full\n")?;
            Ok((Refusal::RulesFull, rest))
        }
        10 => take_named(text, b"store-fault ", MAX, Refusal::StoreFault { count: 0 }),
        11 => {
            let (call, count, rest) = take_pair(text, b"device-fault ", MAX)?;
            Ok((Refusal::DeviceFault { call, count }, rest))
        }
        12 => take_named(text, b"memory ", 1, Refusal::Memory { stands: false }),
        13 => take_named(text, b"probe-fault ", MAX, Refusal::ProbeFault { count: 0 }),
        14 => take_named(text, b"folder-rule ", MAX, Refusal::FolderRule { id: 0 }),
        _ => Err(Stop::Bad),
    }
}

fn take_refusal(text: &[u8]) -> Result<(Refusal, &[u8]), Stop>
    ensures ok { IfOk result (λ p. IsTextThen refusal_line IsRefusal text.now p.0 p.1.now) }
    ensures err { IfErr result (λ stop. IsStop refusal_line IsRefusal text.now stop) }
{
    let rest = take_word(text, b"refused ")?;
    let (number, rest) = take_number(rest, 1, 14, b' ')?;
    take_numbered(number, rest)
}

fn take_line(alloc: Global, text: &[u8]) -> Result<(Text, &[u8]), Stop>
    ensures ok { IfOk result (λ p. (¬ Has p.0 10) × (text.now ≡ p.0 ++ 10 ∷ p.1.now)) }
    ensures err { IfErr result (λ stop. IsUnended text.now stop) }
{
    match split_at(text, b'\n') {
        Some((line, rest)) => {
            let line = Text::of(alloc, line)?;
            Ok((line, rest))
        }
        None => Err(Stop::Short),
    }
}

fn take_lines(alloc: Global, count: u64, text: &[u8]) -> Result<(List<Text>, &[u8]), Stop>
    ensures ok { IfOk result (λ p.
        IsTextThen ended_lines (AreCountedLines count) text.now p.0 p.1.now) }
    ensures err { IfErr result (λ stop. IsStop ended_lines (AreCountedLines count) text.now stop) }
{
    let mut lines = List::new(alloc);
    let mut rest = text;
    for _i in 0..count {
        let (line, behind) = take_line(alloc, rest)?;
        lines.push(line)?;
        rest = behind;
    }
    Ok((lines, rest))
}

fn take_answer(alloc: Global, text: &[u8]) -> Result<(List<Text>, &[u8]), Stop>
    ensures ok { IfOk result (λ p. IsTextThen answer_text IsAnswer text.now p.0 p.1.now) }
    ensures err { IfErr result (λ stop. IsStop answer_text IsAnswer text.now stop) }
{
    let (count, rest) = take_number(text, 0, MAX, b'\n')?;
    take_lines(alloc, count, rest)
}

fn take_reply(alloc: Global, text: &[u8]) -> Result<(Reply, &[u8]), Stop>
    ensures ok { IfOk result (λ p. IsTextThen reply_text IsReply text.now p.0 p.1.now) }
    ensures err { IfErr result (λ stop. IsStop reply_text IsReply text.now stop) }
{
    match take_word(text, b"ok ") {
        Ok(rest) => {
            let (lines, rest) = take_answer(alloc, rest)?;
            Ok((Reply::Lines(lines), rest))
        }
        Err(Stop::Bad) => {
            let (refusal, rest) = take_refusal(text)?;
            Ok((Reply::Refused(refusal), rest))
        }
        Err(Stop::Short) => Err(Stop::Short),
        Err(Stop::Memory) => Err(Stop::Memory),
    }
}

/// The reply that the text begins with, and how many bytes it has; nothing while the text is only the
/// beginning of a reply. It takes time linear in the text.
pub fn parse_reply(alloc: Global, text: &[u8]) -> Result<Option<(Reply, usize)>, ReplyFault>
    ensures { ReadsReply text.now result }
{
    match take_reply(alloc, text) {
        Ok((reply, rest)) => Ok(Some((reply, text.len() - rest.len()))),
        Err(Stop::Short) => Ok(None),
        Err(Stop::Bad) => Err(ReplyFault::BadReply),
        Err(Stop::Memory) => Err(ReplyFault::Memory),
    }
}
