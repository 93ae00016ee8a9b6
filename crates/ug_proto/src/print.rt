// Requests and replies as they are written.
ghost use Rattle.std.specs.Prelude.{◌≡◌, ◌++◌, ◌∷◌, [], IfOk, decimal, true};
ghost use Rattle.ug_types.specs.Refusals.{refusal_words};
ghost use Rattle.ug_proto.specs.Texts as texts;
ghost use Rattle.ug_proto.specs.Texts.{device_word, permanence_words, after_word, request_text};
ghost use Rattle.ug_proto.specs.Replies.{ended_lines, reply_text};

use crate::reply::Reply;
use crate::request::Request;
use itoa::Buffer;
use std::alloc::Global;
use ug_types::{After, NoMemory, Refusal, Target, Text, words_of};

// Appends the bytes, and tells whether there was memory for them.
fn put(out: &mut Vec<u8>, bytes: &[u8]) -> bool
    ensures { result ≡ true → out.new.items ≡ out.old.items ++ bytes.now }
{
    out.extend_from_slice(bytes).is_ok()
}

fn put_number(out: &mut Vec<u8>, number: u64) -> bool
    ensures { result ≡ true → out.new.items ≡ out.old.items ++ decimal number }
{
    let mut digits = Buffer::new();
    put(out, digits.format(number).as_bytes())
}

fn word_for_device(target: Target) -> &'static [u8]
    ensures { result.now ≡ device_word target }
{
    match target {
        Target::Allow => b"allow-device",
        Target::Block => b"block-device",
        Target::Reject => b"reject-device",
    }
}

fn words_for_permanence(permanent: bool) -> &'static [u8]
    ensures { result.now ≡ permanence_words permanent }
{
    if permanent { b" permanent" } else { b"" }
}

fn kind_word(permanent: bool) -> &'static [u8]
    ensures { result.now ≡ texts.kind_word permanent }
{
    if permanent {
        b"permanent"
    } else {
        b"temporary"
    }
}

fn put_after(out: &mut Vec<u8>, after: After) -> bool
    ensures { result ≡ true → out.new.items ≡ out.old.items ++ after_word after }
{
    match after {
        After::End => put(out, b"end"),
        After::Front => put(out, b"0"),
        After::Rule(id) => put_number(out, id),
    }
}

fn put_device(out: &mut Vec<u8>, number: u64, target: Target, permanent: bool) -> bool
    ensures { result ≡ true → out.new.items ≡ out.old.items
        ++ (device_word target ++ 32 ∷ (decimal number ++ permanence_words permanent)) }
{
    put(out, word_for_device(target))
        && put(out, b" ")
        && put_number(out, number)
        && put(out, words_for_permanence(permanent))
}

fn put_rule(out: &mut Vec<u8>, after: After, permanent: bool, rule: &[u8]) -> bool
    ensures { result ≡ true → out.new.items ≡ out.old.items
        ++ (after_word after ++ 32 ∷ (texts.kind_word permanent ++ 32 ∷ rule.now)) }
{
    put_after(out, after)
        && put(out, b" ")
        && put(out, kind_word(permanent))
        && put(out, b" ")
        && put(out, rule)
}

#[tactic(auto, unfolding(crate::specs::Texts::request_text))]
fn put_request(out: &mut Vec<u8>, r: &Request) -> bool
    ensures { result ≡ true → out.new.items ≡ out.old.items ++ request_text r.now }
{
    match r {
        Request::GetParameter { name } => put(out, b"get-parameter ") && put(out, name.bytes()),
        Request::SetParameter { name, value } => {
            put(out, b"set-parameter ")
                && put(out, name.bytes())
                && put(out, b" ")
                && put(out, value.bytes())
        }
        Request::ListDevices => put(out, b"list-devices"),
        Request::Device {
            number,
            target,
            permanent,
        } => put_device(out, *number, *target, *permanent),
        Request::ListRules => put(out, b"list-rules"),
        Request::AppendRule {
            after,
            permanent,
            rule,
        } => put(out, b"append-rule ") && put_rule(out, *after, *permanent, rule.bytes()),
        Request::RemoveRule { id } => put(out, b"remove-rule ") && put_number(out, *id),
        Request::Watch => put(out, b"watch"),
    }
}

/// The line of a request, without its newline.
pub fn print_request(alloc: Global, r: &Request) -> Result<Text, NoMemory>
    ensures { IfOk result (λ text. text ≡ request_text r.now) }
{
    let mut out = Vec::new(alloc);
    if put_request(&mut out, r) {
        return Ok(Text::from_vec(out));
    }
    drop(out);
    Err(NoMemory)
}

fn put_lines(out: &mut Vec<u8>, lines: &[Text]) -> bool
    ensures { result ≡ true → out.new.items ≡ out.old.items ++ ended_lines lines.now }
{
    for line in lines {
        if !put(out, line.bytes()) {
            return false;
        }
        if !put(out, b"\n") {
            return false;
        }
    }
    true
}

fn put_refusal(out: &mut Vec<u8>, refusal: &Refusal) -> bool
    ensures { result ≡ true → out.new.items ≡ out.old.items
        ++ (refusal_words refusal.now ++ 10 ∷ []) }
{
    let words = words_of(refusal);
    put(out, words.bytes()) && put(out, b"\n")
}

#[tactic(auto, unfolding(crate::specs::Replies::reply_text))]
fn put_reply(out: &mut Vec<u8>, r: &Reply) -> bool
    ensures { result ≡ true → out.new.items ≡ out.old.items ++ reply_text r.now }
{
    match r {
        Reply::Lines(lines) => {
            let lines = lines.as_slice();
            put(out, b"ok ")
                && put_number(out, lines.len() as u64)
                && put(out, b"\n")
                && put_lines(out, lines)
        }
        Reply::Refused(refusal) => put_refusal(out, refusal),
    }
}

/// The lines of a reply, with their newlines.
pub fn print_reply(alloc: Global, r: &Reply) -> Result<Text, NoMemory>
    ensures { IfOk result (λ text. text ≡ reply_text r.now) }
{
    let mut out = Vec::new(alloc);
    if put_reply(&mut out, r) {
        return Ok(Text::from_vec(out));
    }
    drop(out);
    Err(NoMemory)
}
