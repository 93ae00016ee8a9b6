// Lines of the journal that are sent as notices.
ghost use Rattle.std.specs.Prelude.{◌≡◌, ◌↔◌, IsTrue, IfSome, IfNone, Some, None};
ghost use Rattle.ug_client.specs.Answers.{IsNotice};
ghost use Rattle.ug_client.specs.NoticeLines as lines;

use ug_lines::parse_decimal;
use ug_types::{NodeName, ParameterName, Principal, Target, is_word};

/// The first word, where a space stands behind it, and what stands behind that.
fn cut_word(text: &[u8]) -> Option<(&[u8], &[u8])>
    ensures some { IfSome result (λ p. lines.cut_word text.now ≡ Some (p.0.now, p.1.now)) }
    ensures none { IfNone result (lines.cut_word text.now ≡ None) }
{
    for (i, byte) in text.iter().enumerate() {
        if *byte == b' ' {
            return Some((&text[..i], &text[i + 1..]));
        }
    }
    None
}

fn is_number(word: &[u8]) -> bool
    ensures { result ≡ lines.is_decimal word.now }
{
    parse_decimal(word).is_some()
}

fn is_byte(word: &[u8]) -> bool
    ensures { result ≡ lines.is_byte word.now }
{
    match parse_decimal(word) {
        Some(number) => number < 256,
        None => false,
    }
}

fn is_name(word: &[u8]) -> bool
    ensures { result ≡ lines.is_name_word word.now }
{
    NodeName::parse(word).is_ok()
}

fn is_write(word: &[u8]) -> bool
    ensures { result ≡ lines.is_write word.now }
{
    is_word(word, b"on")
        || is_word(word, b"off")
        || is_word(word, b"remove")
        || is_word(word, b"default-off")
        || is_word(word, b"default-on")
}

fn is_outcome(word: &[u8]) -> bool
    ensures { result ≡ lines.is_outcome word.now }
{
    is_word(word, b"done") || is_word(word, b"gone") || is_word(word, b"failed")
}

// A kind and a place.
fn is_malformed(text: &[u8]) -> bool
    ensures { result ≡ lines.is_malformed text.now }
{
    match cut_word(text) {
        Some((kind, place)) => is_byte(kind) && is_number(place),
        None => false,
    }
}

fn is_cause(text: &[u8]) -> bool
    ensures { result ≡ lines.is_cause text.now }
{
    match cut_word(text) {
        Some((word, rest)) => {
            if is_word(word, b"rule") {
                return is_number(rest);
            }
            if is_word(word, b"order") {
                return Principal::parse(rest).is_some();
            }
            if is_word(word, b"malformed") {
                return is_malformed(rest);
            }
            false
        }
        None => {
            is_word(text, b"implicit")
                || is_word(text, b"present")
                || is_word(text, b"keep")
                || is_word(text, b"inserted")
        }
    }
}

fn is_fault(text: &[u8]) -> bool
    ensures { result ≡ lines.is_fault text.now }
{
    match cut_word(text) {
        Some((word, rest)) => match cut_word(rest) {
            Some((call, count)) => {
                is_word(word, b"fault") && is_number(call) && is_number(count)
            }
            None => false,
        },
        None => is_word(text, b"memory"),
    }
}

// The event's number, a name, a verdict and its cause.
fn is_judged(text: &[u8]) -> bool
    ensures { result ≡ lines.is_judged text.now }
{
    let Some((number, rest)) = cut_word(text) else {
        return false;
    };
    let Some((name, rest)) = cut_word(rest) else {
        return false;
    };
    let Some((verdict, cause)) = cut_word(rest) else {
        return false;
    };
    is_number(number) && is_name(name) && Target::named(verdict).is_some() && is_cause(cause)
}

// The event's number, a name, a write and what it came to.
fn is_wrote(text: &[u8]) -> bool
    ensures { result ≡ lines.is_wrote text.now }
{
    let Some((number, rest)) = cut_word(text) else {
        return false;
    };
    let Some((name, rest)) = cut_word(rest) else {
        return false;
    };
    let Some((write, outcome)) = cut_word(rest) else {
        return false;
    };
    is_number(number) && is_name(name) && is_write(write) && is_outcome(outcome)
}

fn is_gone(text: &[u8]) -> bool
    ensures { result ≡ lines.is_gone text.now }
{
    match cut_word(text) {
        Some((number, name)) => is_number(number) && is_name(name),
        None => false,
    }
}

fn is_unsettled(text: &[u8]) -> bool
    ensures { result ≡ lines.is_unsettled text.now }
{
    match cut_word(text) {
        Some((name, fault)) => (is_word(name, b"*") || is_name(name)) && is_fault(fault),
        None => false,
    }
}

fn is_parameter(text: &[u8]) -> bool
    ensures { result ≡ lines.is_parameter text.now }
{
    match cut_word(text) {
        Some((name, value)) => match ParameterName::named(name) {
            Some(name) => name.with_value(value).is_some(),
            None => false,
        },
        None => false,
    }
}

// What stands behind the first word, by that word.
fn is_behind(word: &[u8], rest: &[u8]) -> bool
    ensures { result ≡ lines.is_behind word.now rest.now }
{
    if is_word(word, b"judged") {
        return is_judged(rest);
    }
    if is_word(word, b"wrote") {
        return is_wrote(rest);
    }
    if is_word(word, b"gone") {
        return is_gone(rest);
    }
    if is_word(word, b"unsettled") {
        return is_unsettled(rest);
    }
    if is_word(word, b"parameter") {
        return is_parameter(rest);
    }
    false
}

/// Whether the text is the line of an entry that clients are told.
#[tactic(auto, unfolding(crate::specs::NoticeLines::is_entry_text))]
fn is_entry(text: &[u8]) -> bool
    ensures { result ≡ lines.is_entry_text text.now }
{
    match cut_word(text) {
        Some((word, rest)) => is_behind(word, rest),
        None => false,
    }
}

/// Whether the line is a notice: `! ` and the line of an entry that clients are told.
pub fn is_notice(line: &[u8]) -> bool
    ensures { IsTrue result ↔ IsNotice line.now }
{
    if line.starts_with(b"! ") {
        return is_entry(&line[2..]);
    }
    false
}
