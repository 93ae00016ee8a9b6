// What the last line of a command's output says, in words.
use crate::input::{KeptInput, input_path};
use crate::script_place::fault_in_script;
use crate::shown::tell_excerpt;
use crate::words::{access_fault, descriptor_fault, order_fault, rule_fault};
use std::io::Read;
use ug_files::{Priority, Teller};
use ug_rule::{RuleFault, parse_rule};

/// What a command tells of a failure.
pub const ERROR: Teller = Teller {
    priority: Priority::Error,
    waits: true,
};

/// What is wrong with a line of the input, behind how many of its bytes.
#[derive(Clone, Copy)]
pub struct LineFault {
    pub place: u64,
    pub words: &'static str,
}

// The number behind a word of the line.
fn number_behind(line: &str, word: &str) -> Option<u64> {
    let mut is_next = false;
    for found in line.split(' ') {
        if is_next {
            return found.parse::<u64>().ok();
        }
        is_next = found == word;
    }
    None
}

/// How many blanks begin a line, which the places of faults in settings and access files don't
/// count.
pub fn blanks_before(line: &[u8]) -> u64 {
    line.len().saturating_sub(line.trim_ascii_start().len()) as u64
}

// What a line that isn't taken says of one of the input's lines, which is empty where it wasn't
// kept.
fn fault_in_line(rt: &HostRuntime, told: &str, line: &[u8]) -> Option<LineFault> {
    if told.starts_with("bad script line ") {
        return fault_in_script(rt.alloc(), number_behind(told, "line")? == 1, line);
    }
    let kind = number_behind(told, "kind")?;
    let place = number_behind(told, "place")?;
    if told.starts_with("bad access line ") {
        return Some(LineFault {
            place: place.saturating_add(blanks_before(line)),
            words: access_fault(kind, line),
        });
    }
    Some(LineFault {
        place,
        words: rule_fault(kind, line, place, false),
    })
}

// A sentence on a line of the input, with its file where it has a name.
fn tell_place(rt: &HostRuntime, number: u64, fault: LineFault) {
    let (column, words) = (fault.place.saturating_add(1), fault.words);
    match input_path(rt) {
        Some(path) => {
            eprintln!(ERROR; "usbguard: {path}, line {number}, column {column}: {words}.");
            drop(path);
        }
        None => eprintln!(ERROR; "usbguard: line {number}, column {column}: {words}."),
    }
}

// A bad line of the input.
fn tell_input<R: Read>(rt: &HostRuntime, told: &str, input: &KeptInput<R>) {
    let Some(number) = number_behind(told, "line") else {
        return;
    };
    let line = input.line(number).unwrap_or(b"");
    match fault_in_line(rt, told, line) {
        Some(fault) => {
            tell_place(rt, number, fault);
            tell_excerpt(rt.alloc(), ERROR, line, fault.place);
        }
        None => eprintln!(ERROR; "usbguard: line {number} isn't taken."),
    }
}

// Whether a word is a rule that is refused just so.
fn is_refused_so(rt: &HostRuntime, word: &str, kind: u64, place: u64) -> bool {
    match parse_rule(rt.alloc(), word.as_bytes()) {
        Ok(rule) => {
            rule.discard();
            false
        }
        Err(RuleFault::Bad { kind: k, place: p }) => u64::from(k) == kind && p == place,
        Err(RuleFault::Memory) => false,
    }
}

// The one of an order's words that is the refused rule.
fn refused_rule<'a>(rt: &HostRuntime, words: &[&'a str], kind: u64, place: u64) -> &'a str {
    for word in words {
        if is_refused_so(rt, word, kind, place) {
            return word;
        }
    }
    ""
}

// A rule that the daemon refused.
fn tell_rule(rt: &HostRuntime, words: &[&str], told: &str) {
    let (Some(kind), Some(place)) = (bad_rule_kind(told), bad_rule_place(told)) else {
        return;
    };
    let rule = refused_rule(rt, words, kind, place).as_bytes();
    let (column, fault) = (
        place.saturating_add(1),
        rule_fault(kind, rule, place, false),
    );
    eprintln!(ERROR; "usbguard: the rule, column {column}: {fault}.");
    tell_excerpt(rt.alloc(), ERROR, rule, place);
}

// The kind and the place of `refused 3 bad-rule KIND PLACE`.
fn bad_rule_kind(told: &str) -> Option<u64> {
    told.split(' ').nth(3)?.parse::<u64>().ok()
}

fn bad_rule_place(told: &str) -> Option<u64> {
    told.split(' ').nth(4)?.parse::<u64>().ok()
}

// An order that the daemon refused.
fn tell_order(rt: &HostRuntime, words: &[&str], told: &str) {
    let Some(reason) = number_behind(told, "refused") else {
        return;
    };
    if reason == 3 {
        return tell_rule(rt, words, told);
    }
    let fault = order_fault(reason);
    eprintln!(ERROR; "usbguard: {fault}.");
}

// Descriptors that aren't well formed.
fn tell_descriptors(told: &str) {
    if let (Some(kind), Some(place)) = (number_behind(told, "kind"), number_behind(told, "place")) {
        let fault = descriptor_fault(kind);
        eprintln!(ERROR; "usbguard: the descriptors, behind {place} bytes: {fault}.");
    }
}

// A limit that the input is above.
fn tell_limit(words: &[&str]) {
    let limit = match words {
        ["replay" | "generate-policy", ..] => {
            "a script has at most 1,048,576 lines of at most 1,048,576 bytes"
        }
        _ => "it takes at most 67,108,864 bytes",
    };
    eprintln!(ERROR; "usbguard: the input is too long: {limit}.");
}

/// Tells a person in words what the last line of a command's output says, and shows the line of the
/// input, or the rule among the words.
pub fn tell_last_line<R: Read>(rt: &HostRuntime, words: &[&str], told: &str, input: &KeptInput<R>) {
    if told.starts_with("bad descriptors ") {
        tell_descriptors(told);
    } else if told.starts_with("bad ") {
        tell_input(rt, told, input);
    } else if told.starts_with("refused ") {
        tell_order(rt, words, told);
    } else if told == "input too long" {
        tell_limit(words);
    } else if told == "too many rules" {
        eprintln!(ERROR; "usbguard: lint-rules takes at most 4,096 rules.");
    }
}
