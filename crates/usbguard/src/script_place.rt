// Where a line of a script is wrong.
use crate::refusals::{LineFault, blanks_before};
use crate::rule_place::string_length;
use crate::words::{access_fault, rule_fault, settings_fault};
use std::alloc::Global;
use std::str;
use ug_acl::parse_access;
use ug_conf::parse_conf;
use ug_rule::{RuleFault, parse_query, parse_rule};
use ug_steps::parse_line;
use ug_types::{FileFault, Principal};

/// A part of a line.
#[derive(Clone, Copy)]
enum Field {
    Name,
    Start,
    Descriptors,
    File,
    Interface,
    Class,
    IfaceClass,
    Call,
    Effect,
    Moment,
    Principal,
    Request,
    Move,
    Seed,
    Zone,
    RuleFile,
    Rule,
    Setting,
    Grant,
    Off,
    Query,
    Old,
    Fail,
}

impl Field {
    /// What was expected in its place.
    fn expected(self) -> &'static str {
        match self {
            Field::Name => "a device's name was expected, as usb1, 1-1 or 1-1.2",
            Field::Start => "0 or 1 was expected",
            Field::Descriptors => "an even number of hexadecimal digits was expected, at least two",
            Field::File => "- or a string in quotes was expected",
            Field::Interface =>
                "a configuration, a dot and an interface's number were expected, as 1.0",
            Field::Class => "a class, subclass and protocol were expected, as 03:01:01",
            Field::IfaceClass =>
                "a class, subclass and protocol were expected, as 03:01:01, 03:01:* or 03:*:*",
            Field::Call => "a call's number was expected, from 1 to 1048576",
            Field::Effect => "effect was expected, or nothing",
            Field::Moment => "seconds since 1970 were expected, at most 250000000000",
            Field::Principal => "a user's name was expected, or a group's behind a colon",
            Field::Request => "a request was expected, as list-devices",
            Field::Move => "plug, unplug, iface or uniface was expected",
            Field::Seed => "64 hexadecimal digits were expected",
            Field::Zone => "an offset was expected, as +01:00",
            Field::RuleFile =>
                "a file's name was expected, of letters, digits, _, - and ., with .conf at its end",
            Field::Rule => "a rule was expected",
            Field::Setting => "Key=Value was expected",
            Field::Grant =>
                "a user's name, or a group's behind a colon, and a section with privileges were expected",
            Field::Off => "off was expected",
            Field::Query => "attributes of a device were expected",
            Field::Old => "old or new was expected",
            Field::Fail => "fail was expected",
        }
    }

    /// One that can stand there.
    fn sample(self) -> &'static str {
        match self {
            Field::Name => "1-1",
            Field::Start => "0",
            Field::Descriptors => "12",
            Field::File => "-",
            Field::Interface => "1.0",
            Field::Class => "03:01:01",
            Field::IfaceClass => "03:01:01",
            Field::Call => "1",
            Field::Effect => "effect",
            Field::Moment => "1",
            Field::Principal => "root",
            Field::Request => "list-devices",
            Field::Move => "unplug 1-1",
            Field::Seed => "0000000000000000000000000000000000000000000000000000000000000000",
            Field::Zone => "+00:00",
            Field::RuleFile => "a.conf",
            Field::Rule => "allow",
            Field::Setting => "RuleFile=/a",
            Field::Grant => "root Devices=list",
            Field::Off => "off",
            Field::Query => "1050:0011",
            Field::Old => "old",
            Field::Fail => "fail",
        }
    }

    /// Whether it is all that is left of the line.
    fn is_rest(self) -> bool {
        matches!(
            self,
            Field::Request
                | Field::Move
                | Field::Rule
                | Field::Setting
                | Field::Grant
                | Field::Query
        )
    }
}

/// A line's first word, what stands behind it, and why it isn't taken where it is in the grammar.
struct LineKind {
    word: &'static str,
    fields: &'static [Field],
    misplaced: &'static str,
}

const RULES_FIRST: &str =
    "such a line stands before devices and events, and there are at most 65,536 rules";

const KEYS_ONCE: &str = "such a line stands before devices and events, and each key but once";

const ONCE: &str = "such a line stands before devices and events, and but once";

const FIRST: &str = "such a line stands before devices and events";

const NOT_HERE: &str = "the line can't stand here";

const LINE_KINDS: [LineKind; 20] = [
    LineKind {
        word: "plug",
        fields: &[
            Field::Name,
            Field::Start,
            Field::Descriptors,
            Field::File,
            Field::File,
            Field::File,
        ],
        misplaced: NOT_HERE,
    },
    LineKind {
        word: "unplug",
        fields: &[Field::Name],
        misplaced: NOT_HERE,
    },
    LineKind {
        word: "iface",
        fields: &[Field::Name, Field::Interface, Field::Class, Field::Start],
        misplaced: NOT_HERE,
    },
    LineKind {
        word: "uniface",
        fields: &[Field::Name, Field::Interface],
        misplaced: NOT_HERE,
    },
    LineKind {
        word: "before",
        fields: &[Field::Call, Field::Move],
        misplaced: NOT_HERE,
    },
    LineKind {
        word: "after",
        fields: &[Field::Call, Field::Move],
        misplaced: NOT_HERE,
    },
    LineKind {
        word: "fail",
        fields: &[Field::Call, Field::Effect],
        misplaced: NOT_HERE,
    },
    LineKind {
        word: "disk",
        fields: &[Field::Fail, Field::Call, Field::Effect],
        misplaced: NOT_HERE,
    },
    LineKind {
        word: "stop",
        fields: &[Field::Call, Field::Old],
        misplaced: NOT_HERE,
    },
    LineKind {
        word: "sweep",
        fields: &[Field::Moment],
        misplaced: NOT_HERE,
    },
    LineKind {
        word: "order",
        fields: &[Field::Moment, Field::Principal, Field::Request],
        misplaced: NOT_HERE,
    },
    LineKind {
        word: "hint",
        fields: &[Field::Moment, Field::Descriptors],
        misplaced: NOT_HERE,
    },
    LineKind {
        word: "rule",
        fields: &[Field::Rule],
        misplaced: RULES_FIRST,
    },
    LineKind {
        word: "folder",
        fields: &[Field::RuleFile, Field::Rule],
        misplaced: RULES_FIRST,
    },
    LineKind {
        word: "conf",
        fields: &[Field::Setting],
        misplaced: KEYS_ONCE,
    },
    LineKind {
        word: "access",
        fields: &[Field::Grant],
        misplaced: FIRST,
    },
    LineKind {
        word: "seed",
        fields: &[Field::Seed],
        misplaced: ONCE,
    },
    LineKind {
        word: "zone",
        fields: &[Field::Zone],
        misplaced: ONCE,
    },
    LineKind {
        word: "iface-rule",
        fields: &[Field::Off, Field::IfaceClass, Field::Query],
        misplaced: FIRST,
    },
    LineKind {
        word: "restart",
        fields: &[],
        misplaced: NOT_HERE,
    },
];

fn line_kinds() -> &'static [LineKind] {
    &LINE_KINDS
}

// The kind of the lines that begin with that word.
fn kind_of(word: &str) -> Option<&'static LineKind> {
    for kind in line_kinds() {
        if kind.word == word {
            return Some(kind);
        }
    }
    None
}

/// The words that a line may begin with.
const FIRST_WORDS: &str =
    "plug, unplug, iface, uniface, before, after, fail, disk fail, stop, sweep, order, hint, restart, rule, folder, conf, access, seed, zone or iface-rule was expected";

fn fault_at(place: usize, words: &'static str) -> LineFault {
    let place = place as u64;
    LineFault { place, words }
}

// Where a field ends that begins there.
fn end_of(line: &str, start: usize, is_rest: bool) -> usize {
    let Some(text) = line.get(start..) else {
        return line.len();
    };
    if is_rest {
        return line.len();
    }
    let length = if text.starts_with('"') {
        string_length(text.as_bytes())
    } else {
        text.find(' ').unwrap_or(text.len())
    };
    start.saturating_add(length)
}

// A front of a line, with samples of what is to come behind it.
fn completed(alloc: Global, front: &str, fields: &[Field]) -> Option<String> {
    let mut line = String::from_str(alloc, front).ok()?;
    for field in fields {
        if line.push(' ').is_err() || line.push_str(field.sample()).is_err() {
            drop(line);
            return None;
        }
    }
    Some(line)
}

fn is_line(alloc: Global, line: &str) -> bool {
    match parse_line(alloc, line.as_bytes()) {
        Ok(step) => {
            step.discard();
            true
        }
        Err(_) => false,
    }
}

// Whether a line can begin so, where these fields are to come.
fn can_begin(alloc: Global, front: &str, fields: &[Field]) -> bool {
    match completed(alloc, front, fields) {
        Some(line) => {
            let is_one = is_line(alloc, line.as_str());
            drop(line);
            is_one
        }
        None => true,
    }
}

// The first field of a line that can't stand there, and whether it is all that is left.
fn first_fault(alloc: Global, line: &str, kind: &LineKind) -> Option<(LineFault, bool)> {
    let mut end = kind.word.len();
    let fields = kind.fields;
    for at in 0..fields.len() {
        let field = fields[at];
        let start = end.saturating_add(1);
        end = end_of(line, start, field.is_rest());
        if !can_begin(alloc, line.get(..end)?, &fields[at + 1..]) {
            let fault = fault_at(start.min(line.len()), field.expected());
            return Some((fault, field.is_rest()));
        }
    }
    if end < line.len() {
        return Some((fault_at(end, "nothing more was expected"), false));
    }
    None
}

fn rule_at(alloc: Global, line: &str, from: usize) -> Option<LineFault> {
    let text = line.get(from..)?.as_bytes();
    match parse_rule(alloc, text) {
        Ok(rule) => {
            rule.discard();
            None
        }
        Err(RuleFault::Bad { kind, place }) => Some(LineFault {
            place: place.saturating_add(from as u64),
            words: rule_fault(u64::from(kind), text, place, false),
        }),
        Err(RuleFault::Memory) => None,
    }
}

fn query_at(alloc: Global, line: &str, from: usize) -> Option<LineFault> {
    let text = line.get(from..)?.as_bytes();
    match parse_query(alloc, text) {
        Ok(query) => {
            query.discard();
            None
        }
        Err(RuleFault::Bad { kind, place }) => Some(LineFault {
            place: place.saturating_add(from as u64),
            words: rule_fault(u64::from(kind), text, place, true),
        }),
        Err(RuleFault::Memory) => None,
    }
}

// The blanks in front of a text, which the places of its faults don't count, and those in front of
// these.
fn behind_blanks(text: &[u8], from: usize) -> u64 {
    (from as u64).saturating_add(blanks_before(text))
}

fn setting_at(alloc: Global, line: &str, from: usize) -> Option<LineFault> {
    let text = line.get(from..)?.as_bytes();
    match parse_conf(alloc, text) {
        Ok(settings) => {
            settings.discard();
            None
        }
        Err(FileFault::Bad(bad)) => Some(LineFault {
            place: bad.place.saturating_add(behind_blanks(text, from)),
            words: settings_fault(u64::from(bad.kind), text),
        }),
        Err(FileFault::Memory) => None,
    }
}

fn privileges_at(alloc: Global, line: &str, from: usize) -> Option<LineFault> {
    let name = end_of(line, from, false);
    if Principal::parse(line.get(from..name)?.as_bytes()).is_none() {
        return Some(fault_at(from, Field::Principal.expected()));
    }
    let text = line.get(name..)?.as_bytes();
    match parse_access(alloc, text) {
        Ok(_grants) => None,
        Err(FileFault::Bad(bad)) => Some(LineFault {
            place: bad.place.saturating_add(behind_blanks(text, name)),
            words: access_fault(u64::from(bad.kind), text),
        }),
        Err(FileFault::Memory) => None,
    }
}

fn is_move(word: &str) -> bool {
    matches!(word, "plug" | "unplug" | "iface" | "uniface")
}

// The move of a `before` or `after` line.
fn move_at(alloc: Global, line: &str, from: usize) -> Option<LineFault> {
    let text = line.get(from..)?;
    let word = text.split(' ').next()?;
    if !is_move(word) {
        return None;
    }
    let (fault, _is_rest) = first_fault(alloc, text, kind_of(word)?)?;
    Some(LineFault {
        place: fault.place.saturating_add(from as u64),
        words: fault.words,
    })
}

// What is wrong with the text of another format that begins behind so many bytes of a line and ends
// it.
fn fault_in_text(alloc: Global, line: &str, word: &str, from: usize) -> Option<LineFault> {
    match word {
        "rule" | "folder" => rule_at(alloc, line, from),
        "access" => privileges_at(alloc, line, from),
        "iface-rule" => query_at(alloc, line, from),
        "before" | "after" => move_at(alloc, line, from),
        _ => None,
    }
}

// The same, and closer where that is the text of another format.
fn fault_in_fields(alloc: Global, line: &str, kind: &LineKind) -> Option<LineFault> {
    let (fault, is_rest) = first_fault(alloc, line, kind)?;
    if is_rest {
        let from = usize::try_from(fault.place).unwrap_or(usize::MAX);
        if let Some(closer) = fault_in_text(alloc, line, kind.word, from) {
            return Some(closer);
        }
    }
    Some(fault)
}

fn fault_in(alloc: Global, line: &str) -> Option<LineFault> {
    let word = line.split(' ').next()?;
    let Some(kind) = kind_of(word) else {
        return Some(fault_at(0, FIRST_WORDS));
    };
    if let Some(fault) = fault_in_fields(alloc, line, kind) {
        return Some(fault);
    }
    let setting = match word {
        "conf" => setting_at(alloc, line, word.len().saturating_add(1)),
        _ => None,
    };
    match setting {
        Some(fault) => Some(fault),
        None => Some(fault_at(0, kind.misplaced)),
    }
}

/// What is wrong with a line of a script, which may be its first.
pub fn fault_in_script(alloc: Global, is_first: bool, line: &[u8]) -> Option<LineFault> {
    if is_first {
        let words = "usbguard-replay 1 was expected, as the first line of a script";
        return Some(fault_at(0, words));
    }
    match str::from_utf8(line) {
        Ok(line) => fault_in(alloc, line),
        Err(error) => Some(fault_at(error.valid_up_to(), "this isn't UTF-8")),
    }
}
