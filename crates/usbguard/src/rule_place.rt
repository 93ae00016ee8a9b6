// What could stand at a place of a rule.
use ug_words::{Attr, CondName, attribute, condition, is_if, operator};

const AN_OPERATOR: &str = "one of all-of, one-of, none-of, equals, equals-ordered was expected";

/// What is read next in a rule.
#[derive(Clone, Copy)]
enum Awaited {
    Target,
    /// An attribute, or `if`.
    Part,
    /// An attribute's value, an operator or `{`.
    Value(Attr),
    /// The `{` behind an operator.
    Values(Attr),
    /// A value within `{` and `}`.
    Member(Attr),
    /// A condition, an operator or `{`.
    Condition,
    Conditions,
    /// A condition within `{` and `}`.
    MemberCondition,
    /// What may stand behind a condition's name.
    Opening(CondName),
    Argument(CondName),
    /// The `)` behind an argument.
    Closing,
}

/// How far a rule was read: what is awaited, whether conditions stand within `{` and `}`, and
/// whether this is the query of one.
#[derive(Clone, Copy)]
struct Reading {
    awaited: Awaited,
    in_set: bool,
    in_query: bool,
}

/// A token of a line, without what it spells.
#[derive(Clone, Copy)]
struct Piece<'a> {
    bytes: &'a [u8],
    start: usize,
}

fn is_word_byte(byte: u8) -> bool {
    byte.is_ascii_alphanumeric() || matches!(byte, b'-' | b'_' | b':' | b'*' | b'.')
}

fn is_blank(byte: u8) -> bool {
    matches!(byte, b' ' | b'\t' | b'\r')
}

// How many bytes a word takes.
fn word_length(text: &[u8]) -> usize {
    for at in 0..text.len() {
        if !is_word_byte(text[at]) {
            return at;
        }
    }
    text.len()
}

/// How many bytes a string takes, with its quotes.
pub fn string_length(text: &[u8]) -> usize {
    let mut is_escaped = true;
    for at in 0..text.len() {
        if text[at] == b'"' && !is_escaped {
            return at + 1;
        }
        is_escaped = !is_escaped && text[at] == b'\\';
    }
    text.len()
}

// How many bytes stand before the next token.
fn blank_length(text: &[u8]) -> usize {
    for at in 0..text.len() {
        if !is_blank(text[at]) {
            return at;
        }
    }
    text.len()
}

/// The token that begins at that place of a line, or behind blanks there. The line has no lexical
/// fault.
fn piece_from(line: &[u8], from: usize) -> Option<Piece<'_>> {
    let behind = line.get(from..)?;
    let start = from.saturating_add(blank_length(behind));
    let rest = line.get(start..)?;
    let first = *rest.first()?;
    let length = match first {
        b'#' => return None,
        b'"' => string_length(rest),
        _ => word_length(rest).max(1),
    };
    Some(Piece {
        bytes: rest.get(..length)?,
        start,
    })
}

impl Reading {
    fn to(self, awaited: Awaited) -> Reading {
        Reading { awaited, ..self }
    }

    // Behind a condition.
    fn behind_condition(self) -> Reading {
        if self.in_set {
            self.to(Awaited::MemberCondition)
        } else {
            self.to(Awaited::Part)
        }
    }

    fn part(self, token: &[u8]) -> Reading {
        if let Some(found) = attribute(token) {
            return self.to(Awaited::Value(found));
        }
        if is_if(token) {
            return self.to(Awaited::Condition);
        }
        if self.in_query && token == b")".as_slice() {
            let outer = Reading {
                in_query: false,
                ..self
            };
            return outer.behind_condition();
        }
        self
    }

    fn value(self, name: Attr, token: &[u8]) -> Reading {
        if token == b"{".as_slice() {
            self.to(Awaited::Member(name))
        } else if operator(token).is_some() {
            self.to(Awaited::Values(name))
        } else {
            self.to(Awaited::Part)
        }
    }

    fn member(self, token: &[u8]) -> Reading {
        if token == b"}".as_slice() {
            self.to(Awaited::Part)
        } else {
            self
        }
    }

    fn condition(self, token: &[u8]) -> Reading {
        if token == b"{".as_slice() {
            let inner = Reading {
                in_set: true,
                ..self
            };
            return inner.to(Awaited::MemberCondition);
        }
        if operator(token).is_some() {
            return self.to(Awaited::Conditions);
        }
        self.named(token)
    }

    // A condition's name, or the `!` before it.
    fn named(self, token: &[u8]) -> Reading {
        match condition(token) {
            Some(name) => self.to(Awaited::Opening(name)),
            None => self,
        }
    }

    fn member_condition(self, token: &[u8]) -> Reading {
        if token == b"}".as_slice() {
            let outer = Reading {
                in_set: false,
                ..self
            };
            return outer.to(Awaited::Part);
        }
        self.named(token)
    }

    fn opening(self, name: CondName, token: &[u8]) -> Reading {
        if token != b"(".as_slice() {
            return self.behind_condition().step(token);
        }
        if matches!(name, CondName::AllowedMatches) {
            let query = Reading {
                in_query: true,
                ..self
            };
            return query.to(Awaited::Part);
        }
        self.to(Awaited::Argument(name))
    }

    // The same behind a condition that has no argument.
    fn step(self, token: &[u8]) -> Reading {
        match self.awaited {
            Awaited::MemberCondition => self.member_condition(token),
            _ => self.part(token),
        }
    }

    /// Behind a token more.
    fn behind(self, token: &[u8]) -> Reading {
        match self.awaited {
            Awaited::Target => self.to(Awaited::Part),
            Awaited::Part => self.part(token),
            Awaited::Value(name) => self.value(name, token),
            Awaited::Values(name) => self.to(Awaited::Member(name)),
            Awaited::Member(_) => self.member(token),
            Awaited::Condition => self.condition(token),
            Awaited::Conditions => self.condition(token),
            Awaited::MemberCondition => self.member_condition(token),
            Awaited::Opening(name) => self.opening(name, token),
            Awaited::Argument(_) => self.to(Awaited::Closing),
            Awaited::Closing => self.behind_condition(),
        }
    }
}

// How far the line was read before that place.
fn reading_at(line: &[u8], place: usize, first: Awaited) -> Reading {
    let mut reading = Reading {
        awaited: first,
        in_set: false,
        in_query: false,
    };
    let mut from = 0;
    for _ in 0..line.len() {
        match piece_from(line, from) {
            Some(piece) if piece.start < place => {
                reading = reading.behind(piece.bytes);
                from = piece.start.saturating_add(piece.bytes.len());
            }
            _ => break,
        }
    }
    reading
}

// Whether a word stands at that place, and a `{` behind it.
fn is_before_set(line: &[u8], place: usize) -> bool {
    let Some(word) = piece_from(line, place) else {
        return false;
    };
    match piece_from(line, word.start.saturating_add(word.bytes.len())) {
        Some(next) => next.bytes == b"{".as_slice() && word.bytes != b"{".as_slice(),
        None => false,
    }
}

fn value_of(name: Attr) -> &'static str {
    match name {
        Attr::Id => {
            "an id was expected, as 1050:0011, 1050:* or *:*: four hexadecimal digits or *"
        }
        Attr::Interface => {
            "an interface was expected, as 03:01:02, 03:01:* or 03:*:*: two hexadecimal digits or *"
        }
        Attr::Serial
        | Attr::Name
        | Attr::Hash
        | Attr::ParentHash
        | Attr::ViaPort
        | Attr::Connect
        | Attr::Label => "a string in quotes was expected",
    }
}

fn argument_of(name: CondName) -> &'static str {
    match name {
        CondName::LocalTime => "a time was expected, as 08:00, or two, as 08:00-17:30",
        CondName::RuleApplied | CondName::RuleEvaluated => {
            "a number of seconds was expected, or a time, as 00:10 or 00:10:30"
        }
        CondName::Random => "a number from 0 to 1 was expected, as 0.25",
        CondName::AllowedMatches | CondName::True | CondName::False => {
            "attributes of a device were expected"
        }
    }
}

// What has to stand behind the name of a condition.
fn opening_of(name: CondName) -> &'static str {
    match name {
        CondName::LocalTime => "a time in parentheses was expected, as localtime(08:00-17:30)",
        CondName::AllowedMatches => {
            "attributes in parentheses were expected, as allowed-matches(1050:0011)"
        }
        CondName::RuleApplied
        | CondName::RuleEvaluated
        | CondName::Random
        | CondName::True
        | CondName::False => "the next condition, or } was expected",
    }
}

fn expected(awaited: Awaited) -> &'static str {
    match awaited {
        Awaited::Target => "a target was expected: allow, block or reject",
        Awaited::Part => "attributes of a device were expected",
        Awaited::Value(name) | Awaited::Member(name) => value_of(name),
        Awaited::Values(_) => "{ was expected, and values behind it",
        Awaited::Condition => {
            "a condition was expected: localtime, allowed-matches, rule-applied, rule-evaluated, random, true, false"
        }
        Awaited::Conditions => "{ was expected, and conditions behind it",
        Awaited::MemberCondition => {
            "a condition or } was expected: localtime, allowed-matches, rule-applied, rule-evaluated, random, true, false"
        }
        Awaited::Opening(name) => opening_of(name),
        Awaited::Argument(name) => argument_of(name),
        Awaited::Closing => ") was expected",
    }
}

// Whether that word is taken for an id, since it stands behind the target and has a colon.
fn is_bare_id(line: &[u8], place: usize) -> bool {
    match piece_from(line, place) {
        Some(piece) => piece.bytes.contains(&b':'),
        None => false,
    }
}

/// What could stand at that place of a rule, or of a rule's attributes alone, in place of what
/// does.
pub fn expected_at(line: &[u8], place: usize, is_query: bool) -> &'static str {
    let first = if is_query {
        Awaited::Part
    } else {
        Awaited::Target
    };
    let reading = reading_at(line, place, first);
    match reading.awaited {
        Awaited::Value(_) | Awaited::Condition if is_before_set(line, place) => AN_OPERATOR,
        Awaited::Part if is_bare_id(line, place) => value_of(Attr::Id),
        awaited => expected(awaited),
    }
}
