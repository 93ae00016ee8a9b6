// The attributes of a rule: usbguard-rules.conf(5).
ghost use Rattle.std.specs.Prelude.{◌≡◌, ◌≤◌, ◌<◌, length, IfSome, Some, Ok};
ghost use Rattle.ug_rule.specs.Faults.{AnswersRead, on_ok};
ghost use Rattle.ug_rule.specs.Tokens.{Reads, ReadsInto};
ghost use Rattle.ug_rule.specs.Queries as queries;
ghost use Rattle.ug_rule.specs.Values as values;

use crate::fault::{Ending, FaultKind, Stop};
use crate::tokens_left::{Tokens, word};
use crate::values::{FromToken, single, text, value};
use std::alloc::Global;
use std::mem::replace;
use ug_types::{Id, Query, Text, Values};
use ug_words::{Attr, Token, TokenKind, attribute, is_if};

/// An attribute whose name was read, and where it stands.
#[derive(Clone, Copy)]
pub struct Named {
    pub attr: Attr,
    pub place: u64,
}

/// A query without attributes, which fits each device.
pub fn empty_query() -> Query
    ensures { result ≡ queries.no_query }
{
    Query {
        id: None,
        serial: None,
        name: None,
        hash: None,
        parent_hash: None,
        via_port: None,
        interface: None,
        connect: None,
        label: None,
    }
}

fn is_given(attr: Attr, query: &Query) -> bool
    ensures { result ≡ queries.is_attribute_given attr query.now }
{
    match attr {
        Attr::Id => query.id.is_some(),
        Attr::Serial => query.serial.is_some(),
        Attr::Name => query.name.is_some(),
        Attr::Hash => query.hash.is_some(),
        Attr::ParentHash => query.parent_hash.is_some(),
        Attr::ViaPort => query.via_port.is_some(),
        Attr::Interface => query.interface.is_some(),
        Attr::Connect => query.connect.is_some(),
        Attr::Label => query.label.is_some(),
    }
}

/// Whether no attribute is given.
#[tactic(auto, unfolding(crate::specs::Queries::is_empty_query))]
pub fn is_blank(query: &Query) -> bool
    ensures { result ≡ queries.is_empty_query query.now }
{
    query.id.is_none()
        && query.serial.is_none()
        && query.name.is_none()
        && query.hash.is_none()
        && query.parent_hash.is_none()
        && query.via_port.is_none()
        && query.interface.is_none()
        && query.connect.is_none()
        && query.label.is_none()
}

// Reads a value into its place.
fn put_value<T: FromToken>(
    alloc: Global,
    line: &[u8],
    tokens: &mut Tokens,
    ending: Ending,
    place: &mut Option<Values<T>>,
) -> Result<(), Stop>
    ensures is { ReadsInto result place.new tokens.new
        (on_ok (values.value_of line.now (T.in_token line.now) ending tokens.old)
        (λ p. Ok (Some p.0, p.1))) }
    ensures shorter { length tokens.new ≤ length tokens.old }
{
    drop(replace(place, Some(value(alloc, line, tokens, ending)?)));
    Ok(())
}

// Reads a string into its place.
fn put_text(
    line: &[u8],
    tokens: &mut Tokens,
    ending: Ending,
    place: &mut Option<Text>,
) -> Result<(), Stop>
    ensures is { ReadsInto result place.new tokens.new
        (on_ok (values.text_of line.now ending tokens.old) (λ p. Ok (Some p.0, p.1))) }
    ensures shorter { length tokens.new ≤ length tokens.old }
{
    drop(replace(place, Some(text(line, tokens, ending)?)));
    Ok(())
}

#[tactic(auto, unfolding(crate::specs::Queries::with_attribute))]
fn add_attribute(
    alloc: Global,
    line: &[u8],
    tokens: &mut Tokens,
    ending: Ending,
    attr: Attr,
    query: &mut Query,
) -> Result<(), Stop>
    ensures is { ReadsInto result query.new tokens.new
        (queries.with_attribute line.now ending attr query.old tokens.old) }
    ensures shorter { length tokens.new ≤ length tokens.old }
{
    match attr {
        Attr::Id => put_value(alloc, line, tokens, ending, &mut query.id),
        Attr::Serial => put_value(alloc, line, tokens, ending, &mut query.serial),
        Attr::Name => put_value(alloc, line, tokens, ending, &mut query.name),
        Attr::Hash => put_value(alloc, line, tokens, ending, &mut query.hash),
        Attr::ParentHash => put_value(alloc, line, tokens, ending, &mut query.parent_hash),
        Attr::ViaPort => put_value(alloc, line, tokens, ending, &mut query.via_port),
        Attr::Interface => put_value(alloc, line, tokens, ending, &mut query.interface),
        Attr::Connect => put_value(alloc, line, tokens, ending, &mut query.connect),
        Attr::Label => put_text(line, tokens, ending, &mut query.label),
    }
}

// An attribute whose name was read stands for the first time.
fn add_once(
    alloc: Global,
    line: &[u8],
    tokens: &mut Tokens,
    ending: Ending,
    named: Named,
    query: &mut Query,
) -> Result<(), Stop>
    ensures is { ReadsInto result query.new tokens.new
        (queries.attribute_once line.now ending named query.old tokens.old) }
    ensures shorter { length tokens.new ≤ length tokens.old }
{
    if is_given(named.attr, query) {
        return Err(Stop::at(FaultKind::Repeated, named.place));
    }
    add_attribute(alloc, line, tokens, ending, named.attr, query)
}

// The name of an attribute at the front.
fn next_name(line: &[u8], tokens: &mut Tokens) -> Option<Named>
    ensures is { queries.attribute_name_of line.now tokens.old ≡ (result, tokens.new) }
    ensures shorter { IfSome result (λ _. length tokens.new < length tokens.old) }
    ensures bound { length tokens.new ≤ length tokens.old }
{
    match attribute(tokens.first_word(line)) {
        Some(attr) => match tokens.next() {
            Some(token) => Some(Named {
                attr,
                place: token.start as u64,
            }),
            None => None,
        },
        None => None,
    }
}

/// Adds the attributes that come next.
pub fn add_attributes(
    alloc: Global,
    line: &[u8],
    tokens: &mut Tokens,
    ending: Ending,
    query: &mut Query,
) -> Result<(), Stop>
    ensures is { ReadsInto result query.new tokens.new
        (queries.attributes_of line.now ending query.old tokens.old) }
    ensures shorter { length tokens.new ≤ length tokens.old }
{
    while let Some(named) = next_name(line, tokens) {
        match add_once(alloc, line, tokens, ending, named, query) {
            Ok(()) => {}
            Err(stop) => return Err(stop),
        }
    }
    Ok(())
}

fn has_colon(word: &[u8]) -> bool
    ensures { result ≡ queries.has_colon word.now }
{
    word.contains(&b':')
}

fn id_query(id: Values<Id>) -> Query
    ensures { result ≡ queries.id_query id }
{
    Query {
        id: Some(id),
        serial: None,
        name: None,
        hash: None,
        parent_hash: None,
        via_port: None,
        interface: None,
        connect: None,
        label: None,
    }
}

// A first word with a colon is an id.
#[tactic(auto, unfolding(crate::specs::Queries::bare_of))]
fn bare_id(alloc: Global, line: &[u8], tokens: &mut Tokens) -> Result<Query, Stop>
    ensures is { Reads result tokens.new (queries.bare_of line.now tokens.old) }
    ensures shorter { length tokens.new ≤ length tokens.old }
{
    if !has_colon(tokens.first_word(line)) {
        return Ok(empty_query());
    }
    match tokens.next() {
        Some(token) => Ok(id_query(single(alloc, line, token)?)),
        None => Ok(empty_query()),
    }
}

// What was read behind a reference, where nothing speaks against it.
fn read_into<T: Drop>(value: T, read: Result<(), Stop>) -> Result<T, Stop>
    ensures { (rest : _) → (asked : _) → ReadsInto read value rest asked → Reads result rest asked }
{
    match read {
        Ok(()) => Ok(value),
        Err(Stop::Bad(fault)) => Err(Stop::Bad(fault)),
        Err(Stop::Memory) => Err(Stop::Memory),
    }
}

/// A bare id or none, and attributes.
#[tactic(auto, unfolding(crate::specs::Queries::query_of))]
pub fn query(alloc: Global, line: &[u8], tokens: &mut Tokens, ending: Ending) -> Result<Query, Stop>
    ensures is { Reads result tokens.new (queries.query_of line.now ending tokens.old) }
    ensures shorter { length tokens.new ≤ length tokens.old }
{
    let mut query = bare_id(alloc, line, tokens)?;
    let added = add_attributes(alloc, line, tokens, ending, &mut query);
    read_into(query, added)
}

/// What is wrong with a token that begins no attribute.
#[tactic(auto, unfolding(crate::specs::Queries::stray))]
pub fn stray(of_if: FaultKind, line: &[u8], token: &Token) -> Stop
    ensures { result ≡ Stop.Bad (queries.stray of_if line.now token.now) }
{
    let place = token.start as u64;
    if is_if(word(line, token)) {
        return Stop::at(of_if, place);
    }
    match token.kind {
        TokenKind::Word => Stop::at(FaultKind::UnknownWord, place),
        _ => Stop::at(FaultKind::TrailingToken, place),
    }
}

/// The line of a query ends behind its attributes.
pub fn query_ends(
    line: &[u8],
    tokens: &mut Tokens,
    ending: Ending,
    query: &Query,
) -> Result<(), Stop>
    ensures { AnswersRead (on_ok result (λ _. Ok query.now))
        (queries.query_ends line.now ending query.now tokens.old) }
{
    match tokens.next() {
        Some(token) => Err(stray(FaultKind::ConditionInQuery, line, &token)),
        None => {
            if is_blank(query) {
                return Err(ending.missing(FaultKind::BadValue));
            }
            Ok(())
        }
    }
}
