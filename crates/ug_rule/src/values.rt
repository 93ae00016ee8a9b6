// The value of an attribute: usbguard-rules.conf(5).
ghost use Rattle.std.specs.Prelude.{◌≡◌, ◌≤◌, [], ◌∷◌, length, IfOk};
ghost use Rattle.ug_rule.specs.Faults.{AnswersRead};
ghost use Rattle.ug_rule.specs.Tokens.{Reads};
ghost use Rattle.ug_rule.specs.Values as values;

use crate::fault::{Ending, FaultKind, Stop, required};
use crate::tokens_left::{Tokens, closes, opens, word};
use std::alloc::Global;
use ug_types::{Id, Iface, List, NoMemory, Op, Text, Values};
use ug_words::{Token, TokenKind, id, interface, operator};

/// What one token says.
pub trait FromToken: Sized + Drop {
    ghost use Rattle.std.specs.Prelude.{ℕ, List, Option};
    ghost use Rattle.ug_words.specs.declared.token.Token.{Token};

    ghost in_token: { List ℕ → Token → Option Self };

    fn from_token(line: &[u8], token: Token) -> Option<Self>
        ensures { result ≡ in_token line.now token };
}

impl FromToken for Id {
    ghost use Rattle.ug_rule.specs.Values.{id_in};

    ghost in_token = { id_in };

    fn from_token(line: &[u8], token: Token) -> Option<Id> {
        id(word(line, &token))
    }
}

impl FromToken for Iface {
    ghost use Rattle.ug_rule.specs.Values.{interface_in};

    ghost in_token = { interface_in };

    fn from_token(line: &[u8], token: Token) -> Option<Iface> {
        interface(word(line, &token))
    }
}

impl FromToken for Text {
    ghost use Rattle.ug_rule.specs.Values.{string_in};

    ghost in_token = { string_in };

    fn from_token(_line: &[u8], token: Token) -> Option<Text> {
        match token.kind {
            TokenKind::Str(text) => Some(text),
            _ => None,
        }
    }
}

fn item<T: FromToken>(line: &[u8], token: Token) -> Result<T, Stop>
    ensures { AnswersRead result (values.item_of (T.in_token line.now) token) }
{
    let place = token.start as u64;
    required(T::from_token(line, token), FaultKind::BadValue, place)
}

/// A list of that item, with room for it alone.
pub fn list_of<T: Drop>(alloc: Global, item: T) -> Result<List<T>, NoMemory>
    ensures { IfOk result (λ list. list ≡ item ∷ []) }
{
    let mut items = Vec::with_capacity(alloc, 1)?;
    items.push(item)?;
    Ok(List::from_vec(items))
}

/// The same items, without the room behind them.
fn without_room<T: Drop>(list: List<T>) -> List<T>
    ensures { result ≡ list }
{
    let mut items = list.into_vec();
    items.shrink_to_fit();
    List::from_vec(items)
}

pub fn filled<T: Drop>(items: List<T>, place: u64) -> Result<List<T>, Stop>
    ensures { (rest : _) → Reads result rest (values.some_items items place rest) }
{
    if items.as_slice().is_empty() {
        return Err(Stop::at(FaultKind::EmptySet, place));
    }
    Ok(without_room(items))
}

// The items up to the closing brace.
#[tactic(auto, unfolding(crate::specs::Values::items_of))]
fn items<T: FromToken>(
    alloc: Global,
    line: &[u8],
    tokens: &mut Tokens,
    ending: Ending,
) -> Result<List<T>, Stop>
    ensures is { Reads result tokens.new
        (values.items_of (T.in_token line.now) ending [] tokens.old) }
    ensures shorter { length tokens.new ≤ length tokens.old }
{
    let mut items = List::new(alloc);
    while let Some(token) = tokens.next() {
        if closes(&token) {
            return filled(items, token.start as u64);
        }
        match item(line, token) {
            Ok(item) => items.push(item)?,
            Err(stop) => {
                drop(items);
                return Err(stop);
            }
        }
    }
    drop(items);
    Err(ending.missing(FaultKind::OpenSet))
}

// A set whose opening brace was read.
fn set<T: FromToken>(
    alloc: Global,
    line: &[u8],
    tokens: &mut Tokens,
    ending: Ending,
    op: Op,
) -> Result<Values<T>, Stop>
    ensures is { Reads result tokens.new
        (values.set_of (T.in_token line.now) ending op tokens.old) }
    ensures shorter { length tokens.new ≤ length tokens.old }
{
    let items = items(alloc, line, tokens, ending)?;
    Ok(Values { op, items })
}

/// The place of an opening brace, which must come next.
pub fn brace(tokens: &mut Tokens, ending: Ending, kind: FaultKind) -> Result<u64, Stop>
    ensures is { Reads result tokens.new (values.brace_of kind ending tokens.old) }
    ensures shorter { length tokens.new ≤ length tokens.old }
{
    match tokens.next() {
        Some(token) => {
            let place = token.start as u64;
            let opens = opens(&token);
            drop(token);
            if opens {
                Ok(place)
            } else {
                Err(Stop::at(kind, place))
            }
        }
        None => Err(ending.missing(kind)),
    }
}

pub fn single<T: FromToken>(alloc: Global, line: &[u8], token: Token) -> Result<Values<T>, Stop>
    ensures { (rest : _) → Reads result rest (values.single_of (T.in_token line.now) token rest) }
{
    let items = list_of(alloc, item(line, token)?)?;
    Ok(Values {
        op: Op::Equals,
        items,
    })
}

fn behind_operator<T: FromToken>(
    alloc: Global,
    line: &[u8],
    tokens: &mut Tokens,
    ending: Ending,
    op: Op,
) -> Result<Values<T>, Stop>
    ensures is { Reads result tokens.new
        (values.behind_operator (T.in_token line.now) ending op tokens.old) }
    ensures shorter { length tokens.new ≤ length tokens.old }
{
    let place = brace(tokens, ending, FaultKind::BadValue)?;
    set(alloc, line, tokens, ending.within(place), op)
}

/// One item, or a set of them.
#[tactic(auto, unfolding(crate::specs::Values::value_of))]
pub fn value<T: FromToken>(
    alloc: Global,
    line: &[u8],
    tokens: &mut Tokens,
    ending: Ending,
) -> Result<Values<T>, Stop>
    ensures is { Reads result tokens.new
        (values.value_of line.now (T.in_token line.now) ending tokens.old) }
    ensures shorter { length tokens.new ≤ length tokens.old }
{
    match tokens.next() {
        Some(token) => {
            if opens(&token) {
                let place = token.start as u64;
                drop(token);
                return set(alloc, line, tokens, ending.within(place), Op::Equals);
            }
            match operator(word(line, &token)) {
                Some(op) => {
                    drop(token);
                    behind_operator(alloc, line, tokens, ending, op)
                }
                None => single(alloc, line, token),
            }
        }
        None => Err(ending.missing(FaultKind::BadValue)),
    }
}

/// A string alone, and no set.
#[tactic(auto, unfolding(crate::specs::Values::text_of))]
pub fn text(line: &[u8], tokens: &mut Tokens, ending: Ending) -> Result<Text, Stop>
    ensures is { Reads result tokens.new (values.text_of line.now ending tokens.old) }
    ensures shorter { length tokens.new ≤ length tokens.old }
{
    match tokens.next() {
        Some(token) => item(line, token),
        None => Err(ending.missing(FaultKind::BadValue)),
    }
}
