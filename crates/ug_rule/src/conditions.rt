// The conditions of a rule: usbguard-rules.conf(5).
ghost use Rattle.std.specs.Prelude.{◌≡◌, ◌≤◌, [], length, Ok};
ghost use Rattle.ug_rule.specs.Conditions as conditions;
ghost use Rattle.ug_rule.specs.Faults.{on_ok};
ghost use Rattle.ug_rule.specs.Tokens.{Reads};
ghost use Rattle.ug_types.specs.declared.rule.CondKind.TheVariants as kind;
ghost use Rattle.ug_words.specs.Words.{past_of, chance_of};

use crate::fault::{Ending, FaultKind, Stop, required, where_good};
use crate::queries::{is_blank, query, stray};
use crate::tokens_left::{Tokens, closes, opens, word};
use crate::values::{brace, filled, list_of};
use std::alloc::Global;
use ug_types::{Cond, CondKind, Conds, List, Op, Query};
use ug_words::{CondName, Token, TokenKind, chance, condition, operator, past, span};

// The token that must come next.
fn next(tokens: &mut Tokens, ending: Ending) -> Result<Token, Stop>
    ensures is { Reads result tokens.new (conditions.next_of ending tokens.old) }
    ensures shorter { length tokens.new ≤ length tokens.old }
{
    match tokens.next() {
        Some(token) => Ok(token),
        None => Err(ending.missing(FaultKind::BadCondition)),
    }
}

fn open(tokens: &mut Tokens, ending: Ending) -> Result<(), Stop>
    ensures is { Reads result tokens.new (conditions.opened ending tokens.old) }
    ensures shorter { length tokens.new ≤ length tokens.old }
{
    match tokens.next() {
        Some(token) => match token.kind {
            TokenKind::ParenOpen => Ok(()),
            _ => Err(Stop::at(FaultKind::BadCondition, token.start as u64)),
        },
        None => Err(ending.missing(FaultKind::BadCondition)),
    }
}

fn close(tokens: &mut Tokens, ending: Ending) -> Result<(), Stop>
    ensures is { Reads result tokens.new (conditions.closed ending tokens.old) }
    ensures shorter { length tokens.new ≤ length tokens.old }
{
    match tokens.next() {
        Some(token) => match token.kind {
            TokenKind::ParenClose => Ok(()),
            _ => Err(Stop::at(FaultKind::BadCondition, token.start as u64)),
        },
        None => Err(ending.missing(FaultKind::BadCondition)),
    }
}

#[tactic(auto, unfolding(crate::specs::Conditions::localtime_of, crate::specs::Conditions::argument_of))]
fn localtime(line: &[u8], tokens: &mut Tokens, ending: Ending) -> Result<CondKind, Stop>
    ensures is { Reads result tokens.new (conditions.localtime_of line.now ending tokens.old) }
    ensures shorter { length tokens.new ≤ length tokens.old }
{
    open(tokens, ending)?;
    let token = next(tokens, ending)?;
    let place = token.start as u64;
    let found = span(word(line, &token));
    drop(token);
    let span = required(found, FaultKind::BadCondition, place)?;
    close(tokens, ending)?;
    Ok(CondKind::LocalTime {
        begin: span.begin,
        end: span.end,
    })
}

// A query ends at its closing parenthesis, and isn't empty.
fn close_query(line: &[u8], tokens: &mut Tokens, ending: Ending, query: &Query) -> Result<(), Stop>
    ensures is { Reads (on_ok result (λ _. Ok (kind.AllowedMatches query.now))) tokens.new
        (conditions.matches_closed line.now ending query.now tokens.old) }
    ensures shorter { length tokens.new ≤ length tokens.old }
{
    let Some(token) = tokens.next() else {
        return Err(ending.missing(FaultKind::BadCondition));
    };
    if !matches!(token.kind, TokenKind::ParenClose) {
        return Err(stray(FaultKind::ConditionInQuery, line, &token));
    }
    let place = token.start as u64;
    drop(token);
    if is_blank(query) {
        return Err(Stop::at(FaultKind::BadCondition, place));
    }
    Ok(())
}

#[tactic(auto, unfolding(crate::specs::Conditions::matches_of))]
fn allowed_matches(
    alloc: Global,
    line: &[u8],
    tokens: &mut Tokens,
    ending: Ending,
) -> Result<CondKind, Stop>
    ensures is { Reads result tokens.new (conditions.matches_of line.now ending tokens.old) }
    ensures shorter { length tokens.new ≤ length tokens.old }
{
    open(tokens, ending)?;
    let query = query(alloc, line, tokens, ending)?;
    let closed = close_query(line, tokens, ending, &query);
    where_good(CondKind::AllowedMatches(query), closed)
}

#[tactic(auto, unfolding(crate::specs::Conditions::argument_of))]
fn past_argument(line: &[u8], tokens: &mut Tokens, ending: Ending) -> Result<u32, Stop>
    ensures is { Reads result tokens.new
        (conditions.argument_of past_of line.now ending tokens.old) }
    ensures shorter { length tokens.new ≤ length tokens.old }
{
    let token = next(tokens, ending)?;
    let place = token.start as u64;
    let found = past(word(line, &token));
    drop(token);
    let past = required(found, FaultKind::BadCondition, place)?;
    close(tokens, ending)?;
    Ok(past)
}

#[tactic(auto, unfolding(crate::specs::Conditions::argument_of))]
fn chance_argument(line: &[u8], tokens: &mut Tokens, ending: Ending) -> Result<u32, Stop>
    ensures is { Reads result tokens.new
        (conditions.argument_of chance_of line.now ending tokens.old) }
    ensures shorter { length tokens.new ≤ length tokens.old }
{
    let token = next(tokens, ending)?;
    let place = token.start as u64;
    let found = chance(word(line, &token));
    drop(token);
    let chance = required(found, FaultKind::BadCondition, place)?;
    close(tokens, ending)?;
    Ok(chance)
}

// Seconds in parentheses, or none.
#[tactic(auto, unfolding(crate::specs::Conditions::perhaps_of))]
fn perhaps_past(line: &[u8], tokens: &mut Tokens, ending: Ending) -> Result<Option<u32>, Stop>
    ensures is { Reads result tokens.new
        (conditions.perhaps_of past_of line.now ending tokens.old) }
    ensures shorter { length tokens.new ≤ length tokens.old }
{
    if !tokens.take_paren() {
        return Ok(None);
    }
    Ok(Some(past_argument(line, tokens, ending)?))
}

// A probability in parentheses, or none.
#[tactic(auto, unfolding(crate::specs::Conditions::perhaps_of))]
fn perhaps_chance(line: &[u8], tokens: &mut Tokens, ending: Ending) -> Result<Option<u32>, Stop>
    ensures is { Reads result tokens.new
        (conditions.perhaps_of chance_of line.now ending tokens.old) }
    ensures shorter { length tokens.new ≤ length tokens.old }
{
    if !tokens.take_paren() {
        return Ok(None);
    }
    Ok(Some(chance_argument(line, tokens, ending)?))
}

fn random(chance: Option<u32>) -> CondKind
    ensures { result ≡ CondKind.Random (conditions.chance_or_half chance) }
{
    match chance {
        Some(chance) => CondKind::Random(chance),
        None => CondKind::Random(500_000_000),
    }
}

#[tactic(auto, unfolding(crate::specs::Conditions::kind_of))]
fn kind(
    alloc: Global,
    line: &[u8],
    tokens: &mut Tokens,
    ending: Ending,
    name: CondName,
) -> Result<CondKind, Stop>
    ensures is { Reads result tokens.new (conditions.kind_of name line.now ending tokens.old) }
    ensures shorter { length tokens.new ≤ length tokens.old }
{
    match name {
        CondName::LocalTime => localtime(line, tokens, ending),
        CondName::AllowedMatches => allowed_matches(alloc, line, tokens, ending),
        CondName::RuleApplied => Ok(CondKind::RuleApplied(perhaps_past(line, tokens, ending)?)),
        CondName::RuleEvaluated => Ok(CondKind::RuleEvaluated(perhaps_past(line, tokens, ending)?)),
        CondName::Random => Ok(random(perhaps_chance(line, tokens, ending)?)),
        CondName::True => Ok(CondKind::True),
        CondName::False => Ok(CondKind::False),
    }
}

// A condition whose name the token is.
#[tactic(auto, unfolding(crate::specs::Conditions::named_condition))]
fn named(
    alloc: Global,
    line: &[u8],
    tokens: &mut Tokens,
    ending: Ending,
    negated: bool,
    token: Token,
) -> Result<Cond, Stop>
    ensures is { Reads result tokens.new
        (conditions.named_condition line.now ending negated token tokens.old) }
    ensures shorter { length tokens.new ≤ length tokens.old }
{
    let place = token.start as u64;
    let found = condition(word(line, &token));
    drop(token);
    let name = required(found, FaultKind::BadCondition, place)?;
    let kind = kind(alloc, line, tokens, ending, name)?;
    Ok(Cond { negated, kind })
}

// A condition that the token begins.
#[tactic(auto, unfolding(crate::specs::Conditions::condition_from))]
fn condition_from(
    alloc: Global,
    line: &[u8],
    tokens: &mut Tokens,
    ending: Ending,
    token: Token,
) -> Result<Cond, Stop>
    ensures is { Reads result tokens.new
        (conditions.condition_from line.now ending token tokens.old) }
    ensures shorter { length tokens.new ≤ length tokens.old }
{
    if !matches!(token.kind, TokenKind::Bang) {
        return named(alloc, line, tokens, ending, false, token);
    }
    drop(token);
    let name = next(tokens, ending)?;
    named(alloc, line, tokens, ending, true, name)
}

// The conditions up to the closing brace.
fn items(
    alloc: Global,
    line: &[u8],
    tokens: &mut Tokens,
    ending: Ending,
) -> Result<List<Cond>, Stop>
    ensures is { Reads result tokens.new
        (conditions.conds_from (length tokens.old) line.now ending [] tokens.old) }
    ensures shorter { length tokens.new ≤ length tokens.old }
{
    let mut items = List::new(alloc);
    while let Some(token) = tokens.next() {
        if closes(&token) {
            return filled(items, token.start as u64);
        }
        match condition_from(alloc, line, tokens, ending, token) {
            Ok(item) => items.push(item)?,
            Err(stop) => {
                drop(items);
                return Err(stop);
            }
        }
    }
    drop(items);
    Err(ending.missing(FaultKind::OpenSet))
}

// A set whose opening brace was read.
#[tactic(auto, unfolding(crate::specs::Conditions::cond_set_of))]
fn set(
    alloc: Global,
    line: &[u8],
    tokens: &mut Tokens,
    ending: Ending,
    op: Op,
) -> Result<Conds, Stop>
    ensures is { Reads result tokens.new (conditions.cond_set_of line.now ending op tokens.old) }
    ensures shorter { length tokens.new ≤ length tokens.old }
{
    let items = items(alloc, line, tokens, ending)?;
    Ok(Conds { op, items })
}

fn behind_operator(
    alloc: Global,
    line: &[u8],
    tokens: &mut Tokens,
    ending: Ending,
    op: Op,
) -> Result<Conds, Stop>
    ensures is { Reads result tokens.new (conditions.set_behind line.now ending op tokens.old) }
    ensures shorter { length tokens.new ≤ length tokens.old }
{
    let place = brace(tokens, ending, FaultKind::BadCondition)?;
    set(alloc, line, tokens, ending.within(place), op)
}

fn single(
    alloc: Global,
    line: &[u8],
    tokens: &mut Tokens,
    ending: Ending,
    token: Token,
) -> Result<Conds, Stop>
    ensures is { Reads result tokens.new (conditions.single_of line.now ending token tokens.old) }
    ensures shorter { length tokens.new ≤ length tokens.old }
{
    let items = list_of(alloc, condition_from(alloc, line, tokens, ending, token)?)?;
    Ok(Conds {
        op: Op::Equals,
        items,
    })
}

/// One condition, or a set of them.
#[tactic(auto, unfolding(crate::specs::Conditions::conditions_of))]
pub fn conditions(
    alloc: Global,
    line: &[u8],
    tokens: &mut Tokens,
    ending: Ending,
) -> Result<Conds, Stop>
    ensures is { Reads result tokens.new (conditions.conditions_of line.now ending tokens.old) }
    ensures shorter { length tokens.new ≤ length tokens.old }
{
    match tokens.next() {
        Some(token) => {
            if opens(&token) {
                let place = token.start as u64;
                drop(token);
                return set(alloc, line, tokens, ending.within(place), Op::Equals);
            }
            match operator(word(line, &token)) {
                Some(op) => {
                    drop(token);
                    behind_operator(alloc, line, tokens, ending, op)
                }
                None => single(alloc, line, tokens, ending, token),
            }
        }
        None => Err(ending.missing(FaultKind::BadCondition)),
    }
}
