// Rules and queries of whole lines: usbguard-rules.conf(5).
ghost use Rattle.std.specs.Prelude.{◌≡◌, Option, Ok};
ghost use Rattle.ug_rule.specs.Faults.{AnswersRead, GivesNumbered, on_ok};
ghost use Rattle.ug_rule.specs.Rules as rules;
ghost use Rattle.ug_rule.specs.Tokens.{Reads};
ghost use Rattle.ug_types.specs.declared.rule.Conds.{Conds};
ghost use Rattle.ug_types.specs.declared.rule.Rule.{Rule};
ghost use Rattle.ug_types.specs.declared.verdict.Target.{Target};

use crate::conditions::conditions;
use crate::fault::{Ending, FaultKind, RuleFault, Stop, answer, required, where_good};
use crate::queries::{add_attributes, query, query_ends, stray};
use crate::tokens_left::{Tokens, read, word};
use std::alloc::Global;
use std::mem::replace;
use ug_types::{Conds, List, Query, Rule, Target};
use ug_words::{Token, is_if};

fn end_of(line: &[u8]) -> Ending
    ensures { result ≡ rules.end_of line.now }
{
    Ending {
        brace: None,
        length: line.len() as u64,
    }
}

// `if` and its conditions, or none.
#[tactic(auto, unfolding(crate::specs::Rules::conds_of))]
fn conds(
    alloc: Global,
    line: &[u8],
    tokens: &mut Tokens,
    ending: Ending,
) -> Result<Option<Conds>, Stop>
    ensures is { Reads result tokens.new (rules.conds_of line.now ending tokens.old) }
{
    if !is_if(tokens.first_word(line)) {
        return Ok(None);
    }
    tokens.skip();
    Ok(Some(conditions(alloc, line, tokens, ending)?))
}

fn rule_ends(line: &[u8], tokens: &mut Tokens) -> Result<(), Stop>
    ensures { (rule : Rule) → AnswersRead (on_ok result (λ _. Ok rule))
        (rules.rule_ends line.now rule tokens.old) }
{
    match tokens.next() {
        Some(token) => Err(stray(FaultKind::Repeated, line, &token)),
        None => Ok(()),
    }
}

// Adds the attributes behind the conditions, which end the line.
fn last_attributes(
    alloc: Global,
    line: &[u8],
    tokens: &mut Tokens,
    ending: Ending,
    rule: &mut Rule,
) -> Result<(), Stop>
    ensures { AnswersRead (on_ok result (λ _. Ok rule.new))
        (rules.last_attributes line.now
        ending rule.old.target rule.old.query rule.old.conds tokens.old) }
{
    add_attributes(alloc, line, tokens, ending, &mut rule.query)?;
    rule_ends(line, tokens)
}

// Adds the conditions or none, and what stands behind them.
fn later_parts(
    alloc: Global,
    line: &[u8],
    tokens: &mut Tokens,
    ending: Ending,
    rule: &mut Rule,
) -> Result<(), Stop>
    ensures { AnswersRead (on_ok result (λ _. Ok rule.new))
        (rules.later_parts line.now ending rule.old.target rule.old.query tokens.old) }
{
    let conds = conds(alloc, line, tokens, ending)?;
    drop(replace(&mut rule.conds, conds));
    last_attributes(alloc, line, tokens, ending, rule)
}

// What stands behind the target.
#[tactic(auto, unfolding(crate::specs::Rules::parts_of))]
fn parts(alloc: Global, line: &[u8], tokens: &mut Tokens, target: Target) -> Result<Rule, Stop>
    ensures { AnswersRead result (rules.parts_of line.now target tokens.old) }
{
    let ending = end_of(line);
    let query = query(alloc, line, tokens, ending)?;
    let mut rule = Rule {
        target,
        query,
        conds: None,
    };
    let read = later_parts(alloc, line, tokens, ending, &mut rule);
    where_good(rule, read)
}

/// The rule that the tokens of a line are.
#[tactic(auto, unfolding(crate::specs::Rules::rule_of))]
pub fn rule(alloc: Global, line: &[u8], tokens: List<Token>) -> Result<Rule, Stop>
    ensures { AnswersRead result (rules.rule_of line.now tokens) }
{
    let mut tokens = Tokens::new(tokens);
    match tokens.next() {
        Some(token) => {
            let place = token.start as u64;
            let named = Target::named(word(line, &token));
            drop(token);
            let target = required(named, FaultKind::NoTarget, place)?;
            parts(alloc, line, &mut tokens, target)
        }
        None => Err(Stop::at(FaultKind::NoTarget, line.len() as u64)),
    }
}

fn read_rule(alloc: Global, line: &[u8]) -> Result<Rule, Stop>
    ensures { AnswersRead result (rules.rule_read line.now) }
{
    let tokens = read(alloc, line)?;
    rule(alloc, line, tokens)
}

#[tactic(auto, unfolding(crate::specs::Rules::whole_query))]
fn whole_query(alloc: Global, line: &[u8], tokens: List<Token>) -> Result<Query, Stop>
    ensures { AnswersRead result (rules.whole_query line.now tokens) }
{
    let mut tokens = Tokens::new(tokens);
    let ending = end_of(line);
    let query = query(alloc, line, &mut tokens, ending)?;
    let ended = query_ends(line, &mut tokens, ending, &query);
    drop(tokens);
    where_good(query, ended)
}

fn read_query(alloc: Global, line: &[u8]) -> Result<Query, Stop>
    ensures { AnswersRead result (rules.query_read line.now) }
{
    let tokens = read(alloc, line)?;
    whole_query(alloc, line, tokens)
}

/// The rule of a line without its newline, or the line's first fault. A line that is blank or a comment has no target,
/// and is refused so at its length. Linear in the number of bytes.
pub fn parse_rule(alloc: Global, line: &[u8]) -> Result<Rule, RuleFault>
    ensures exact { GivesNumbered result (rules.rule_read line.now) }
{
    answer(read_rule(alloc, line))
}

/// The attributes of a line without a target and conditions, at least one. Linear in the number of bytes.
pub fn parse_query(alloc: Global, line: &[u8]) -> Result<Query, RuleFault>
    ensures exact { GivesNumbered result (rules.query_read line.now) }
{
    answer(read_query(alloc, line))
}
