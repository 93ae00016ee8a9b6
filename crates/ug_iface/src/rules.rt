// Rules that switch off interfaces.
ghost use Rattle.std.specs.Prelude.{◌≡◌, ◌++◌, ◌∷◌, [], IfOk, OnOk};
ghost use Rattle.ug_iface.specs.Rules as rules;
ghost use Rattle.ug_iface.specs.Rules.{blanked, GivesLine};
ghost use Rattle.ug_rule.specs.Tokens.{word_of};

use std::alloc::Global;
use ug_rule::{RuleFault, parse_query};
use ug_types::{Iface, NoMemory, Query, is_word};
use ug_words::{LexFault, Token, TokenKind, interface, tokens};

/// The interfaces that a rule switches off: those of that type, of devices that the query matches.
#[derive(Drop)]
pub struct IfaceRule {
    pub iface: Iface,
    pub query: Query,
}

impl IfaceRule {
    /// Drops it. A crate that calls this need not prove how its parts are dropped.
    pub fn discard(self) {
        self.query.discard();
    }
}

/// Appends a rule. Where memory is short, the rule is dropped.
pub fn push_iface_rule(rules: &mut Vec<IfaceRule>, rule: IfaceRule) -> Result<(), NoMemory>
    ensures { OnOk result (rules.new.items ≡ rules.old.items ++ rule ∷ []) }
{
    match rules.reserve(1) {
        Ok(()) => {
            rules.push_reserved(rule);
            Ok(())
        }
        Err(_) => {
            rule.discard();
            Err(NoMemory)
        }
    }
}

/// Drops rules, as `IfaceRule::discard`.
pub fn discard_iface_rules(rules: Vec<IfaceRule>) {
    drop(rules);
}

// The numbers of kinds of faults.
const BAD_ESCAPE: u8 = 1;

const OPEN_STRING: u8 = 2;

const BAD_BYTE: u8 = 3;

const BAD_VALUE: u8 = 7;

const NO_OFF: u8 = 13;

/// The line `off IFACE QUERY`, or its first fault, with its place in the whole line. Lexical faults come first. Then the
/// kinds are: 13, the first token isn't `off`, at it, or at the line's end where there is none; 7, the next token is no
/// interface type, at it, or at the line's end; and those of `parse_query` behind it, with at least one attribute. Linear
/// in the number of bytes.
pub fn parse_iface_rule(alloc: Global, line: &[u8]) -> Result<IfaceRule, RuleFault>
    ensures exact { GivesLine result (rules.iface_rule_read line.now) }
{
    match tokens(alloc, line) {
        Ok(tokens) => iface_rule(alloc, line, tokens.as_slice()),
        Err(LexFault::BadEscape(place)) => Err(RuleFault::Bad {
            kind: BAD_ESCAPE,
            place,
        }),
        Err(LexFault::OpenString(place)) => Err(RuleFault::Bad {
            kind: OPEN_STRING,
            place,
        }),
        Err(LexFault::BadByte(place)) => Err(RuleFault::Bad {
            kind: BAD_BYTE,
            place,
        }),
        Err(LexFault::Memory) => Err(RuleFault::Memory),
    }
}

// The bytes of a word. Another token has none.
#[tactic(auto, using(ug_rule::proofs::Cuts::cut))]
fn word<'a>(line: &'a [u8], token: &Token) -> &'a [u8]
    ensures { result.now ≡ word_of line.now token.now }
{
    match token.kind {
        TokenKind::Word => {
            let end = token.end.min(line.len());
            let start = token.start.min(end);
            &line[start..end]
        }
        _ => &[],
    }
}

fn iface_rule(alloc: Global, line: &[u8], tokens: &[Token]) -> Result<IfaceRule, RuleFault>
    ensures { GivesLine result (rules.iface_rule_of line.now tokens.now) }
{
    match tokens {
        [first, behind @ ..] => {
            if !is_word(word(line, first), b"off") {
                return Err(RuleFault::Bad {
                    kind: NO_OFF,
                    place: first.start as u64,
                });
            }
            behind_off(alloc, line, behind)
        }
        [] => Err(RuleFault::Bad {
            kind: NO_OFF,
            place: line.len() as u64,
        }),
    }
}

fn behind_off(alloc: Global, line: &[u8], tokens: &[Token]) -> Result<IfaceRule, RuleFault>
    ensures { GivesLine result (rules.behind_off line.now tokens.now) }
{
    match tokens.first() {
        Some(token) => match interface(word(line, token)) {
            Some(iface) => with_query(alloc, line, token.end, iface),
            None => Err(RuleFault::Bad {
                kind: BAD_VALUE,
                place: token.start as u64,
            }),
        },
        None => Err(RuleFault::Bad {
            kind: BAD_VALUE,
            place: line.len() as u64,
        }),
    }
}

// Spaces in place of the bytes before `start`, so that those behind keep their places.
#[tactic(auto, using(std::proofs::lemmas::List::drop_min))]
fn blank_before(alloc: Global, line: &[u8], start: usize) -> Result<Vec<u8>, NoMemory>
    ensures { IfOk result (λ text. text.items ≡ blanked start line.now) }
{
    let mut text = vec![in alloc; b' '; start]?;
    text.extend_from_slice(&line[start.min(line.len())..])?;
    Ok(text)
}

fn with_query(
    alloc: Global,
    line: &[u8],
    start: usize,
    iface: Iface,
) -> Result<IfaceRule, RuleFault>
    ensures { GivesLine result (rules.query_behind line.now start iface) }
{
    let Ok(text) = blank_before(alloc, line, start) else {
        return Err(RuleFault::Memory);
    };
    match parse_query(alloc, &text) {
        Ok(query) => Ok(IfaceRule { iface, query }),
        Err(fault) => Err(fault),
    }
}
