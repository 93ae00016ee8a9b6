// A row of a list, and whether a query matches its device.
ghost use Rattle.std.specs.Prelude.{◌≡◌, IfOk, IfSome, IfNone, Some, None};
ghost use Rattle.ug_rows.specs.Rows as rows;

use crate::cuts::cut_at_mark;
use crate::devices::told_device;
use std::alloc::Global;
use ug_lines::parse_decimal;
use ug_match::matches;
use ug_rule::{RuleFault, parse_rule};
use ug_types::{NoMemory, Query, Rule, Target};

fn numbered_text<'a>(digits: &[u8], rest: &'a [u8]) -> Option<(u64, &'a [u8])>
    ensures some { IfSome result (λ row. rows.numbered_text digits.now rest.now
        ≡ Some (row.0, row.1.now)) }
    ensures none { IfNone result (rows.numbered_text digits.now rest.now ≡ None) }
{
    match rest {
        [b' ', text @ ..] => match parse_decimal(digits) {
            Some(number) => Some((number, text)),
            None => None,
        },
        _ => None,
    }
}

/// The number of a row, and what stands behind it.
#[tactic(auto, unfolding(crate::specs::Rows::row_in))]
pub fn read_row(row: &[u8]) -> Option<(u64, &[u8])>
    ensures some { IfSome result (λ read. rows.row_in row.now ≡ Some (read.0, read.1.now)) }
    ensures none { IfNone result (rows.row_in row.now ≡ None) }
{
    match cut_at_mark(b':', row) {
        Some((digits, rest)) => numbered_text(digits, rest),
        None => None,
    }
}

/// The verdict on a device, by its text.
pub fn told_verdict(text: &[u8]) -> Option<Target>
    ensures { result ≡ rows.told_verdict text.now }
{
    match cut_at_mark(b' ', text) {
        Some((word, _rest)) => Target::named(word),
        None => None,
    }
}

fn matches_rule(alloc: Global, query: &Query, rule: &Rule) -> Result<bool, NoMemory>
    ensures { IfOk result (λ matched. matched ≡ rows.matches_read query.now (Ok rule.now)) }
{
    match told_device(alloc, &rule.query)? {
        Some(device) => Ok(matches(query, &device)),
        None => Ok(false),
    }
}

/// Whether the text is a device's rule, and the query matches that device.
#[tactic(auto, unfolding(crate::specs::Rows::matches_text))]
pub fn matches_text(alloc: Global, query: &Query, text: &[u8]) -> Result<bool, NoMemory>
    ensures { IfOk result (λ matched. matched ≡ rows.matches_text query.now text.now) }
{
    match parse_rule(alloc, text) {
        Ok(rule) => {
            let matched = matches_rule(alloc, query, &rule);
            rule.discard();
            matched
        }
        Err(RuleFault::Bad { .. }) => Ok(false),
        Err(RuleFault::Memory) => Err(NoMemory),
    }
}
