// What is found of one rule.
ghost use Rattle.std.specs.Prelude.{◌≡◌, ◌<◌, ◌^◌, length, position};
ghost use Rattle.ug_lint.specs.Findings as rules;

use crate::certain::{always_hold, never_hold};
use crate::implied::is_implied;
use ug_types::Rule;

/// Why a rule can never decide. Rules are counted from 0.
#[derive(Clone, Copy)]
pub enum Finding {
    /// An earlier rule decides wherever this one would.
    Covered { rule: u32, by: u32 },
    /// The rule's conditions never hold.
    Never { rule: u32 },
}

fn covers_rule(earlier: &Rule, rule: &Rule) -> bool
    ensures { result ≡ rules.covers_rule rule.now earlier.now }
{
    is_implied(&earlier.query, &rule.query) && always_hold(&earlier.conds)
}

fn covering_place(before: &[Rule], rule: &Rule) -> Option<usize>
    ensures { result ≡ position (rules.covers_rule rule.now) before.now }
{
    for place in 0..before.len() {
        if covers_rule(&before[place], rule) {
            return Some(place);
        }
    }
    None
}

/// What is found of a rule behind the rules before it. It takes no memory.
pub fn finding_of(before: &[Rule], rule: &Rule) -> Option<Finding>
    requires { length before.now < 4096 }
    ensures { result ≡ rules.finding_of before.now rule.now }
{
    let place = before.len() as u32;
    if never_hold(&rule.conds) {
        return Some(Finding::Never { rule: place });
    }
    match covering_place(before, rule) {
        Some(by) => Some(Finding::Covered {
            rule: place,
            by: by as u32,
        }),
        None => None,
    }
}
