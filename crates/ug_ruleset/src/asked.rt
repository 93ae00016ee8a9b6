// What rules ask about the devices that are allowed.
use ug_policy::RuleEntry;
use ug_types::{CondKind, Query, Rule};

fn asked_by(rule: &Rule) -> Option<&Query> {
    let Some(conds) = &rule.conds else {
        return None;
    };
    for cond in conds.items.as_slice() {
        if let CondKind::AllowedMatches(query) = &cond.kind {
            return Some(query);
        }
    }
    None
}

/// The place of the first rule with an `allowed-matches` condition.
pub fn first_asking(rules: &[RuleEntry]) -> Option<usize> {
    for place in 0..rules.len() {
        if asked_by(&rules[place].rule).is_some() {
            return Some(place);
        }
    }
    None
}

/// The first query of an `allowed-matches` condition of the rule at that place, if it has one.
pub fn asked_at(rules: &[RuleEntry], place: usize) -> Option<&Query> {
    if place < rules.len() {
        asked_by(&rules[place].rule)
    } else {
        None
    }
}
