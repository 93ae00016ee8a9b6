// The operators of a set of values.
ghost use Rattle.std.specs.Prelude.{◌≡◌};
ghost use Rattle.std.specs.List.{list_all, list_any};
ghost use Rattle.ug_match.specs.Operators.{in_order, is_matched, matches_some};
ghost use Rattle.ug_match.specs.Operators as operators;

use crate::covers::Covers;
use ug_types::{Op, Values};

fn covers_some<T: Covers<D>, D>(rule: &T, device: &[D]) -> bool
    ensures { result ≡ matches_some T.covers device.now rule.now }
{
    for value in device {
        if rule.covers(value) {
            return true;
        }
    }
    false
}

fn is_covered<T: Covers<D>, D>(rules: &[T], value: &D) -> bool
    ensures { result ≡ is_matched T.covers rules.now value.now }
{
    for rule in rules {
        if rule.covers(value) {
            return true;
        }
    }
    false
}

fn each_covers<T: Covers<D>, D>(rules: &[T], device: &[D]) -> bool
    ensures { result ≡ list_all (matches_some T.covers device.now) rules.now }
{
    for rule in rules {
        if !covers_some(rule, device) {
            return false;
        }
    }
    true
}

fn one_covers<T: Covers<D>, D>(rules: &[T], device: &[D]) -> bool
    ensures { result ≡ list_any (matches_some T.covers device.now) rules.now }
{
    for rule in rules {
        if covers_some(rule, device) {
            return true;
        }
    }
    false
}

fn each_is_covered<T: Covers<D>, D>(rules: &[T], device: &[D]) -> bool
    ensures { result ≡ list_all (is_matched T.covers rules.now) device.now }
{
    for value in device {
        if !is_covered(rules, value) {
            return false;
        }
    }
    true
}

fn covers_in_order<T: Covers<D>, D>(rules: &[T], device: &[D]) -> bool
    ensures { result ≡ in_order T.covers rules.now device.now }
{
    if rules.len() != device.len() {
        return false;
    }
    for i in 0..rules.len() {
        if !rules[i].covers(&device[i]) {
            return false;
        }
    }
    true
}

/// Whether a set of values and its operator hold of a device's values.
pub fn holds<T: Covers<D>, D>(values: &Values<T>, device: &[D]) -> bool
    ensures { result ≡ operators.holds T.covers values.now.op values.now.items device.now }
{
    let rules = values.items.as_slice();
    match values.op {
        Op::AllOf => each_covers(rules, device),
        Op::OneOf => one_covers(rules, device),
        Op::NoneOf => !one_covers(rules, device),
        Op::Equals => each_covers(rules, device) && each_is_covered(rules, device),
        Op::EqualsOrdered => covers_in_order(rules, device),
    }
}
