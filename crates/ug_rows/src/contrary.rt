// Rules that say something else of a device than was ordered.
ghost use Rattle.std.specs.Prelude.{◌≡◌, IfOk, IfSome, IfNone, None, Some, not};
ghost use Rattle.std.specs.List.{find};
ghost use Rattle.ug_rows.specs.Contrary as contrary;
ghost use Rattle.ug_rows.specs.RuleRows as rows;

use crate::rows::read_row;
use crate::rule_rows::{matches_row, push_row, rule_of};
use std::alloc::Global;
use ug_types::{NoMemory, Rule, Target, Text};

fn is_same_target(a: Target, b: Target) -> bool
    ensures { result ≡ contrary.is_same_target a b }
{
    match (a, b) {
        (Target::Allow, Target::Allow) => true,
        (Target::Block, Target::Block) => true,
        (Target::Reject, Target::Reject) => true,
        _ => false,
    }
}

/// What a rule means for a device.
#[derive(Clone, Copy)]
struct Bearing {
    is_contrary: bool,
    is_last: bool,
}

fn bearing_of(
    alloc: Global,
    target: Target,
    device: &[u8],
    rule: &Rule,
) -> Result<Bearing, NoMemory>
    ensures contrary { IfOk result (λ bearing. bearing.is_contrary
        ≡ contrary.is_contrary target device.now (Some rule.now)) }
    ensures last { IfOk result (λ bearing. bearing.is_last
        ≡ rows.is_last_to_decide device.now (Some rule.now)) }
{
    let matched = matches_row(alloc, &rule.query, device)?;
    let is_same = is_same_target(rule.target, target);
    let is_certain = rule.conds.is_none();
    Ok(Bearing {
        is_contrary: matched && !is_same,
        is_last: matched && is_certain,
    })
}

fn read_bearing(
    alloc: Global,
    target: Target,
    device: &[u8],
    row: &[u8],
) -> Result<Bearing, NoMemory>
    ensures contrary { IfOk result (λ bearing. bearing.is_contrary
        ≡ contrary.is_contrary target device.now (rows.rule_in_row row.now)) }
    ensures last { IfOk result (λ bearing. bearing.is_last
        ≡ rows.is_last_to_decide device.now (rows.rule_in_row row.now)) }
{
    match rule_of(alloc, row)? {
        Some(rule) => {
            let bearing = bearing_of(alloc, target, device, &rule);
            rule.discard();
            bearing
        }
        None => Ok(Bearing {
            is_contrary: false,
            is_last: false,
        }),
    }
}

fn contrary_rows(
    alloc: Global,
    target: Target,
    device: &[u8],
    rules: &[Text],
) -> Result<Vec<Text>, NoMemory>
    ensures { IfOk result (λ found. found.items
        ≡ contrary.contrary_rows target device.now rules.now) }
{
    let mut found = Vec::new(alloc);
    for row in rules {
        let bearing = read_bearing(alloc, target, device, row.bytes())?;
        push_row(alloc, &mut found, row.bytes(), bearing.is_contrary)?;
        if bearing.is_last {
            return Ok(found);
        }
    }
    Ok(found)
}

#[tactic(auto, unfolding(crate::specs::Contrary::is_row_of))]
fn is_row_of(number: u64, row: &[u8]) -> bool
    ensures { result ≡ contrary.is_row_of number row.now }
{
    match read_row(row) {
        Some((its, _text)) => its == number,
        None => false,
    }
}

fn row_of(number: u64, devices: &[Text]) -> Option<&[u8]>
    ensures some { IfSome result (λ row. find (contrary.is_row_of number) devices.now
        ≡ Some row.now) }
    ensures none { IfNone result (find (contrary.is_row_of number) devices.now ≡ None) }
{
    for row in devices {
        if is_row_of(number, row.bytes()) {
            return Some(row.bytes());
        }
    }
    None
}

fn with_device(alloc: Global, device: &[u8], mut found: Vec<Text>) -> Result<Vec<Text>, NoMemory>
    ensures { IfOk result (λ lines. lines.items ≡ contrary.with_device device.now found.items) }
{
    if !found.is_empty() {
        found.push(Text::of(alloc, device)?)?;
    }
    Ok(found)
}

/// The rules that may decide for the device of that number, and say something else than that target, in their order. Behind them
/// stands the device's own row. There are none where the device has gone.
pub fn contrary_lines(
    alloc: Global,
    target: Target,
    number: u64,
    rules: &[Text],
    devices: &[Text],
) -> Result<Vec<Text>, NoMemory>
    ensures { IfOk result (λ lines. lines.items
        ≡ contrary.contrary_lines target number rules.now devices.now) }
{
    match row_of(number, devices) {
        Some(device) => {
            let found = contrary_rows(alloc, target, device, rules)?;
            with_device(alloc, device, found)
        }
        None => Ok(Vec::new(alloc)),
    }
}
