// Rows of a list of rules, and the devices that each of them applies to.
ghost use Rattle.std.specs.Prelude.{◌≡◌, ◌++◌, ◌∷◌, [], cond, IfOk, OnOk, Some};
ghost use Rattle.ug_rows.specs.RuleRows as rows;
ghost use Rattle.ug_rule.specs.Rules.{rule_read};

use crate::matching::matching_number;
use crate::rows::read_row;
use std::alloc::Global;
use ug_rule::{RuleFault, parse_rule};
use ug_types::{NoMemory, Query, Rule, Text, is_word};

fn read_rule(alloc: Global, text: &[u8]) -> Result<Option<Rule>, NoMemory>
    ensures { IfOk result (λ rule. rule ≡ rows.good_rule (rule_read text.now)) }
{
    match parse_rule(alloc, text) {
        Ok(rule) => Ok(Some(rule)),
        Err(RuleFault::Bad { .. }) => Ok(None),
        Err(RuleFault::Memory) => Err(NoMemory),
    }
}

#[tactic(auto, unfolding(crate::specs::RuleRows::rule_in_row))]
pub fn rule_of(alloc: Global, row: &[u8]) -> Result<Option<Rule>, NoMemory>
    ensures { IfOk result (λ rule. rule ≡ rows.rule_in_row row.now) }
{
    match read_row(row) {
        Some((_number, text)) => read_rule(alloc, text),
        None => Ok(None),
    }
}

fn bears_label(wanted: &[u8], rule: &Rule) -> bool
    ensures { result ≡ rows.is_label wanted.now rule.now.query.label }
{
    match &rule.query.label {
        Some(label) => is_word(label.bytes(), wanted),
        None => false,
    }
}

/// Whether the rule of the row has the label.
#[tactic(auto, unfolding(crate::specs::RuleRows::is_labelled))]
pub fn is_labelled(alloc: Global, wanted: &[u8], row: &[u8]) -> Result<bool, NoMemory>
    ensures { IfOk result (λ labelled. labelled ≡ rows.is_labelled wanted.now row.now) }
{
    match rule_of(alloc, row)? {
        Some(rule) => {
            let labelled = bears_label(wanted, &rule);
            rule.discard();
            Ok(labelled)
        }
        None => Ok(false),
    }
}

/// Whether the rule of the row has the label, or none is wanted.
pub fn is_shown(alloc: Global, wanted: &Option<Text>, row: &[u8]) -> Result<bool, NoMemory>
    ensures { IfOk result (λ shown. shown ≡ rows.is_shown wanted.now row.now) }
{
    match wanted {
        Some(label) => is_labelled(alloc, label.bytes(), row),
        None => Ok(true),
    }
}

/// What a rule says of devices, by their rows.
#[derive(Drop)]
pub struct Split {
    /// Those that it applies to.
    pub applied: Vec<Text>,
    /// Those for which a later rule may decide.
    pub left: Vec<Text>,
}

pub fn matches_row(alloc: Global, query: &Query, row: &[u8]) -> Result<bool, NoMemory>
    ensures { IfOk result (λ matched. matched ≡ rows.matches_row query.now row.now) }
{
    match matching_number(alloc, query, row) {
        Ok(number) => Ok(number.is_some()),
        Err(fault) => Err(fault),
    }
}

pub fn push_row(
    alloc: Global,
    rows: &mut Vec<Text>,
    row: &[u8],
    taken: bool,
) -> Result<(), NoMemory>
    ensures { OnOk result (rows.new.items ≡ rows.old.items ++ cond taken (row.now ∷ []) []) }
{
    if taken {
        rows.push(Text::of(alloc, row)?)?;
    }
    Ok(())
}

fn split_by(alloc: Global, rule: &Rule, devices: &[Text]) -> Result<Split, NoMemory>
    ensures applied { IfOk result (λ split. split.applied.items
        ≡ rows.applied_rows (Some rule.now) devices.now) }
    ensures left { IfOk result (λ split. split.left.items
        ≡ rows.left_rows (Some rule.now) devices.now) }
{
    let is_certain = rule.conds.is_none();
    let mut applied = Vec::new(alloc);
    let mut left = Vec::new(alloc);
    for device in devices {
        let row = device.bytes();
        let matched = matches_row(alloc, &rule.query, row)?;
        push_row(alloc, &mut applied, row, matched)?;
        push_row(alloc, &mut left, row, !(matched && is_certain))?;
    }
    Ok(Split { applied, left })
}

/// Copies of the rows.
pub fn copy_rows(alloc: Global, rows: &[Text]) -> Result<Vec<Text>, NoMemory>
    ensures { IfOk result (λ copies. copies.items ≡ rows.now) }
{
    let mut copies = Vec::new(alloc);
    for row in rows {
        copies.push(Text::of(alloc, row.bytes())?)?;
    }
    Ok(copies)
}

/// What the rule of the row says of the devices. A row without a rule applies to none.
pub fn split_devices(alloc: Global, row: &[u8], devices: Vec<Text>) -> Result<Split, NoMemory>
    ensures applied { IfOk result (λ split. split.applied.items
        ≡ rows.applied_rows (rows.rule_in_row row.now) devices.items) }
    ensures left { IfOk result (λ split. split.left.items
        ≡ rows.left_rows (rows.rule_in_row row.now) devices.items) }
{
    match rule_of(alloc, row)? {
        Some(rule) => {
            let split = split_by(alloc, &rule, devices.as_slice());
            rule.discard();
            split
        }
        None => Ok(Split {
            applied: Vec::new(alloc),
            left: devices,
        }),
    }
}
