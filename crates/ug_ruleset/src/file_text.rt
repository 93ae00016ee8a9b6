// The text of a rule file with the permanent rules of a list.
ghost use Rattle.std.specs.Prelude.{◌≡◌, ◌<◌, ◌≤◌, ◌++◌, All, Err, IfOk, OnOk, Some, length, option_copied};
ghost use Rattle.ug_types.specs.Limits.{text_limit};
ghost use Rattle.ug_print.specs.Bytes.{RuleOfBytes};
ghost use Rattle.ug_print.specs.RuleTexts.{rules_text_of};
ghost use Rattle.ug_ruleset.specs.RuleEdits.{at_end, in_front, in_place, rules_after};
ghost use Rattle.ug_ruleset.specs.RuleFile.{permanent_rules, permanent_text, saved_rule};

use crate::edit::Edit;
use std::alloc::Global;
use ug_policy::{Mark, RuleEntry, RuleList};
use ug_print::{RulesText, RulesTextFault};
use ug_types::{After, Rule, Text};

// Adds the line of a rule, if it is permanent.
fn put_rule(
    alloc: Global,
    text: &mut RulesText,
    rule: &Rule,
    mark: Mark,
) -> Result<(), RulesTextFault>
    ensures text { OnOk result (text.new ≡ text.old ++ rules_text_of (saved_rule mark rule.now)) }
    ensures bytes { OnOk result (All RuleOfBytes (saved_rule mark rule.now)) }
    ensures too_long { result ≡ Err RulesTextFault.TooLong
        → text_limit < length (text.old ++ rules_text_of (saved_rule mark rule.now)) }
{
    if !mark.is_permanent() {
        return Ok(());
    }
    text.push(alloc, rule)
}

fn put_in_front(
    alloc: Global,
    text: &mut RulesText,
    edit: Option<&Edit>,
) -> Result<(), RulesTextFault>
    ensures text { OnOk result (text.new ≡ text.old
        ++ rules_text_of (in_front (option_copied edit.entry))) }
    ensures bytes { OnOk result (All RuleOfBytes (in_front (option_copied edit.entry))) }
    ensures too_long { result ≡ Err RulesTextFault.TooLong
        → text_limit < length (text.old ++ rules_text_of (in_front (option_copied edit.entry))) }
{
    match edit {
        Some(
            Edit::Insert {
                after: After::Front,
                rule,
                mark,
            },
        ) => put_rule(alloc, text, rule, *mark),
        _ => Ok(()),
    }
}

fn put_at_end(
    alloc: Global,
    text: &mut RulesText,
    edit: Option<&Edit>,
) -> Result<(), RulesTextFault>
    ensures text { OnOk result (text.new ≡ text.old
        ++ rules_text_of (at_end (option_copied edit.entry))) }
    ensures bytes { OnOk result (All RuleOfBytes (at_end (option_copied edit.entry))) }
    ensures too_long { result ≡ Err RulesTextFault.TooLong
        → text_limit < length (text.old ++ rules_text_of (at_end (option_copied edit.entry))) }
{
    match edit {
        Some(
            Edit::Insert {
                after: After::End,
                rule,
                mark,
            },
        ) => put_rule(alloc, text, rule, *mark),
        _ => Ok(()),
    }
}

// What becomes of a rule of the list.
fn put_edited(
    alloc: Global,
    text: &mut RulesText,
    entry: &RuleEntry,
    edit: &Edit,
) -> Result<(), RulesTextFault>
    ensures text { OnOk result (text.new ≡ text.old
        ++ rules_text_of (in_place (Some edit.now) entry.now)) }
    ensures bytes { OnOk result (All RuleOfBytes (in_place (Some edit.now) entry.now)) }
    ensures too_long { result ≡ Err RulesTextFault.TooLong
        → text_limit < length (text.old ++ rules_text_of (in_place (Some edit.now) entry.now)) }
{
    match edit {
        Edit::Insert {
            after: After::Rule(id),
            rule,
            mark,
        } if entry.id == *id => {
            put_rule(alloc, text, &entry.rule, entry.mark)?;
            put_rule(alloc, text, rule, *mark)
        }
        Edit::Remove { id } if entry.id == *id => Ok(()),
        Edit::Retarget { id, rule } if entry.id == *id => {
            put_rule(alloc, text, rule, entry.mark)
        }
        _ => put_rule(alloc, text, &entry.rule, entry.mark),
    }
}

fn put_entry(
    alloc: Global,
    text: &mut RulesText,
    entry: &RuleEntry,
    edit: Option<&Edit>,
) -> Result<(), RulesTextFault>
    ensures text { OnOk result (text.new ≡ text.old
        ++ rules_text_of (in_place (option_copied edit.entry) entry.now)) }
    ensures bytes { OnOk result (All RuleOfBytes (in_place (option_copied edit.entry) entry.now)) }
    ensures too_long { result ≡ Err RulesTextFault.TooLong
        → text_limit
        < length (text.old ++ rules_text_of (in_place (option_copied edit.entry) entry.now)) }
{
    match edit {
        Some(edit) => put_edited(alloc, text, entry, edit),
        None => put_rule(alloc, text, &entry.rule, entry.mark),
    }
}

/// The text of the rules that are saved once the edit is done, or of those that are there.
pub fn file_text(
    alloc: Global,
    list: &RuleList,
    edit: Option<&Edit>,
) -> Result<Text, RulesTextFault>
    ensures text { IfOk result (λ text. text
        ≡ rules_text_of (rules_after (option_copied edit.entry) list.now.entries)) }
    ensures bytes { OnOk result
        (All RuleOfBytes (rules_after (option_copied edit.entry) list.now.entries)) }
    ensures fits { IfOk result (λ text. length text ≤ text_limit) }
    ensures too_long { result ≡ Err RulesTextFault.TooLong
        → text_limit
        < length (rules_text_of (rules_after (option_copied edit.entry) list.now.entries)) }
{
    let mut text = RulesText::new(alloc);
    put_in_front(alloc, &mut text, edit)?;
    for place in 0..list.len() {
        let Some(entry) = list.entry(place) else {
            unreachable!();
        };
        match put_entry(alloc, &mut text, entry, edit) {
            Ok(()) => {}
            Err(fault) => return Err(fault),
        }
    }
    put_at_end(alloc, &mut text, edit)?;
    Ok(text.into_text())
}

/// The text of a rule file with the permanent rules of a list.
#[tactic(auto, using(crate::proofs::Edited::unedited_rules))]
pub fn list_text(alloc: Global, list: &RuleList) -> Result<Text, RulesTextFault>
    ensures text { IfOk result (λ text. text ≡ permanent_text list.now.entries) }
    ensures bytes { OnOk result (All RuleOfBytes (permanent_rules list.now.entries)) }
    ensures fits { IfOk result (λ text. length text ≤ text_limit) }
    ensures too_long { result ≡ Err RulesTextFault.TooLong
        → text_limit < length (permanent_text list.now.entries) }
{
    file_text(alloc, list, None)
}
