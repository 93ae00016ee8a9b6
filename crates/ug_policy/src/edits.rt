// Changes of a list of rules.
ghost use Rattle.std.specs.Prelude.{◌≡◌, ◌≤◌, ◌<◌, ◌+◌, true, false, None, IsSome, IfSome, IfOk, OnOk, OnErr, insert, remove, length, position, vec_len, vec_capacity};
ghost use Rattle.std.specs.List.{list_any};
ghost use Rattle.ug_types.specs.Elements.{Has, AllDistinct};
ghost use Rattle.ug_policy.specs.declared.entry.RuleEntry.{RuleEntry as Entry};
ghost use Rattle.ug_policy.specs.Marks.{folder_end, is_folder};
ghost use Rattle.ug_policy.specs.Rules.{ids, marks};
ghost use Rattle.ug_policy.specs.Edits.{IsThere, at_front, folder_behind, has_id, inserted, removed, retargeted};

use crate::entry::{Mark, NoRule, RuleEntry};
use ug_types::{After, Target};

// The place of the rule with that id.
fn place_of(entries: &[RuleEntry], id: u64) -> Option<usize>
    ensures { result ≡ position (has_id id) entries.now }
{
    for place in 0..entries.len() {
        if entries[place].id == id {
            return Some(place);
        }
    }
    None
}

// The place directly behind the last rule of the folder; 0 where there is none.
fn folder_end(entries: &[RuleEntry]) -> usize
    ensures value { result ≡ folder_end (marks entries.now) }
    ensures within { result ≤ length entries.now }
{
    let mut end = 0;
    for place in 0..entries.len() {
        if entries[place].mark.is_folder() {
            end = place + 1;
        }
    }
    end
}

// The front of the permanent rules is behind those of the folder.
fn front(entries: &[RuleEntry], mark: Mark) -> usize
    ensures within { result ≤ length entries.now }
    ensures place { (added : Entry) → added.mark ≡ mark
        → at_front added entries.now ≡ insert entries.now result added }
{
    if mark.is_permanent() {
        folder_end(entries)
    } else {
        0
    }
}

// The place behind the rule with that id.
fn place_behind(entries: &[RuleEntry], id: u64) -> usize
    requires distinct { AllDistinct (ids entries.now) }
    requires there { Has (ids entries.now) id }
    ensures within { result ≤ length entries.now }
    ensures place { (added : Entry)
        → inserted (After.Rule id) added entries.now ≡ insert entries.now result added }
{
    match place_of(entries, id) {
        Some(place) => place + 1,
        None => unreachable!(),
    }
}

fn has_folder(entries: &[RuleEntry]) -> bool
    ensures { result ≡ list_any (λ e. is_folder e.mark) entries.now }
{
    for entry in entries {
        if entry.mark.is_folder() {
            return true;
        }
    }
    false
}

/// Whether the folder has a rule behind the one with that id; None where no rule has it.
pub fn has_folder_behind(entries: &[RuleEntry], id: u64) -> Option<bool>
    ensures behind { IfSome result (λ behind. behind ≡ folder_behind id entries.now) }
    ensures there { IsSome result → list_any (has_id id) entries.now ≡ true }
    ensures none { result ≡ None → list_any (has_id id) entries.now ≡ false }
{
    match place_of(entries, id) {
        Some(place) => Some(has_folder(&entries[place + 1..])),
        None => None,
    }
}

/// The place at which a rule with that mark is put.
pub fn place_after(entries: &[RuleEntry], after: After, mark: Mark) -> usize
    requires distinct { AllDistinct (ids entries.now) }
    requires there { IsThere after entries.now }
    ensures within { result ≤ length entries.now }
    ensures place { (added : Entry) → added.mark ≡ mark
        → inserted after added entries.now ≡ insert entries.now result added }
{
    match after {
        After::End => entries.len(),
        After::Front => front(entries, mark),
        After::Rule(id) => place_behind(entries, id),
    }
}

/// Puts a rule at a place, for which there is room.
pub fn put_rule(entries: &mut Vec<RuleEntry>, place: usize, entry: RuleEntry)
    requires place { place ≤ vec_len entries.old }
    requires room { vec_len entries.old < vec_capacity entries.old }
    ensures entries { entries.new.items ≡ insert entries.old.items place entry }
    ensures len { vec_len entries.new ≡ vec_len entries.old + 1 }
    ensures capacity { vec_capacity entries.new ≡ vec_capacity entries.old }
{
    drop(entries.insert(place, entry));
}

/// Takes out the rule with that id, and tells its place.
pub fn remove_rule(entries: &mut Vec<RuleEntry>, id: u64) -> Result<usize, NoRule>
    requires { AllDistinct (ids entries.old.items) }
    ensures within { IfOk result (λ place. place < length entries.old.items) }
    ensures place { IfOk result (λ place. entries.new.items ≡ remove entries.old.items place) }
    ensures entries { entries.new.items ≡ removed id entries.old.items }
    ensures ok { OnOk result (Has (ids entries.old.items) id) }
    ensures len { OnOk result (vec_len entries.new + 1 ≡ vec_len entries.old) }
    ensures err { OnErr result (¬ Has (ids entries.old.items) id) }
    ensures same { OnErr result (entries.new ≡ entries.old) }
    ensures capacity { vec_capacity entries.new ≡ vec_capacity entries.old }
{
    match place_of(entries, id) {
        Some(place) => {
            drop(entries.remove(place));
            Ok(place)
        }
        None => Err(NoRule),
    }
}

/// Gives the rule with that id another target.
pub fn set_rule_target(entries: &mut [RuleEntry], id: u64, target: Target) -> Result<(), NoRule>
    requires { AllDistinct (ids entries.old) }
    ensures entries { entries.new ≡ retargeted id target entries.old }
    ensures len { length entries.new ≡ length entries.old }
    ensures ok { OnOk result (Has (ids entries.old) id) }
    ensures err { OnErr result (¬ Has (ids entries.old) id) }
    ensures same { OnErr result (entries.new ≡ entries.old) }
{
    match place_of(entries, id) {
        Some(place) => {
            entries[place].rule.target = target;
            Ok(())
        }
        None => Err(NoRule),
    }
}
