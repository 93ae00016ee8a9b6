// The rules in order, each of which reads again from the text that is saved of it.
ghost use Rattle.std.specs.Prelude.{◌≡◌, ◌<◌, ◌+◌, ◌-◌, ◌^◌, All, Err, IfOk, IfSome, IsTrue, None, Ok, OnOk, Some, if◌then◌else◌};
ghost use Rattle.ug_lines.specs.Splitting.{AreLines};
ghost use Rattle.ug_policy.specs.Deciding.{Judges};
ghost use Rattle.ug_policy.specs.Edits.{inserted, new_entry, removed, retargeted};
ghost use Rattle.ug_print.specs.Generated.{generated_of};
ghost use Rattle.ug_rule.specs.Files.{file_read};
ghost use Rattle.ug_types.specs.declared.verdict.Target.{Target};
ghost use Rattle.ug_ruleset.specs.RuleEdits.{CanEdit, EditReads, HasRoomFor, IsButForTarget, changes_file, edited_by, if_room_for, next_after};
ghost use Rattle.ug_ruleset.specs.RuleFile.{FitsFile, IsSaveable, ReadsBack, permanent_rules, permanent_text};
ghost use Rattle.ug_policy.specs.Rules.{IsNumbered, rules_in};
ghost use Rattle.ug_ruleset.specs.RulePlaces.{has_folder_rule, has_permanent, has_rule, if_behind, if_few, place_refusal, if_removed, if_taken, made_rule};
ghost use Rattle.ug_ruleset.specs.RuleRows.{rule_rows};

use crate::asked::{asked_at, first_asking};
use crate::edit::Edit;
use crate::file_text::file_text;
use crate::rule_list::list_rules;
use rand_core::Rng;
use std::alloc::Global;
use std::marker::Model;
use ug_cond::{Allowed, Context};
use ug_policy::{MAX_RULES, Mark, RuleEntry, RuleList};
use ug_print::{RulesTextFault, is_made_of};
use ug_types::{After, Cause, DeviceRecord, List, NoMemory, Query, Refusal, Rule, Target, Text};

/// Rules, each of which reads again from its canonical text. A rule file has room for the permanent ones.
#[derive(Drop)]
pub struct KeptRules {
    list: RuleList,
    // The first rule that asks for allowed devices, looked up at the start and at each edit, so that
    // an event doesn't walk over the rules. It is a hint: no verdict depends on it.
    asking: Option<usize>,
}

impl Model for KeptRules {
    ghost use Rattle.std.specs.Prelude.{All};
    ghost use Rattle.ug_policy.specs.Rules.{Rules, rules_in};
    ghost use Rattle.ug_ruleset.specs.RuleFile.{IsSaveable, ReadsBack};

    ghost Value = { Rules };

    ghost view = { λ r. r.list };

    ghost invariant = { λ r. All ReadsBack (rules_in r.list.entries) × IsSaveable r.list.entries };
}

fn find_made(rules: &[RuleEntry], device: &DeviceRecord, with_port: bool) -> Option<u64>
    ensures { result ≡ made_rule device.now with_port rules.now }
{
    for entry in rules {
        if entry.mark.is_permanent() && is_made_of(&entry.rule, device, with_port) {
            return Some(entry.id);
        }
    }
    None
}

impl KeptRules {
    /// Drops them, as `RuleList::discard`.
    pub fn discard(self) {
        self.list.discard();
    }

    pub fn new(list: RuleList) -> KeptRules
        requires readable { All ReadsBack (rules_in list.entries) }
        requires saves { IsSaveable list.entries }
        ensures { result ≡ list }
    {
        let asking = first_asking(list.as_slice());
        KeptRules { list, asking }
    }

    /// The rows of a list of the rules. None has a newline.
    pub fn rows(&self, alloc: Global) -> Result<List<Text>, NoMemory>
        ensures rows { IfOk result (λ rows. rows ≡ rule_rows self.now.entries) }
        ensures one_line { IfOk result (λ rows. AreLines rows) }
    {
        list_rules(alloc, &self.list)
    }

    /// The first query of an `allowed-matches` condition. It is a hint: no verdict depends on it.
    pub fn asked(&self) -> Option<&Query> {
        match self.asking {
            Some(place) => asked_at(self.list.as_slice(), place),
            None => None,
        }
    }

    /// The id that the next rule gets.
    pub fn next_id(&self) -> u64
        ensures { result ≡ self.now.next }
    {
        self.list.next_id()
    }

    /// Whether a rule has the id.
    pub fn has_rule(&self, id: u64) -> bool
        ensures { result ≡ has_rule id self.now.entries }
    {
        let rules = self.list.as_slice();
        for entry in rules {
            if entry.id == id {
                return true;
            }
        }
        false
    }

    // Whether a permanent rule has the id.
    fn has_permanent(&self, id: u64) -> bool
        ensures { result ≡ has_permanent id self.now.entries }
    {
        let rules = self.list.as_slice();
        for entry in rules {
            if entry.id == id && entry.mark.is_permanent() {
                return true;
            }
        }
        false
    }

    // Whether the rule of that id is one of the folder.
    fn has_folder_rule(&self, id: u64) -> bool
        ensures { result ≡ has_folder_rule id self.now.entries }
    {
        let rules = self.list.as_slice();
        for entry in rules {
            if entry.id == id && entry.mark.is_folder() {
                return true;
            }
        }
        false
    }

    // Why no rule with that mark is put behind that of the id.
    fn refuse_behind(&self, id: u64, mark: Mark) -> Option<Refusal>
        ensures { result ≡ if_behind id mark self.now.entries }
    {
        match self.list.has_folder_behind(id) {
            None => Some(Refusal::NoRule { id }),
            Some(barred) => {
                if mark.is_permanent() && barred {
                    Some(Refusal::FolderRule { id })
                } else {
                    None
                }
            }
        }
    }

    /// Why the rule of that id isn't taken out.
    pub fn refuse_removal(&self, id: u64) -> Option<Refusal>
        ensures { result ≡ if_removed id self.now.entries }
    {
        if !self.has_rule(id) {
            return Some(Refusal::NoRule { id });
        }
        if self.has_folder_rule(id) {
            return Some(Refusal::FolderRule { id });
        }
        None
    }

    fn refuse_place(&self, after: After, mark: Mark) -> Option<Refusal>
        ensures { result ≡ place_refusal after mark self.now.entries }
    {
        match after {
            After::End => None,
            After::Front => None,
            After::Rule(id) => self.refuse_behind(id, mark),
        }
    }

    /// Why the list has no room for one rule more.
    fn refuse_more(&self) -> Option<Refusal>
        ensures { result ≡ if_few self.now.entries }
    {
        if self.list.len() < MAX_RULES {
            None
        } else {
            Some(Refusal::RulesFull)
        }
    }

    /// Why no rule with that mark is put behind that place.
    pub fn refuse_rule(&self, after: After, mark: Mark) -> Option<Refusal>
        ensures { result ≡ if_taken after mark self.now.entries }
    {
        match self.refuse_place(after, mark) {
            Some(refusal) => Some(refusal),
            None => self.refuse_more(),
        }
    }

    /// Why the list has no room for the edit.
    pub fn refuse_edit(&self, edit: &Edit) -> Option<Refusal>
        ensures { result ≡ if_room_for edit.now self.now.entries }
    {
        match edit {
            Edit::Insert { .. } => self.refuse_more(),
            Edit::Remove { .. } => None,
            Edit::Retarget { .. } => None,
        }
    }

    /// The id of the first permanent rule that is the device's generated rule but for its target. It takes no memory.
    #[tactic(auto, using(crate::proofs::MadeRules::alone_if))]
    pub fn made_rule(&self, device: &DeviceRecord, with_port: bool) -> Option<u64>
        ensures made { result ≡ made_rule device.now with_port self.now.entries }
        ensures alone { IfSome result (λ id. (target : Target)
            → IsButForTarget id (generated_of device.now target with_port) self.now.entries) }
    {
        // No two rules have one id.
        let _next = self.list.next_id();
        find_made(self.list.as_slice(), device, with_port)
    }

    /// Makes room for one rule more. A refusal changes nothing.
    pub fn reserve(&mut self) -> Result<(), NoMemory>
        ensures entries { self.new.entries ≡ self.old.entries }
        ensures next { self.new.next ≡ self.old.next }
        ensures ok { OnOk result (0 < self.new.spare) }
    {
        self.list.reserve()
    }

    /// Whether the edit changes permanent rules.
    fn changes_file(&self, edit: &Edit) -> bool
        ensures { result ≡ changes_file edit.now self.now.entries }
    {
        match edit {
            Edit::Insert { mark, .. } => mark.is_permanent(),
            Edit::Remove { id } => self.has_permanent(*id),
            Edit::Retarget { .. } => true,
        }
    }

    fn insert(&mut self, after: After, rule: Rule, mark: Mark)
        requires can { CanEdit (Edit.Insert after rule mark) self.old.entries }
        requires reads { ReadsBack rule }
        requires saves { IsSaveable
            (inserted after (new_entry self.old.next rule mark) self.old.entries) }
        requires spare { 0 < self.old.spare }
        requires id { self.old.next < 2 ^ 64 - 1 }
        ensures entries { self.new.entries
            ≡ inserted after (new_entry self.old.next rule mark) self.old.entries }
        ensures next { self.new.next ≡ self.old.next + 1 }
    {
        let _id = self.list.insert(after, rule, mark);
    }

    fn remove(&mut self, id: u64)
        requires { IsSaveable (removed id self.old.entries) }
        ensures entries { self.new.entries ≡ removed id self.old.entries }
        ensures next { self.new.next ≡ self.old.next }
    {
        let _was_there = self.list.remove(id);
    }

    // Which differs from that rule in its target at most.
    fn retarget(&mut self, id: u64, rule: &Rule)
        requires reads { EditReads (Edit.Retarget id rule.now) self.old.entries }
        requires saves { IsSaveable (retargeted id rule.now.target self.old.entries) }
        ensures entries { self.new.entries ≡ retargeted id rule.now.target self.old.entries }
        ensures next { self.new.next ≡ self.old.next }
    {
        let _was_there = self.list.set_target(id, rule.target);
    }

    /// Does the edit. A rule that is put there needs room, which `reserve` makes.
    pub fn edit(&mut self, edit: Edit)
        requires can { CanEdit edit self.old.entries }
        requires reads { EditReads edit self.old.entries }
        requires saves { IsSaveable (edited_by edit self.old.next self.old.entries) }
        requires room { HasRoomFor edit self.old.spare }
        requires id { self.old.next < 2 ^ 64 - 1 }
        ensures entries { self.new.entries ≡ edited_by edit self.old.next self.old.entries }
        ensures next { self.new.next ≡ next_after edit self.old.next }
    {
        match edit {
            Edit::Insert { after, rule, mark } => self.insert(after, rule, mark),
            Edit::Remove { id } => self.remove(id),
            Edit::Retarget { id, rule } => {
                self.retarget(id, &rule);
                rule.discard();
            }
        }
        self.asking = first_asking(self.list.as_slice());
    }

    /// The text of a rule file with the permanent rules, which reads as them again.
    pub fn text(&self, alloc: Global) -> Result<Text, NoMemory>
        ensures text { IfOk result (λ text. text ≡ permanent_text self.now.entries) }
        ensures reads { IfOk result (λ text. file_read text
            ≡ Ok (permanent_rules self.now.entries)) }
    {
        match file_text(alloc, &self.list, None) {
            Ok(text) => Ok(text),
            Err(_) => Err(NoMemory),
        }
    }

    /// The same once the edit is done. Where it can be done, its rules can be saved.
    pub fn text_after(&self, alloc: Global, edit: &Edit) -> Result<Text, RulesTextFault>
        requires { EditReads edit.now self.now.entries }
        ensures text { IfOk result (λ text. text
            ≡ permanent_text (edited_by edit.now self.now.next self.now.entries)) }
        ensures reads { IfOk result (λ text. file_read text
            ≡ Ok (permanent_rules (edited_by edit.now self.now.next self.now.entries))) }
        ensures fits { OnOk result (FitsFile (edited_by edit.now self.now.next self.now.entries)) }
        ensures saves { CanEdit edit.now self.now.entries
            → OnOk result (IsSaveable (edited_by edit.now self.now.next self.now.entries)) }
        ensures too_long { result ≡ Err RulesTextFault.TooLong
            → FitsFile (edited_by edit.now self.now.next self.now.entries) → ⊥ }
    {
        // No two rules have one id, and there are no more than a list takes.
        let _next = self.list.next_id();
        let _count = self.list.len();
        file_text(alloc, &self.list, Some(edit))
    }

    /// The permanent rules read again from the text that is saved of them, for which a rule file has room. The folder's stand before them, and no
    /// two rules have one id.
    pub fn stay_saveable(&self)
        ensures saves { IsSaveable self.now.entries }
        ensures numbered { IsNumbered self.now.entries self.now.next }
    {
        let _next = self.list.next_id();
        let _count = self.list.len();
    }

    /// The same, where the edit changes permanent rules.
    pub fn text_if_saved(&self, alloc: Global, edit: &Edit) -> Result<Option<Text>, RulesTextFault>
        requires { EditReads edit.now self.now.entries }
        ensures text { IfOk result (λ text. text ≡ (if changes_file edit.now self.now.entries
            then Some (permanent_text (edited_by edit.now self.now.next self.now.entries)) else
            None)) }
        ensures fits { OnOk result (FitsFile (edited_by edit.now self.now.next self.now.entries)) }
        ensures saves { CanEdit edit.now self.now.entries
            → OnOk result (IsSaveable (edited_by edit.now self.now.next self.now.entries)) }
        ensures too_long { result ≡ Err RulesTextFault.TooLong
            → IsTrue (changes_file edit.now self.now.entries)
            × (FitsFile (edited_by edit.now self.now.next self.now.entries) → ⊥) }
    {
        if !self.changes_file(edit) {
            self.stay_saveable();
            return Ok(None);
        }
        Ok(Some(self.text_after(alloc, edit)?))
    }

    /// As `RuleList::judge` does.
    pub fn judge<A: Allowed, R: Rng>(
        &mut self,
        dev: &DeviceRecord,
        ctx: &Context,
        allowed: &A,
        implicit: Target,
        rng: &mut R,
    ) -> (Target, Cause)
        ensures judged { Judges dev.now ctx.now (A.records allowed.now) implicit self.old.entries
            (R.stream rng.old) result self.new.entries (R.stream rng.new) }
        ensures next { self.new.next ≡ self.old.next }
    {
        self.list.judge(dev, ctx, allowed, implicit, rng)
    }
}
