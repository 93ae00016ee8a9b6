// The list of rules.
ghost use Rattle.std.specs.Prelude.{◌≡◌, ◌≤◌, ◌<◌, ◌↔◌, ℕ, ◌+◌, ◌-◌, ◌^◌, true, false, List, [], ◌∷◌, ◌++◌, None, IfOk, IfSome, IsNone, IsSome, OnOk, OnErr, All, length, map, take, drop, slice_get, option_copied};
ghost use Rattle.std.specs.List.{list_any};
ghost use Rattle.ug_types.specs.Elements.{Has, AllDistinct};
ghost use Rattle.ug_cond.specs.Judgements.{Judgement};
ghost use Rattle.ug_cond.specs.Words.{behind};
ghost use Rattle.ug_policy.specs.declared.entry.RuleEntry as stored;
ghost use Rattle.ug_policy.specs.Marks.{FolderFirst};
ghost use Rattle.ug_policy.specs.Rules.{ids, marks, most_rules};
ghost use Rattle.ug_policy.specs.Edits.{IsThere, KeepsMarkOrder, folder_behind, has_id, inserted, new_entry, removed, retargeted};
ghost use Rattle.ug_policy.specs.Matching.{answered, judged, rule_noted};
ghost use Rattle.ug_policy.specs.Deciding.{HasNoDecider, IsDecider, Judges, find_decider, judgement_found, seen, words_taken};
ghost use Rattle.ug_policy.specs.Kept.{StandsFor};

use crate::edits::{has_folder_behind, place_after, put_rule, remove_rule, set_rule_target};
use crate::entry::{Mark, NoRule, RuleEntry};
use crate::index::Index;
use crate::judging::judge_by;
use rand_core::Rng;
use std::alloc::Global;
use std::marker::Model;
use ug_cond::{Allowed, Context, History};
use ug_types::{After, Cause, DeviceRecord, NoMemory, Rule, Target};

/// How many rules a list has at most.
pub const MAX_RULES: usize = 65_536;

/// At most 65,536 rules in order, the index of their places, the id of the next one, and room for more.
#[derive(Drop)]
pub struct RuleList {
    entries: Vec<RuleEntry>,
    index: Index,
    next_id: u64,
}

impl Model for RuleList {
    ghost use Rattle.std.specs.Prelude.{◌-◌, min, vec_len, vec_capacity};
    ghost use Rattle.ug_policy.specs.Rules.{Rules, IsIndexed};

    ghost Value = { Rules };

    ghost view = { λ l. record {
      entries = l.entries.items;
      next = l.next_id;
      spare = min l.index.spare (vec_capacity l.entries - vec_len l.entries);
    } };

    ghost invariant = { λ l. IsIndexed l.entries.items l.next_id l.index };
}

impl RuleList {
    /// No rules. It takes no memory.
    pub fn new(alloc: Global) -> RuleList
        ensures entries { result.entries ≡ [] }
        ensures next { result.next ≡ 1 }
        ensures history { StandsFor result.entries result.next [] }
    {
        RuleList {
            entries: Vec::new(alloc),
            index: Index::new(alloc),
            next_id: 1,
        }
    }

    /// Drops it. A crate that calls this need not prove how its parts are dropped.
    pub fn discard(self) {}

    /// The number of rules.
    pub fn len(&self) -> usize
        ensures value { result ≡ length self.now.entries }
        ensures few { length self.now.entries ≤ most_rules }
    {
        let _numbered = &self.next_id;
        self.entries.len()
    }

    /// The id that the next rule gets. No rule of the list has it, and ids are never given twice. None of the rule file's rules stands
    /// before one of the folder's.
    pub fn next_id(&self) -> u64
        ensures value { result ≡ self.now.next }
        ensures fresh { (id : ℕ) → Has (ids self.now.entries) id → id < self.now.next }
        ensures distinct { AllDistinct (ids self.now.entries) }
        ensures order { FolderFirst (marks self.now.entries) }
    {
        self.next_id
    }

    /// The rule at that place, from 0.
    pub fn entry(&self, i: usize) -> Option<&RuleEntry>
        ensures value { option_copied result ≡ slice_get self.now.entries i }
        ensures none { IsNone result ↔ (length self.now.entries ≤ i) }
    {
        self.entries.get(i)
    }

    /// All rules in order.
    pub fn as_slice(&self) -> &[RuleEntry]
        ensures { result.now ≡ self.now.entries }
    {
        self.entries.as_slice()
    }

    /// Whether the folder has a rule behind the one of that id; None where no rule has it.
    pub fn has_folder_behind(&self, id: u64) -> Option<bool>
        ensures behind { IfSome result (λ behind. behind ≡ folder_behind id self.now.entries) }
        ensures there { IsSome result → list_any (has_id id) self.now.entries ≡ true }
        ensures none { result ≡ None → list_any (has_id id) self.now.entries ≡ false }
    {
        has_folder_behind(self.entries.as_slice(), id)
    }

    /// Makes room for one rule more. A refusal changes nothing.
    pub fn reserve(&mut self) -> Result<(), NoMemory>
        ensures entries { self.new.entries ≡ self.old.entries }
        ensures next { self.new.next ≡ self.old.next }
        ensures ok { OnOk result (0 < self.new.spare) }
        ensures more { self.old.spare ≤ self.new.spare }
        ensures err { OnErr result (self.new ≡ self.old) }
    {
        self.index.reserve()?;
        match self.entries.reserve(1) {
            Ok(()) => Ok(()),
            Err(_) => Err(NoMemory),
        }
    }

    /// Adds a rule and gives its id. There is room for it, so that it takes no memory. A permanent rule whose place is the front stands
    /// directly behind the folder's rules.
    pub fn insert(&mut self, after: After, rule: Rule, mark: Mark) -> u64
        requires there { IsThere after self.old.entries }
        requires order { KeepsMarkOrder after mark self.old.entries }
        requires few { length self.old.entries < most_rules }
        requires spare { 0 < self.old.spare }
        requires next { self.old.next < 2 ^ 64 - 1 }
        ensures id { result ≡ self.old.next }
        ensures entries { self.new.entries
            ≡ inserted after (new_entry self.old.next rule mark) self.old.entries }
        ensures next { self.new.next ≡ self.old.next + 1 }
        ensures spare { self.new.spare + 1 ≡ self.old.spare }
        ensures history { (judgements : List Judgement)
            → StandsFor self.old.entries self.old.next judgements
            → StandsFor self.new.entries self.new.next judgements }
    {
        let place = place_after(self.entries.as_slice(), after, mark);
        self.index.insert(place, &rule.query);
        let id = self.next_id;
        let history = History {
            evaluated: None,
            applied: None,
        };
        let entry = RuleEntry {
            id,
            rule,
            mark,
            history,
        };
        put_rule(&mut self.entries, place, entry);
        self.next_id += 1;
        id
    }

    /// Takes out the rule of that id.
    pub fn remove(&mut self, id: u64) -> Result<(), NoRule>
        ensures entries { self.new.entries ≡ removed id self.old.entries }
        ensures next { self.new.next ≡ self.old.next }
        ensures ok { OnOk result (Has (ids self.old.entries) id) }
        ensures spare { self.old.spare ≤ self.new.spare }
        ensures no_rule { OnErr result (¬ Has (ids self.old.entries) id) }
        ensures err { OnErr result (self.new ≡ self.old) }
        ensures history { (judgements : List Judgement)
            → StandsFor self.old.entries self.old.next judgements
            → StandsFor self.new.entries self.new.next judgements }
    {
        match remove_rule(&mut self.entries, id) {
            Ok(place) => {
                self.index.remove(place);
                Ok(())
            }
            Err(_) => Err(NoRule),
        }
    }

    /// Gives the rule of that id another target.
    pub fn set_target(&mut self, id: u64, target: Target) -> Result<(), NoRule>
        ensures entries { self.new.entries ≡ retargeted id target self.old.entries }
        ensures next { self.new.next ≡ self.old.next }
        ensures spare { self.new.spare ≡ self.old.spare }
        ensures ok { OnOk result (Has (ids self.old.entries) id) }
        ensures no_rule { OnErr result (¬ Has (ids self.old.entries) id) }
        ensures err { OnErr result (self.new ≡ self.old) }
        ensures history { (judgements : List Judgement)
            → StandsFor self.old.entries self.old.next judgements
            → StandsFor self.new.entries self.new.next judgements }
    {
        set_rule_target(&mut self.entries, id, target)
    }

    /// Judges a device by the first rule that matches it and whose conditions hold, or by the implicit target. Each rule
    /// that matches is evaluated, up to the one that decides: all its conditions are, in order, and its random ones take
    /// the next words. The histories of these rules get the moment where it is greater than the one that is kept. It
    /// takes no memory.
    pub fn judge<A: Allowed, R: Rng>(
        &mut self,
        dev: &DeviceRecord,
        ctx: &Context,
        allowed: &A,
        implicit: Target,
        rng: &mut R,
    ) -> (Target, Cause)
        ensures rule { (place : ℕ) (entry : stored.RuleEntry)
            → IsDecider dev.now ctx.now (A.records allowed.now) self.old.entries
            (R.stream rng.old) place entry
            → (result ≡ (entry.rule.target, Cause.Rule entry.id))
            × (self.new.entries ≡ map (seen dev.now ctx.now.moment) (take place self.old.entries)
            ++ rule_noted ctx.now.moment entry ∷ drop (place + 1) self.old.entries)
            × (R.stream rng.new
            ≡ behind (words_taken dev.now (take (place + 1) self.old.entries)) (R.stream rng.old)) }
        ensures implicit { HasNoDecider dev.now ctx.now (A.records allowed.now) self.old.entries
            (R.stream rng.old)
            → (result ≡ (implicit, Cause.Implicit))
            × (self.new.entries ≡ map (seen dev.now ctx.now.moment) self.old.entries)
            × (R.stream rng.new
            ≡ behind (words_taken dev.now self.old.entries) (R.stream rng.old)) }
        ensures judged { Judges dev.now ctx.now (A.records allowed.now) implicit
            self.old.entries (R.stream rng.old) result self.new.entries (R.stream rng.new) }
        ensures next { self.new.next ≡ self.old.next }
        ensures spare { self.new.spare ≡ self.old.spare }
        ensures history { (judgements : List Judgement)
            → StandsFor self.old.entries self.old.next judgements
            → StandsFor self.new.entries self.new.next (judgements
            ++ judgement_found dev.now ctx.now.moment
            (find_decider dev.now ctx.now (A.records allowed.now) self.old.entries
            (R.stream rng.old)) ∷ []) }
        ensures plain { All (λ e. e.rule.conds ≡ None) self.old.entries
            → (result ≡ answered dev.now implicit self.old.entries)
            × (self.new.entries ≡ judged dev.now ctx.now.moment self.old.entries)
            × (R.stream rng.new ≡ R.stream rng.old) }
    {
        let places = self.index.candidates(dev.vendor, dev.product);
        judge_by(&mut self.entries, places, dev, ctx, allowed, implicit, rng)
    }
}
