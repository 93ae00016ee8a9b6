// The rules of a rule file's text.
ghost use Rattle.std.specs.Prelude.{◌≡◌, ◌<◌, ◌≤◌, ◌+◌, ◌-◌, ◌^◌, ◌++◌, ◌∷◌, [], List, All, IfOk, IfSome, None, OnErr, OnOk, Some, length};
ghost use Rattle.ug_policy.specs.Edits.{KeepsMarkOrder, new_entry};
ghost use Rattle.ug_policy.specs.Kept.{StandsFor};
ghost use Rattle.ug_ruleset.specs.RuleFile.{IsSaveable, ReadsBack};
ghost use Rattle.ug_policy.specs.Rules.{most_rules, rules_in};
ghost use Rattle.ug_types.specs.declared.rule.Rule as types;
ghost use Rattle.ug_core.specs.Starting.{AreOfFolder, HoldsJust, IsListOf, AreAllListed, StartsWith, marked_rules, marked_in, marked_of, one_listed};

use crate::start_fault::StartFault;
use std::alloc::Global;
use std::marker::Model;
use ug_lines::{LineReader, read_lines};
use ug_policy::{MAX_RULES, Mark, RuleList};
use ug_rule::parse_line;
use ug_ruleset::list_text;
use ug_types::{After, FileFault, NoMemory, Rule};

/// Puts a rule behind the others. A refusal changes nothing.
pub fn append(list: &mut RuleList, rule: Rule, mark: Mark) -> Result<(), NoMemory>
    requires few { length list.old.entries < most_rules }
    requires order { KeepsMarkOrder After.End mark list.old.entries }
    requires left { list.old.next < 2 ^ 64 - 1 }
    ensures rules { OnOk result (list.new.entries
        ≡ list.old.entries ++ new_entry list.old.next rule mark ∷ []) }
    ensures next { OnOk result (list.new.next ≡ list.old.next + 1) }
    ensures history { StandsFor list.old.entries list.old.next []
        → StandsFor list.new.entries list.new.next [] }
    ensures err { OnErr result (list.new ≡ list.old) }
{
    match list.reserve() {
        Ok(()) => {
            let _id = list.insert(After::End, rule, mark);
            Ok(())
        }
        Err(error) => {
            rule.discard();
            Err(error)
        }
    }
}

/// The folder's rules, and those of the rule file so far, with ids from 1 on. There is no list where they are more than one takes.
#[derive(Drop)]
struct RulesListed {
    list: Option<RuleList>,
}

impl Model for RulesListed {
    ghost use Rattle.std.specs.Prelude.{IfSome, List, Option};
    ghost use Rattle.ug_core.specs.Starting.{HoldsJust, Marked, marked_in, marked_of};

    ghost Value = { Option (List Marked) };

    ghost view = { λ r. marked_of r.list };

    ghost invariant = { λ r. IfSome r.list (λ list. HoldsJust (marked_in list.entries) list) };
}

impl RulesListed {
    fn behind(folder: Option<RuleList>) -> RulesListed
        requires { IfSome folder (λ list. HoldsJust (marked_in list.entries) list) }
        ensures { result ≡ marked_of folder }
    {
        RulesListed { list: folder }
    }

    #[tactic(auto, using(crate::proofs::Listing::few_listed, crate::proofs::Listing::many_listed))]
    fn add(&mut self, rule: Rule) -> Result<(), NoMemory>
        ensures { OnOk result
            (self.new ≡ one_listed (record { mark = Mark.File; rule = rule }) self.old) }
    {
        let Some(list) = &mut self.list else {
            rule.discard();
            return Ok(());
        };
        if list.len() < MAX_RULES {
            return append(list, rule, Mark::File);
        }
        rule.discard();
        if let Some(list) = self.list.take() {
            list.discard();
        }
        Ok(())
    }

    fn into_list(self) -> Option<RuleList>
        ensures list { IfSome result (λ list. self ≡ Some (marked_in list.entries)) }
        ensures holds { IfSome result (λ list. HoldsJust (marked_in list.entries) list) }
        ensures none { result ≡ None → self ≡ None }
    {
        self.list
    }
}

impl LineReader for RulesListed {
    ghost use Rattle.std.specs.Prelude.{List, Option};
    ghost use Rattle.ug_policy.specs.declared.entry.Mark.TheVariants as mark;
    ghost use Rattle.ug_core.specs.Starting.{Marked, listing_line};

    ghost State = { Option (List Marked) };

    ghost state = { λ r. r };

    ghost reads = { listing_line mark.File };

    ghost keeps = { λ _ _. Unit {0} };

    fn read_line(&mut self, alloc: Global, number: u64, line: &[u8]) -> Result<(), FileFault> {
        match parse_line(alloc, number, line) {
            Ok(Some(rule)) => match self.add(rule) {
                Ok(()) => Ok(()),
                Err(_) => Err(FileFault::Memory),
            },
            Ok(None) => Ok(()),
            Err(fault) => Err(fault),
        }
    }
}

/// The list of a text's rules, behind those of the folder. The text is let go.
#[tactic(auto, using(crate::proofs::Listing::good_list, crate::proofs::Listing::many_rules, crate::proofs::Listing::bad_text))]
fn list_rules(
    alloc: Global,
    folder: Option<RuleList>,
    text: Vec<u8>,
) -> Result<RuleList, StartFault>
    requires { IfSome folder (λ list. HoldsJust (marked_in list.entries) list) }
    ensures { (rules : List types.Rule)
        → AreAllListed (marked_of folder) (marked_rules Mark.Folder rules)
        → IsListOf rules text.items result }
{
    let mut listed = RulesListed::behind(folder);
    let read = read_lines(alloc, &mut listed, text.as_slice());
    drop(text);
    match read {
        Ok(()) => listed.into_list().ok_or(StartFault::TooMany),
        Err(fault) => {
            if let Some(list) = listed.list {
                list.discard();
            }
            Err(fault.into())
        }
    }
}

/// The rules of a rule file's text behind those of the folder, with ids from 1 on over all: permanent, and without histories. What is
/// wrong is told in this order: the first bad line, too many rules, a canonical text of the rule file's rules that is too long.
#[tactic(auto, using(crate::proofs::Listing::no_text))]
pub fn rules_of_text(
    alloc: Global,
    folder: Option<RuleList>,
    text: Vec<u8>,
) -> Result<RuleList, StartFault>
    requires holds { IfSome folder (λ list. HoldsJust (marked_in list.entries) list) }
    requires own { IfSome folder (λ list. AreOfFolder list.entries) }
    ensures starts { (rules : List types.Rule)
        → AreAllListed (marked_of folder) (marked_rules Mark.Folder rules)
        → StartsWith rules text.items result }
    ensures readable { IfOk result (λ list. All ReadsBack (rules_in list.entries)) }
    ensures saves { IfOk result (λ list. IsSaveable list.entries) }
{
    let list = list_rules(alloc, folder, text)?;
    // Only its length matters.
    match list_text(alloc, &list) {
        Ok(canonical) => {
            drop(canonical);
            Ok(list)
        }
        Err(fault) => {
            list.discard();
            Err(fault.into())
        }
    }
}
