// The rules of the folder: usbguard-daemon.conf(5), RuleFolder.
ghost use Rattle.std.specs.Prelude.{◌≡◌, ◌+◌, ◌≤◌, ◌⊎◌, ◌∷◌, [], None, Some, IfOk, IfSome, OnOk, nat_le};
ghost use Rattle.ug_types.specs.Limits.{text_limit};
ghost use Rattle.ug_conf.specs.FolderFiles.{folder_length};
ghost use Rattle.ug_policy.specs.Rules.{most_rules};
ghost use Rattle.ug_rule.specs.Grammar.{WellFormed};
ghost use Rattle.ug_core.specs.Starting.{AreOfFolder, HoldsJust, IsFolderListed, TakesFolder, fault_in_folder, marked_in, marked_of, one_listed};

use crate::rules::append;
use crate::start_fault::StartFault;
use std::alloc::Global;
use std::marker::Model;
use ug_conf::FolderFile;
use ug_lines::{LineReader, read_lines};
use ug_policy::{MAX_RULES, Mark, RuleList};
use ug_rule::parse_line;
use ug_ruleset::stay_readable;
use ug_types::{FileFault, NoMemory, Rule, TEXT_LIMIT};

/// The folder's rules so far, with ids from 1 on. There is no list where they are more than one takes.
#[derive(Drop)]
struct FolderListed {
    list: Option<RuleList>,
}

impl Model for FolderListed {
    ghost use Rattle.std.specs.Prelude.{IfSome, List, Option};
    ghost use Rattle.ug_core.specs.Starting.{AreOfFolder, HoldsJust, Marked, marked_in, marked_of};

    ghost Value = { Option (List Marked) };

    ghost view = { λ r. marked_of r.list };

    ghost invariant = { λ r. IfSome r.list
        (λ list. HoldsJust (marked_in list.entries) list × AreOfFolder list.entries) };
}

impl FolderListed {
    #[tactic(auto, using(crate::proofs::Listing::folder_none))]
    fn new(alloc: Global) -> FolderListed
        ensures { result ≡ Some [] }
    {
        FolderListed {
            list: Some(RuleList::new(alloc)),
        }
    }

    #[tactic(auto, using(crate::proofs::Listing::few_listed, crate::proofs::Listing::many_listed))]
    fn add(&mut self, rule: Rule) -> Result<(), NoMemory>
        requires { WellFormed rule }
        ensures { OnOk result
            (self.new ≡ one_listed (record { mark = Mark.Folder; rule = rule }) self.old) }
    {
        let Some(list) = &mut self.list else {
            rule.discard();
            return Ok(());
        };
        if list.len() < MAX_RULES {
            // A rule that is kept reads again from its canonical text.
            stay_readable(&rule);
            return append(list, rule, Mark::Folder);
        }
        rule.discard();
        if let Some(list) = self.list.take() {
            list.discard();
        }
        Ok(())
    }

    fn into_list(self) -> Option<RuleList>
        ensures value { marked_of result ≡ self }
        ensures holds { IfSome result (λ list. HoldsJust (marked_in list.entries) list) }
        ensures own { IfSome result (λ list. AreOfFolder list.entries) }
    {
        self.list
    }
}

impl LineReader for FolderListed {
    ghost use Rattle.std.specs.Prelude.{List, Option};
    ghost use Rattle.ug_policy.specs.declared.entry.Mark.TheVariants as mark;
    ghost use Rattle.ug_core.specs.Starting.{Marked, listing_line};

    ghost State = { Option (List Marked) };

    ghost state = { λ r. r };

    ghost reads = { listing_line mark.Folder };

    ghost keeps = { λ _ _. Unit {0} };

    fn read_line(&mut self, alloc: Global, number: u64, line: &[u8]) -> Result<(), FileFault> {
        match parse_line(alloc, number, line) {
            Ok(Some(rule)) => match self.add(rule) {
                Ok(()) => Ok(()),
                Err(_) => Err(FileFault::Memory),
            },
            Ok(None) => Ok(()),
            Err(fault) => Err(fault),
        }
    }
}

fn fault_in(file: u64, fault: FileFault) -> StartFault
    ensures { result ≡ fault_in_folder file fault }
{
    match fault {
        FileFault::Bad(fault) => StartFault::BadFolder { file, fault },
        FileFault::Memory => StartFault::Memory,
    }
}

/// Whether the files have no more bytes in all than are taken.
fn is_short(files: &[FolderFile]) -> bool
    ensures { result ≡ nat_le (folder_length files.now) text_limit }
{
    let mut left = TEXT_LIMIT;
    for file in 0..files.len() {
        let length = files[file].text.bytes().len();
        if length > left {
            return false;
        }
        left -= length;
    }
    true
}

fn list_files(alloc: Global, files: &[FolderFile]) -> Result<FolderListed, StartFault>
    ensures { IsFolderListed files.now result }
{
    let mut listed = FolderListed::new(alloc);
    for file in 0..files.len() {
        match read_lines(alloc, &mut listed, files[file].text.bytes()) {
            Ok(()) => {}
            Err(fault) => {
                if let Some(list) = listed.list {
                    list.discard();
                }
                return Err(fault_in(file as u64, fault));
            }
        }
    }
    Ok(listed)
}

/// The rules of the folder's files, one file behind another, with ids from 1 on, and without histories. There is no list where they are
/// more than one takes. What is wrong is told in this order: too many bytes in all, the first bad line of the first bad file.
pub fn list_folder(alloc: Global, files: &[FolderFile]) -> Result<Option<RuleList>, StartFault>
    ensures takes { TakesFolder files.now result }
    ensures holds { IfOk result (λ o. IfSome o (λ list. HoldsJust (marked_in list.entries) list)) }
    ensures own { IfOk result (λ o. IfSome o (λ list. AreOfFolder list.entries)) }
{
    if !is_short(files) {
        return Err(StartFault::FolderTooLong);
    }
    let listed = list_files(alloc, files)?;
    Ok(listed.into_list())
}
