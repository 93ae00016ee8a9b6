// The rules of a disk's rule file.
ghost use Rattle.std.specs.Prelude.{◌≡◌, List, false, All, IfOk, IfSome};
ghost use Rattle.ug_ruleset.specs.RuleFile.{IsSaveable, ReadsBack};
ghost use Rattle.ug_policy.specs.Rules.{rules_in};
ghost use Rattle.ug_types.specs.declared.rule.Rule as types;
ghost use Rattle.ug_core.specs.Starting.{AreOfFolder, HoldsJust, AreAllListed, Loads, marked_rules, marked_in, marked_of};

use crate::rules::rules_of_text;
use crate::start_fault::StartFault;
use std::alloc::Global;
use ug_policy::{Mark, RuleList};
use ug_store::{RuleDisk, Store};

/// The rules that a daemon starts with, which are those of the folder and then those of the disk's rule file, and the store that keeps
/// the latter. A rule file that is absent has no rules. One that is too long is told before its first bad line.
pub fn load_rules<D: RuleDisk>(
    alloc: Global,
    folder: Option<RuleList>,
    disk: &mut D,
) -> Result<(Store, RuleList), StartFault>
    requires holds { IfSome folder (λ list. HoldsJust (marked_in list.entries) list) }
    requires own { IfSome folder (λ list. AreOfFolder list.entries) }
    ensures loads { (rules : List types.Rule)
        → AreAllListed (marked_of folder) (marked_rules Mark.Folder rules)
        → Loads D.keeps D.told D.faults rules disk.old result disk.new }
    ensures readable { IfOk result (λ r. All ReadsBack (rules_in r.1.entries)) }
    ensures saves { IfOk result (λ r. IsSaveable r.1.entries) }
    ensures unsaved { IfOk result (λ r. r.0 ≡ false) }
{
    match Store::recover(alloc, disk) {
        Ok((store, text)) => {
            let rules = rules_of_text(alloc, folder, text)?;
            Ok((store, rules))
        }
        Err(fault) => {
            if let Some(folder) = folder {
                folder.discard();
            }
            Err(fault.into())
        }
    }
}
