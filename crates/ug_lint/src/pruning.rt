// A list of rules without those that earlier ones cover.
ghost use Rattle.std.specs.Prelude.{◌≡◌, ◌<◌, ◌≤◌, ◌++◌, ◌∷◌, [], List, All, IfOk, OnOk, length, vec_len};
ghost use Rattle.rand_core.specs.Stream.{Stream};
ghost use Rattle.ug_types.specs.declared.record.DeviceRecord.{DeviceRecord};
ghost use Rattle.ug_cond.specs.declared.context.Context as when;
ghost use Rattle.ug_policy.specs.declared.entry.RuleEntry.{RuleEntry};
ghost use Rattle.ug_rule.specs.Grammar.{WellFormed};
ghost use Rattle.ug_policy.specs.Rules.{rules_in};
ghost use Rattle.ug_lint.specs.NeverDecides.{HasWords, PrunedAlike};
ghost use Rattle.ug_lint.specs.Remaining as left;

use crate::finding::{Finding, finding_of};
use std::alloc::Global;
use ug_types::{NoMemory, Rule};

fn is_covered(before: &[Rule], rule: &Rule) -> bool
    requires { length before.now < 4096 }
    ensures { result ≡ left.is_covered before.now rule.now }
{
    match finding_of(before, rule) {
        Some(Finding::Covered { .. }) => true,
        Some(Finding::Never { .. }) => false,
        None => false,
    }
}

fn push<T: Drop>(items: &mut Vec<T>, item: T) -> Result<(), NoMemory>
    ensures { OnOk result (items.new.items ≡ items.old.items ++ item ∷ []) }
{
    match items.push(item) {
        Ok(()) => Ok(()),
        Err(_) => Err(NoMemory),
    }
}

// Adds a rule, unless one of those before it covers it.
fn keep(kept: &mut Vec<Rule>, before: &[Rule], rule: Rule) -> Result<(), NoMemory>
    requires { length before.now < 4096 }
    ensures { OnOk result (kept.new.items
        ≡ kept.old.items ++ left.kept_unless (left.is_covered before.now rule) rule) }
{
    if is_covered(before, &rule) {
        drop(rule);
        return Ok(());
    }
    push(kept, rule)
}

/// The rules without those that an earlier rule covers, in their order. A rule whose conditions never hold is kept. There are
/// at most 4,096 rules, each of which some line reads as.
pub fn prune(alloc: Global, mut rules: Vec<Rule>) -> Result<Vec<Rule>, NoMemory>
    requires few { vec_len rules ≤ 4096 }
    requires well_formed { All WellFormed rules.items }
    ensures remaining { IfOk result (λ kept. kept.items ≡ left.remaining rules.items) }
    ensures judges { IfOk result (λ kept. (dev : DeviceRecord) (ctx : when.Context)
        (records : List DeviceRecord) (entries : List RuleEntry) (stream : Stream)
        → rules_in entries ≡ rules.items → HasWords stream
        → (rules_in (left.remaining_entries entries) ≡ kept.items)
        × PrunedAlike dev ctx records entries stream) }
{
    let mut kept = Vec::new(alloc);
    while let Some(rule) = rules.pop() {
        match keep(&mut kept, rules.as_slice(), rule) {
            Ok(()) => {}
            Err(_) => {
                drop(kept);
                drop(rules);
                return Err(NoMemory);
            }
        }
    }
    drop(rules);
    kept.reverse();
    Ok(kept)
}
