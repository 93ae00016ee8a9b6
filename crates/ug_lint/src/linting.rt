// What is found of a list of rules.
ghost use Rattle.std.specs.Prelude.{◌≡◌, ◌≤◌, ◌++◌, All, IfOk, OnOk, length};
ghost use Rattle.std.specs.Option.{option_to_list};
ghost use Rattle.ug_types.specs.Elements.{Has};
ghost use Rattle.ug_rule.specs.Grammar.{WellFormed};
ghost use Rattle.ug_lint.specs.declared.finding.Finding as tells;
ghost use Rattle.ug_lint.specs.Findings.{findings, found_place};
ghost use Rattle.ug_lint.specs.NeverDecides.{NeverDecides};

use crate::finding::{Finding, finding_of};
use std::alloc::Global;
use ug_types::{NoMemory, Rule};

// Adds a finding, where there is one.
fn note(found: &mut Vec<Finding>, finding: Option<Finding>) -> Result<(), NoMemory>
    ensures { OnOk result (found.new.items ≡ found.old.items ++ option_to_list finding) }
{
    match finding {
        Some(finding) => match found.push(finding) {
            Ok(()) => Ok(()),
            Err(_) => Err(NoMemory),
        },
        None => Ok(()),
    }
}

/// The rules that can never decide, and why, in their order. Not every such rule is found. There are at most 4,096 rules,
/// each of which some line reads as.
pub fn lint(alloc: Global, rules: &[Rule]) -> Result<Vec<Finding>, NoMemory>
    requires few { length rules.now ≤ 4096 }
    requires well_formed { All WellFormed rules.now }
    ensures findings { IfOk result (λ found. found.items ≡ findings rules.now) }
    ensures never_decides { IfOk result
        (λ found. (finding : tells.Finding) → Has found.items finding
        → NeverDecides rules.now (found_place finding)) }
{
    let mut found = Vec::new(alloc);
    for place in 0..rules.len() {
        note(&mut found, finding_of(&rules[..place], &rules[place]))?;
    }
    Ok(found)
}
