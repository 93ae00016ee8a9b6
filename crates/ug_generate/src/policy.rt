// The rules of a first policy.
ghost use Rattle.std.specs.Prelude.{◌≡◌, ◌++◌, All, IfOk, OnOk, Ok, slice_get};
ghost use Rattle.ug_rule.specs.Files.{file_read};
ghost use Rattle.ug_rule.specs.Grammar.{WellFormed};
ghost use Rattle.ug_print.specs.Bytes.{RuleOfBytes};
ghost use Rattle.ug_print.specs.RuleTexts.{rules_text_of};
ghost use Rattle.ug_generate.specs.Policies.{IsPolicy, policy_rules, rules_at, rules_for};

use crate::files::judged_in;
use crate::places::places_in_order;
use std::alloc::Global;
use ug_kernel::Device;
use ug_print::generated_rule;
use ug_types::{Judged, List, NoMemory, Rule, Target};

fn push_rule(
    alloc: Global,
    rules: &mut List<Rule>,
    judged: &Judged,
    with_port: bool,
) -> Result<(), NoMemory>
    ensures rules { OnOk result (rules.new ≡ rules.old ++ rules_for with_port judged.now) }
    ensures well_formed { All WellFormed rules.old → OnOk result (All WellFormed rules.new) }
    ensures bytes { All RuleOfBytes rules.old → OnOk result (All RuleOfBytes rules.new) }
{
    match judged {
        Judged::Good(device) => {
            let rule = generated_rule(alloc, device, Target::Allow, with_port)?;
            rules.push(rule)?;
            Ok(())
        }
        Judged::Malformed { .. } => Ok(()),
    }
}

fn push_rule_at(
    alloc: Global,
    rules: &mut List<Rule>,
    devices: &[Device],
    place: usize,
    with_port: bool,
) -> Result<(), NoMemory>
    ensures rules { OnOk result (rules.new
        ≡ rules.old ++ rules_at devices.now with_port (slice_get devices.now place)) }
    ensures well_formed { All WellFormed rules.old → OnOk result (All WellFormed rules.new) }
    ensures bytes { All RuleOfBytes rules.old → OnOk result (All RuleOfBytes rules.new) }
{
    match devices.get(place) {
        Some(device) => {
            let judged = judged_in(alloc, devices, device)?;
            let pushed = push_rule(alloc, rules, &judged, with_port);
            judged.discard();
            pushed
        }
        None => Ok(()),
    }
}

/// One rule for each live device whose record is good, in the order of a sweep: it allows the device
/// by all that is known of it, and by its port only where that is asked for. Malformed devices have
/// none. The text of these rules reads as them. The memory taken grows with the live devices, the
/// time also with those that were born.
pub fn generated_rules(
    alloc: Global,
    devices: &[Device],
    with_port: bool,
) -> Result<List<Rule>, NoMemory>
    ensures policy { IfOk result (λ rules. IsPolicy devices.now with_port rules) }
    ensures rules { IfOk result (λ rules. rules ≡ policy_rules devices.now with_port) }
    ensures reads { IfOk result (λ rules. file_read (rules_text_of rules) ≡ Ok rules) }
{
    let places = places_in_order(alloc, devices)?;
    let mut rules = List::new(alloc);
    for entry in places.as_slice() {
        push_rule_at(alloc, &mut rules, devices, entry.1, with_port)?;
    }
    Ok(rules)
}
