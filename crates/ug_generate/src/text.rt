// The text of a first policy.
ghost use Rattle.std.specs.Prelude.{◌≡◌, ◌++◌, IfOk, Ok, OnOk};
ghost use Rattle.ug_rule.specs.Files.{file_read};
ghost use Rattle.ug_print.specs.RuleTexts.{rule_line, rules_text_of};
ghost use Rattle.ug_generate.specs.Policies.{policy_rules};

use crate::policy::generated_rules;
use std::alloc::Global;
use ug_kernel::Device;
use ug_print::print_rule;
use ug_types::{NoMemory, Rule, Text};

fn push_line(alloc: Global, text: &mut Vec<u8>, rule: &Rule) -> Result<(), NoMemory>
    ensures { OnOk result (text.new.items ≡ text.old.items ++ rule_line rule.now) }
{
    let line = print_rule(alloc, rule)?;
    text.extend_from_slice(line.bytes())?;
    text.push(b'\n')?;
    Ok(())
}

fn lines_of(alloc: Global, rules: &[Rule]) -> Result<Text, NoMemory>
    ensures { IfOk result (λ text. text ≡ rules_text_of rules.now) }
{
    let mut text = Vec::new(alloc);
    for rule in rules {
        push_line(alloc, &mut text, rule)?;
    }
    Ok(Text::from_vec(text))
}

/// The text of a rule file with the rules of `generated_rules`, however long it is.
pub fn generated_text(alloc: Global, devices: &[Device], with_port: bool) -> Result<Text, NoMemory>
    ensures text { IfOk result (λ text. text ≡ rules_text_of (policy_rules devices.now with_port)) }
    ensures reads { IfOk result (λ text. file_read text ≡ Ok (policy_rules devices.now with_port)) }
{
    let rules = generated_rules(alloc, devices, with_port)?;
    lines_of(alloc, rules.as_slice())
}
