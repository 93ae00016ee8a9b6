// The text of a list of rules.
ghost use Rattle.std.specs.Prelude.{◌≡◌, ◌++◌, All, IfOk, OnOk};
ghost use Rattle.ug_print.specs.Bytes.{RuleOfBytes};
ghost use Rattle.ug_print.specs.RuleTexts.{rule_line, rules_text_of};

use std::alloc::Global;
use ug_print::print_rule;
use ug_types::{NoMemory, Rule, Text};

fn push_rule(alloc: Global, text: &mut Vec<u8>, rule: &Rule) -> Result<(), NoMemory>
    ensures line { OnOk result (text.new.items ≡ text.old.items ++ rule_line rule.now) }
    ensures bytes { OnOk result (RuleOfBytes rule.now) }
{
    let line = print_rule(alloc, rule)?;
    text.extend_from_slice(line.bytes())?;
    text.push(b'\n')?;
    Ok(())
}

/// The canonical text of each rule, with a newline behind it, however long that is.
pub fn text_of_rules(alloc: Global, rules: &[Rule]) -> Result<Text, NoMemory>
    ensures text { IfOk result (λ text. text ≡ rules_text_of rules.now) }
    ensures bytes { OnOk result (All RuleOfBytes rules.now) }
{
    let mut text = Vec::new(alloc);
    for rule in rules {
        push_rule(alloc, &mut text, rule)?;
    }
    Ok(Text::from_vec(text))
}
