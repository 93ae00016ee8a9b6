// Rules as text.
ghost use Rattle.std.specs.Prelude.{◌≡◌, ◌++◌, ◌∷◌, [], IfOk, Ok, OnOk};
ghost use Rattle.ug_rule.specs.Grammar.{WellFormed};
ghost use Rattle.ug_rule.specs.Rules.{rule_read};
ghost use Rattle.ug_print.specs.Bytes.{RuleOfBytes};
ghost use Rattle.ug_print.specs.Words.{rule_text};
ghost use Rattle.ug_types.specs.Targets.{target_word};

use crate::conditions::put_conds;
use crate::sets::{join, put_query, put_word};
use std::alloc::Global;
use ug_types::{List, NoMemory, Rule, Target, Text};

pub fn put_target(alloc: Global, words: &mut List<Text>, target: Target) -> Result<(), NoMemory>
    ensures { OnOk result (words.new ≡ words.old ++ target_word target ∷ []) }
{
    put_word(alloc, words, target.word())
}

/// The canonical text of a rule, on one line without its newline: words with one space between them, the attributes
/// that are given in the order of usbguard-rules.conf(5) from `id` to `label`, then `if` with the conditions. Where some
/// line reads as the rule, this one does.
#[tactic(auto, unfolding(crate::specs::Words::rule_text))]
pub fn print_rule(alloc: Global, rule: &Rule) -> Result<Text, NoMemory>
    ensures text { IfOk result (λ text. text ≡ rule_text rule.now) }
    ensures bytes { OnOk result (RuleOfBytes rule.now) }
    ensures reads { WellFormed rule.now → IfOk result (λ text. rule_read text ≡ Ok rule.now) }
{
    let mut words = List::new(alloc);
    put_target(alloc, &mut words, rule.target)?;
    put_query(alloc, &mut words, &rule.query)?;
    put_conds(alloc, &mut words, &rule.conds)?;
    join(alloc, words.as_slice())
}
