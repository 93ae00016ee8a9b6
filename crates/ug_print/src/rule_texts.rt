// The text of a rule file.
ghost use Rattle.std.specs.Prelude.{◌≡◌, ◌<◌, ◌≤◌, ◌++◌, All, Err, IfOk, Ok, OnErr, OnOk, [], length};
ghost use Rattle.ug_types.specs.Limits.{text_limit};
ghost use Rattle.ug_rule.specs.Files.{file_read};
ghost use Rattle.ug_rule.specs.Grammar.{WellFormed};
ghost use Rattle.ug_print.specs.Bytes.{RuleOfBytes};
ghost use Rattle.ug_print.specs.RuleTexts.{rule_line, rules_text_of};

use crate::printing::print_rule;
use std::alloc::Global;
use std::marker::Model;
use ug_types::{NoMemory, Rule, TEXT_LIMIT, Text};

/// Why no text is made of rules.
#[derive(Clone, Copy)]
pub enum RulesTextFault {
    /// It would have more than 67,108,864 bytes.
    TooLong,
    Memory,
}

/// The text of a rule file, to which rules are added one by one: at most 67,108,864 bytes.
#[derive(Drop)]
pub struct RulesText {
    bytes: Vec<u8>,
}

impl Model for RulesText {
    ghost use Rattle.std.specs.Prelude.{ℕ, List, ◌≤◌, length};
    ghost use Rattle.ug_types.specs.Limits.{text_limit};

    ghost Value = { List ℕ };

    ghost view = { λ t. t.bytes.items };

    ghost invariant = { λ t. length t.bytes.items ≤ text_limit };
}

fn put_line(alloc: Global, out: &mut Vec<u8>, rule: &Rule) -> Result<(), RulesTextFault>
    requires { length out.old.items ≤ text_limit }
    ensures line { OnOk result (out.new.items ≡ out.old.items ++ rule_line rule.now) }
    ensures fits { OnOk result (length out.new.items ≤ text_limit) }
    ensures too_long { result ≡ Err RulesTextFault.TooLong
        → text_limit < length (out.old.items ++ rule_line rule.now) }
    ensures err { OnErr result (out.new.items ≡ out.old.items) }
    ensures bytes { OnOk result (RuleOfBytes rule.now) }
{
    let Ok(line) = print_line(alloc, rule) else {
        return Err(RulesTextFault::Memory);
    };
    if line.bytes().len() > TEXT_LIMIT - out.len() {
        return Err(RulesTextFault::TooLong);
    }
    match out.extend_from_slice(line.bytes()) {
        Ok(()) => Ok(()),
        Err(_) => Err(RulesTextFault::Memory),
    }
}

fn print_line(alloc: Global, rule: &Rule) -> Result<Text, NoMemory>
    ensures line { IfOk result (λ line. line ≡ rule_line rule.now) }
    ensures bytes { OnOk result (RuleOfBytes rule.now) }
{
    let mut line = print_rule(alloc, rule)?.into_vec();
    line.push(b'\n')?;
    Ok(Text::from_vec(line))
}

impl RulesText {
    /// No rules. It takes no memory.
    pub fn new(alloc: Global) -> RulesText
        ensures { result ≡ [] }
    {
        RulesText {
            bytes: Vec::new(alloc),
        }
    }

    /// Adds the line of a rule. A refusal changes nothing.
    pub fn push(&mut self, alloc: Global, rule: &Rule) -> Result<(), RulesTextFault>
        ensures line { OnOk result (self.new ≡ self.old ++ rule_line rule.now) }
        ensures fits { OnOk result (length self.new ≤ text_limit) }
        ensures too_long { result ≡ Err RulesTextFault.TooLong
            → text_limit < length (self.old ++ rule_line rule.now) }
        ensures err { OnErr result (self.new ≡ self.old) }
        ensures bytes { OnOk result (RuleOfBytes rule.now) }
    {
        put_line(alloc, &mut self.bytes, rule)
    }

    pub fn into_text(self) -> Text
        ensures text { result ≡ self }
        ensures fits { length self ≤ text_limit }
    {
        Text::from_vec(self.bytes)
    }
}

/// The text of a rule file with these rules: a line for each, in their order. A text that would be too long is told before
/// it is made. A text that is made of rules, each of which some line reads as, reads as these rules.
pub fn rules_text(alloc: Global, rules: &[Rule]) -> Result<Text, RulesTextFault>
    ensures text { IfOk result (λ text. text ≡ rules_text_of rules.now) }
    ensures fits { OnOk result (length (rules_text_of rules.now) ≤ text_limit) }
    ensures too_long { result ≡ Err RulesTextFault.TooLong
        → text_limit < length (rules_text_of rules.now) }
    ensures bytes { OnOk result (All RuleOfBytes rules.now) }
    ensures reads { All WellFormed rules.now → IfOk result (λ text. file_read text ≡ Ok rules.now) }
{
    let mut text = RulesText::new(alloc);
    for rule in rules {
        match text.push(alloc, rule) {
            Ok(()) => {}
            Err(fault) => return Err(fault),
        }
    }
    Ok(text.into_text())
}
