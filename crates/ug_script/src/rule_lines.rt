// The rules of `rule` lines, kept as text.
ghost use Rattle.std.specs.Prelude.{◌≡◌, ◌<◌, ◌≤◌, ◌++◌, ◌∷◌, [], length, IfOk, Ok, OnErr, OnOk};
ghost use Rattle.ug_rule.specs.Files.{file_read};
ghost use Rattle.ug_rule.specs.Grammar.{WellFormed};
ghost use Rattle.ug_print.specs.Bytes.{RuleOfBytes};
ghost use Rattle.ug_print.specs.RuleTexts.{rule_line, rules_text_of};

use std::alloc::Global;
use std::marker::Model;
use ug_print::print_rule;
use ug_types::{NoMemory, Rule, Text};

/// Up to 65,536 rules in order, of which the text of a rule file with them is all that is kept.
#[derive(Drop)]
pub struct RuleLines {
    alloc: Global,
    text: Vec<u8>,
    count: usize,
}

impl Model for RuleLines {
    ghost use Rattle.std.specs.Prelude.{List};
    ghost use Rattle.ug_types.specs.declared.rule.Rule.{Rule};
    ghost use Rattle.ug_script.specs.RuleLines.{IsRuleText, rules_kept};

    ghost Value = { List Rule };

    ghost view = { λ r. rules_kept r.text.items };

    ghost invariant = { λ r. IsRuleText r.text.items r.count };
}

fn print_line(alloc: Global, rule: &Rule) -> Result<Text, NoMemory>
    ensures line { IfOk result (λ line. line ≡ rule_line rule.now) }
    ensures bytes { OnOk result (RuleOfBytes rule.now) }
{
    let mut line = print_rule(alloc, rule)?.into_vec();
    line.push(b'\n')?;
    Ok(Text::from_vec(line))
}

fn add_line(text: &mut Vec<u8>, line: &Text) -> Result<(), NoMemory>
    ensures ok { OnOk result (text.new.items ≡ text.old.items ++ line.now) }
    ensures err { OnErr result (text.new.items ≡ text.old.items) }
{
    text.extend_from_slice(line.bytes())?;
    Ok(())
}

impl RuleLines {
    /// No rules. It takes no memory.
    pub fn new(alloc: Global) -> RuleLines
        ensures { result ≡ [] }
    {
        RuleLines {
            alloc,
            text: Vec::new(alloc),
            count: 0,
        }
    }

    pub fn len(&self) -> usize
        ensures number { result ≡ length self.now }
        ensures few { length self.now ≤ 65536 }
    {
        self.count
    }

    /// The text of a rule file with the rules.
    pub fn text(&self) -> &[u8]
        ensures text { result.now ≡ rules_text_of self.now }
        ensures reads { file_read (rules_text_of self.now) ≡ Ok self.now }
    {
        self.text.as_slice()
    }

    /// Adds a rule. A refusal changes nothing.
    pub fn push(&mut self, rule: &Rule) -> Result<(), NoMemory>
        requires room { length self.old < 65536 }
        requires well_formed { WellFormed rule.now }
        ensures ok { OnOk result (self.new ≡ self.old ++ rule.now ∷ []) }
        ensures err { OnErr result (self.new ≡ self.old) }
    {
        let line = print_line(self.alloc, rule)?;
        add_line(&mut self.text, &line)?;
        self.count += 1;
        Ok(())
    }
}
