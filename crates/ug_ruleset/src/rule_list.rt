// The list of rules.
ghost use Rattle.std.specs.Prelude.{◌≡◌, ◌++◌, All, IfOk, OnOk};
ghost use Rattle.ug_rule.specs.Grammar.{WellFormed};
ghost use Rattle.ug_lines.specs.Splitting.{IsLine, AreLines};
ghost use Rattle.ug_ruleset.specs.RuleRows.{mark_text, rule_row, rule_rows};

use crate::rows::print_row;
use std::alloc::Global;
use ug_policy::{Mark, RuleEntry, RuleList};
use ug_print::print_rule;
use ug_types::{List, NoMemory, Text};

fn put_mark(row: &mut Vec<u8>, mark: Mark) -> Result<(), NoMemory>
    ensures { OnOk result (row.new.items ≡ row.old.items ++ mark_text mark) }
{
    let text: &[u8] = match mark {
        Mark::Folder => b" # folder",
        Mark::File => b"",
        Mark::Temporary => b" # temporary",
    };
    row.extend_from_slice(text)?;
    Ok(())
}

#[tactic(auto, unfolding(crate::specs::RuleRows::rule_row))]
fn print_rule_row(alloc: Global, entry: &RuleEntry) -> Result<Text, NoMemory>
    ensures row { IfOk result (λ row. row ≡ rule_row entry.now) }
    ensures one_line { WellFormed entry.now.rule → IfOk result (λ row. IsLine row) }
{
    let rule = print_rule(alloc, &entry.rule)?;
    let mut row = print_row(alloc, entry.id, rule.bytes())?;
    put_mark(&mut row, entry.mark)?;
    Ok(Text::from_vec(row))
}

/// The lines of a list of rules, without their newlines: one for each rule, in the order of the list, `ID: RULE` with its
/// canonical text. That of a rule of the folder ends with ` # folder`, that of a temporary one with ` # temporary`. None has a newline where each rule is what
/// some line reads as.
pub fn list_rules(alloc: Global, rules: &RuleList) -> Result<List<Text>, NoMemory>
    ensures rows { IfOk result (λ rows. rows ≡ rule_rows rules.now.entries) }
    ensures one_line { All (λ entry. WellFormed entry.rule) rules.now.entries
        → IfOk result (λ rows. AreLines rows) }
{
    let mut rows = List::new(alloc);
    for place in 0..rules.len() {
        let Some(entry) = rules.entry(place) else {
            unreachable!();
        };
        rows.push(print_rule_row(alloc, entry)?)?;
    }
    Ok(rows)
}
