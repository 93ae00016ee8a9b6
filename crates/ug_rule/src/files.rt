// Texts of rules, a line each.
ghost use Rattle.std.specs.Prelude.{◌≡◌, [], ◌∷◌, ◌++◌, Ok, is_some, IfOk, IfErr};
ghost use Rattle.ug_types.specs.TextFaults.{IsTextFault};
ghost use Rattle.ug_lines.specs.LineReading.{LeadsTo};
ghost use Rattle.ug_rule.specs.Faults.{AnswersRead};
ghost use Rattle.ug_rule.specs.Files as files;
ghost use Rattle.ug_rule.specs.TextLines.{rule_on_line};

use crate::fault::{Fault, Stop};
use crate::rules::rule;
use crate::tokens_left::read;
use std::alloc::Global;
use ug_lines::{LineReader, read_lines};
use ug_types::{FileFault, Rule, TextFault};

// The rule of a line that is neither blank nor a comment.
fn read_line(alloc: Global, line: &[u8]) -> Result<Option<Rule>, Stop>
    ensures { AnswersRead result (files.line_read line.now) }
{
    let tokens = read(alloc, line)?;
    if tokens.as_slice().is_empty() {
        drop(tokens);
        return Ok(None);
    }
    Ok(Some(rule(alloc, line, tokens)?))
}

fn fault_on(number: u64, fault: Fault) -> FileFault
    ensures { result ≡ FileFault.Bad (files.fault_on number fault) }
{
    FileFault::Bad(TextFault {
        line: number,
        kind: fault.kind.number(),
        place: fault.place,
    })
}

/// The rule of a text's line of that number, without its newline. One that is blank or a comment has none.
pub fn parse_line(alloc: Global, number: u64, line: &[u8]) -> Result<Option<Rule>, FileFault>
    ensures good { IfOk result (λ found. rule_on_line number line.now ≡ Ok found) }
    ensures bad { IfErr result (λ fault. IsTextFault fault (rule_on_line number line.now)) }
{
    match read_line(alloc, line) {
        Ok(found) => Ok(found),
        Err(Stop::Bad(fault)) => Err(fault_on(number, fault)),
        Err(Stop::Memory) => Err(FileFault::Memory),
    }
}

fn is_there<T: Drop>(found: Option<T>) -> bool
    ensures { result ≡ is_some found }
{
    found.is_some()
}

// Whether a line has a rule.
fn has_rule(alloc: Global, line: &[u8]) -> Result<bool, Stop>
    ensures { files.TellsRule result (files.line_read line.now) }
{
    let found = read_line(alloc, line)?;
    Ok(is_there(found))
}

fn push<T: Drop>(item: T, items: &mut Vec<T>) -> Result<(), FileFault>
    ensures { LeadsTo (Ok (items.old.items ++ item ∷ [])) result items.new.items }
{
    match items.push(item) {
        Ok(()) => Ok(()),
        Err(_) => Err(FileFault::Memory),
    }
}

// Adds a rule, if there is one.
fn add_found(found: Option<Rule>, rules: &mut Vec<Rule>) -> Result<(), FileFault>
    ensures { LeadsTo (Ok (files.with_rule rules.old.items found)) result rules.new.items }
{
    match found {
        Some(rule) => push(rule, rules),
        None => Ok(()),
    }
}

// Adds the rule of a line, if it has one.
fn add_line(alloc: Global, line: &[u8], number: u64, rules: &mut Vec<Rule>) -> Result<(), FileFault>
    ensures { LeadsTo (files.adding_line number rules.old.items line.now) result rules.new.items }
{
    match read_line(alloc, line) {
        Ok(found) => add_found(found, rules),
        Err(Stop::Bad(fault)) => Err(fault_on(number, fault)),
        Err(Stop::Memory) => Err(FileFault::Memory),
    }
}

/// The rules so far.
#[derive(Drop)]
struct RulesRead {
    rules: Vec<Rule>,
}

impl LineReader for RulesRead {
    ghost use Rattle.std.specs.Prelude.{List};
    ghost use Rattle.ug_types.specs.declared.rule.Rule.{Rule};
    ghost use Rattle.ug_rule.specs.Files.{adding_line};

    ghost State = { List Rule };

    ghost state = { λ r. r.rules.items };

    ghost reads = { adding_line };

    ghost keeps = { λ _ _. Unit {0} };

    fn read_line(&mut self, alloc: Global, number: u64, line: &[u8]) -> Result<(), FileFault> {
        add_line(alloc, line, number, &mut self.rules)
    }
}

/// How many rules there are so far: fewer than the next line's number.
#[derive(Drop)]
struct RulesCounted {
    count: u64,
}

impl LineReader for RulesCounted {
    ghost use Rattle.std.specs.Prelude.{ℕ, ◌+◌, ◌≤◌};
    ghost use Rattle.ug_rule.specs.Files.{counting_line};

    ghost State = { ℕ };

    ghost state = { λ r. r.count };

    ghost reads = { counting_line };

    ghost keeps = { λ number r. r.count + 1 ≤ number };

    fn read_line(&mut self, alloc: Global, number: u64, line: &[u8]) -> Result<(), FileFault> {
        match has_rule(alloc, line) {
            Ok(true) => {
                self.count += 1;
                Ok(())
            }
            Ok(false) => Ok(()),
            Err(Stop::Bad(fault)) => Err(fault_on(number, fault)),
            Err(Stop::Memory) => Err(FileFault::Memory),
        }
    }
}

/// The rules of a text in its order, or its first bad line. Lines that are blank or comments are no rules, and the last
/// line may lack its newline. Linear in the number of bytes.
pub fn parse_file(alloc: Global, text: &[u8]) -> Result<Vec<Rule>, FileFault>
    ensures good { IfOk result (λ rules. files.file_read text.now ≡ Ok rules.items) }
    ensures bad { IfErr result (λ fault. IsTextFault fault (files.file_read text.now)) }
{
    let mut read = RulesRead {
        rules: Vec::new(alloc),
    };
    match read_lines(alloc, &mut read, text) {
        Ok(()) => Ok(read.rules),
        Err(fault) => Err(fault),
    }
}

/// How many rules `parse_file` reads in a text, or its first bad line. One rule is kept at a time, so that memory grows
/// with the longest line.
pub fn count_rules(alloc: Global, text: &[u8]) -> Result<u64, FileFault>
    ensures good { IfOk result (λ count. files.IsCount count (files.file_read text.now)) }
    ensures bad { IfErr result (λ fault. IsTextFault fault (files.file_read text.now)) }
{
    let mut counted = RulesCounted { count: 0 };
    match read_lines(alloc, &mut counted, text) {
        Ok(()) => Ok(counted.count),
        Err(fault) => Err(fault),
    }
}
