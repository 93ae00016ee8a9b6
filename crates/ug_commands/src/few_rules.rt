// Rules that are not too many to be linted.
ghost use Rattle.std.specs.Prelude.{◌≡◌, All, IfErr, IfOk, List, Ok};
ghost use Rattle.ug_rule.specs.Files.{file_read};
ghost use Rattle.ug_rule.specs.Grammar.{WellFormed};
ghost use Rattle.ug_types.specs.declared.rule.Rule as types;
ghost use Rattle.ug_commands.specs.Linting.{AreFew, IsLintFault};

use std::alloc::Global;
use ug_rule::{count_rules, parse_file};
use ug_types::{FileFault, NoMemory, Rule, TextFault};

/// The greatest number of rules.
const MOST_RULES: u64 = 4096;

/// Why rules are not linted.
#[derive(Clone, Copy)]
pub enum LintFault {
    /// The first bad line.
    Bad(TextFault),
    /// Each line is good, and there are more than 4,096 rules.
    TooMany,
    Memory,
}

impl From<NoMemory> for LintFault {
    ghost use Rattle.std.specs.Prelude.{◌≡◌};
    ghost use Rattle.ug_commands.specs.declared.few_rules.LintFault.{LintFault};
    ghost use Rattle.ug_commands.specs.declared.few_rules.LintFault.TheVariants.{Memory};

    ghost from_gives = { λ _ fault. fault ≡ Memory };

    fn from(_e: NoMemory) -> LintFault {
        LintFault::Memory
    }
}

fn few(alloc: Global, bytes: &[u8]) -> Result<(), LintFault>
    ensures few { IfOk result (λ _. (rules : List types.Rule) × AreFew bytes.now rules) }
    ensures fault { IfErr result (λ fault. IsLintFault fault bytes.now) }
{
    match count_rules(alloc, bytes) {
        Ok(count) => {
            if count > MOST_RULES {
                return Err(LintFault::TooMany);
            }
            Ok(())
        }
        Err(FileFault::Bad(fault)) => Err(LintFault::Bad(fault)),
        Err(FileFault::Memory) => Err(LintFault::Memory),
    }
}

fn rules_of(alloc: Global, bytes: &[u8]) -> Result<Vec<Rule>, LintFault>
    ensures read { IfOk result (λ rules. file_read bytes.now ≡ Ok rules.items) }
    ensures fault { IfErr result (λ fault. IsLintFault fault bytes.now) }
{
    match parse_file(alloc, bytes) {
        Ok(rules) => Ok(rules),
        Err(FileFault::Bad(fault)) => Err(LintFault::Bad(fault)),
        Err(FileFault::Memory) => Err(LintFault::Memory),
    }
}

/// The rules of a text, of which there are at most 4,096. They are counted first, so that no more than these are kept.
pub fn read_few(alloc: Global, bytes: &[u8]) -> Result<Vec<Rule>, LintFault>
    ensures few { IfOk result (λ rules. AreFew bytes.now rules.items) }
    ensures well_formed { IfOk result (λ rules. All WellFormed rules.items) }
    ensures fault { IfErr result (λ fault. IsLintFault fault bytes.now) }
{
    few(alloc, bytes)?;
    rules_of(alloc, bytes)
}
