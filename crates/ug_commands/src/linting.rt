// The call that reads rules and writes which of them can never decide, or those that no earlier one covers.
ghost use Rattle.std.specs.Prelude.{◌≡◌, ◌≢◌, ◌≤◌, ℕ, IfErr, IfOk, List, Option, Some, length};
ghost use Rattle.std.specs.Io.KnownBytes.{IsAtEnd};
ghost use Rattle.ug_types.specs.Ends.{Rose};
ghost use Rattle.ug_types.specs.Limits.{text_limit};
ghost use Rattle.ug_command_io.specs.Runs.{SaysFault};
ghost use Rattle.ug_command_io.specs.declared.results.Ended.{Ended};
ghost use Rattle.ug_commands.specs.Checking.{check_status};
ghost use Rattle.ug_commands.specs.Linting.{AnswersLint, CompletesLint, IsLintFault, IsLinted, IsOutput, IsPruned, TellsLint, lint_end, lint_fault_line};

use crate::checking::status;
use crate::checking_lines::line_of_bad_rules;
use crate::few_rules::{LintFault, read_few};
use crate::linting_lines::text_of_findings;
use crate::rule_lines::text_of_rules;
use std::alloc::Global;
use ug_command_io::{Ended, read_input, refuse_input, write_result};
use ug_lint::{lint, prune};
use ug_types::{Sink, Source, TEXT_LIMIT, Text, discard_rules};

fn findings_of(alloc: Global, bytes: &[u8]) -> Result<Text, LintFault>
    ensures linted { IfOk result (λ text. IsLinted bytes.now text) }
    ensures fault { IfErr result (λ fault. IsLintFault fault bytes.now) }
{
    let rules = read_few(alloc, bytes)?;
    let found = lint(alloc, rules.as_slice());
    discard_rules(rules);
    let found = found?;
    Ok(text_of_findings(alloc, found.as_slice())?)
}

fn pruned_of(alloc: Global, bytes: &[u8]) -> Result<Text, LintFault>
    ensures pruned { IfOk result (λ text. IsPruned bytes.now text) }
    ensures fault { IfErr result (λ fault. IsLintFault fault bytes.now) }
{
    let rules = read_few(alloc, bytes)?;
    let left = prune(alloc, rules)?;
    let text = text_of_rules(alloc, left.as_slice());
    discard_rules(left);
    Ok(text?)
}

fn output_of(alloc: Global, pruned: bool, bytes: &[u8]) -> Result<Text, LintFault>
    ensures output { IfOk result (λ text. IsOutput pruned bytes.now text) }
    ensures fault { IfErr result (λ fault. IsLintFault fault bytes.now) }
{
    if pruned {
        pruned_of(alloc, bytes)
    } else {
        findings_of(alloc, bytes)
    }
}

/// Writes why there is no output.
#[tactic(auto, unfolding(crate::specs::LintingLines::too_many_rules, ug_command_io::specs::Fold::no_memory))]
fn refuse_rules<K: Sink>(out: &mut K, fault: LintFault) -> Ended
    ensures told { SaysFault (K.held out.old) (K.held out.new) (lint_fault_line fault)
        (lint_end fault) result }
    ensures cause { result ≡ Ended.WriteFault → Rose (K.faults out.old) (K.faults out.new) }
{
    match fault {
        LintFault::Bad(fault) => { write_result(out, line_of_bad_rules(fault).bytes(), Ended::Bad) }
        LintFault::TooMany => write_result(out, b"too many rules\n", Ended::Bad),
        LintFault::Memory => write_result(out, b"no memory\n", Ended::Memory),
    }
}

/// Writes the output of the bytes of an input, whose end was reached.
fn write_output<K: Sink>(alloc: Global, pruned: bool, bytes: &[u8], out: &mut K) -> Ended
    requires { length bytes.now ≤ text_limit }
    ensures told { (left : Option (List ℕ)) → IsAtEnd left
        → TellsLint pruned bytes.now left (K.held out.old) (K.held out.new) result }
    ensures not_read { result ≢ Ended.ReadFault }
    ensures cause { result ≡ Ended.WriteFault → Rose (K.faults out.old) (K.faults out.new) }
{
    match output_of(alloc, pruned, bytes) {
        Ok(text) => write_result(out, text.bytes(), Ended::Done),
        Err(fault) => refuse_rules(out, fault),
    }
}

fn lint_input<S: Source, K: Sink>(alloc: Global, pruned: bool, input: &mut S, out: &mut K) -> Ended
    ensures told { CompletesLint pruned (S.left input.old) (S.left input.new) (K.held out.old)
        (K.held out.new) result }
    ensures read { result ≡ Ended.ReadFault → Rose (S.faults input.old) (S.faults input.new) }
    ensures written { result ≡ Ended.WriteFault → Rose (K.faults out.old) (K.faults out.new) }
{
    match read_input(alloc, input, TEXT_LIMIT) {
        Ok(text) => write_output(alloc, pruned, text.bytes(), out),
        Err(fault) => refuse_input(out, fault),
    }
}

/// Reads a text of rules, at most 67,108,864 bytes and 4,096 rules, as usbguard-rules.conf(5) has them, and writes which of them
/// can never decide: a line `covered J by I` for rule J where rule I, an earlier one, decides wherever J would, and `never J`
/// where the conditions of rule J never hold, and behind these `lint N` with their number. Rules are counted from 1; blank
/// lines and comments are no rules. If `pruned`, it writes the canonical text of the rules that no earlier one covers
/// instead. The status is 0; 2 where the text has more bytes; 3 where it has a bad line, with `bad rules line N kind K place P`
/// of the first one, or else more rules, with `too many rules`; 4 for a read fault; 5 for a write fault; 6 for want of memory.
/// With 2, 3, 4 and 6 a fault line is all that is written.
pub fn lint_rules<S: Source, K: Sink>(alloc: Global, pruned: bool, input: &mut S, out: &mut K) -> u8
    ensures answers { (all : List ℕ) (base : List ℕ) → S.left input.old ≡ Some all
        → K.held out.old ≡ Some base
        → AnswersLint pruned all base (S.left input.new) (K.held out.new) result }
    ensures read { result ≡ 4 → Rose (S.faults input.old) (S.faults input.new) }
    ensures written { result ≡ 5 → Rose (K.faults out.old) (K.faults out.new) }
    ensures others { (ended : Ended) × (result ≡ check_status ended) }
{
    status(lint_input(alloc, pruned, input, out))
}
