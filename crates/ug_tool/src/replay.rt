// The command `replay`.
ghost use Rattle.std.specs.Prelude.{◌≡◌, ◌⊎◌, ℕ, Bool, true, false, IfErr, IfOk, IfSome, List, Option, Some, None, map};
ghost use Rattle.ug_types.specs.Ends.{Rose};
ghost use Rattle.ug_command_io.specs.Fold.{of_first};
ghost use Rattle.ug_command_io.specs.Statuses.{AnswersLines, status_of};
ghost use Rattle.ug_command_io.specs.declared.results.Ended.{Ended};
ghost use Rattle.ug_arguments.specs.Commands.{command_in};
ghost use Rattle.ug_arguments.specs.declared.command.Command.TheVariants as command;
ghost use Rattle.ug_lines.specs.Lines.{lines_of};
ghost use Rattle.ug_script.specs.Against.{RefusesScript};
ghost use Rattle.ug_script.specs.Births.{StaysBorn};
ghost use Rattle.ug_script.specs.Roomless.{TellsRoom};
ghost use Rattle.ug_script.specs.CarriedOn.{CarriesThrough};
ghost use Rattle.ug_script.specs.EventCalls.{StaysAtCalls};
ghost use Rattle.ug_script.specs.Script.{Script};
ghost use Rattle.ug_script.specs.Replay.{script_step, script_end};
ghost use Rattle.ug_script.specs.Summing.{Summary, TellsSummary, no_totals, summary_end, summary_step};
ghost use Rattle.ug_script.specs.Journal.{StaysRecorded};
ghost use Rattle.ug_script.specs.Laws.{StaysLawful};
ghost use Rattle.ug_tool.specs.Faults.{IsOutOfMemory, IsRefused};
ghost use Rattle.ug_tool.specs.Replay.{new_world};
ghost use Rattle.ug_tool.specs.Tool.{replay_of};

use crate::faults::refuse;
use std::alloc::Global;
use ug_arguments::{Command, WordsFault, read_command};
use ug_command_io::run;
use ug_script::{Interpreter, summarize};
use ug_sysfs::SimKernel;
use ug_types::{Sink, Source};

/// Runs the script that the input holds over a new kernel.
pub fn replay_over<S: Source, K: Sink>(
    alloc: Global,
    input: &mut S,
    out: &mut K,
    kernel: &mut SimKernel,
) -> u8
    requires { kernel.old ≡ new_world }
    ensures replayed { (all base : List ℕ) → S.left input.old ≡ Some all
        → K.held out.old ≡ Some base
        → (script : Option Script) × AnswersLines script_step (of_first script_end) (
          None,
          new_world,
        ) all base (S.left input.new) (K.held out.new) (script, kernel.new) result }
    ensures why { (all : List ℕ) → S.left input.old ≡ Some all → result ≡ 2
        → RefusesScript new_world (lines_of all) }
    ensures too_long { (all base : List ℕ)
        → S.left input.old ≡ Some all → K.held out.old ≡ Some base
        → TellsRoom new_world (lines_of all) base (K.held out.new) result }
    ensures carries { (all base : List ℕ) → S.left input.old ≡ Some all
        → K.held out.old ≡ Some base → result ≡ 0 → CarriesThrough new_world (lines_of all) }
    ensures ended { (ended : Ended) × (result ≡ status_of ended) }
    ensures read { result ≡ 4 → Rose (S.faults input.old) (S.faults input.new) }
    ensures written { result ≡ 5 → Rose (K.faults out.old) (K.faults out.new) }
{
    let mut interpreter = Interpreter::new();
    let status = run(alloc, input, out, &mut interpreter, kernel);
    interpreter.discard();
    status
}

/// The same, or writes numbers of the journal in its place.
fn replay_or_summarize<S: Source, K: Sink>(
    alloc: Global,
    summary: bool,
    input: &mut S,
    out: &mut K,
    kernel: &mut SimKernel,
) -> u8
    requires { kernel.old ≡ new_world }
    ensures replayed { summary ≡ false → (all base : List ℕ) → S.left input.old ≡ Some all
        → K.held out.old ≡ Some base
        → (script : Option Script) × AnswersLines script_step (of_first script_end) (
          None,
          new_world,
        ) all base (S.left input.new) (K.held out.new) (script, kernel.new) result }
    ensures summarized { summary ≡ true → (all base : List ℕ) → S.left input.old ≡ Some all
        → K.held out.old ≡ Some base
        → (numbers : Summary) × AnswersLines summary_step summary_end (
          (None, no_totals),
          new_world,
        ) all base (S.left input.new) (K.held out.new) (numbers, kernel.new) result }
    ensures summary { summary ≡ true → (all base : List ℕ) → S.left input.old ≡ Some all
        → K.held out.old ≡ Some base
        → TellsSummary new_world all base (K.held out.new) result }
    ensures why { (all : List ℕ) → S.left input.old ≡ Some all → result ≡ 2
        → RefusesScript new_world (lines_of all) }
    ensures too_long { summary ≡ false → (all base : List ℕ)
        → S.left input.old ≡ Some all → K.held out.old ≡ Some base
        → TellsRoom new_world (lines_of all) base (K.held out.new) result }
    ensures carries { (all base : List ℕ) → S.left input.old ≡ Some all
        → K.held out.old ≡ Some base → result ≡ 0 → CarriesThrough new_world (lines_of all) }
    ensures ended { (ended : Ended) × (result ≡ status_of ended) }
    ensures read { result ≡ 4 → Rose (S.faults input.old) (S.faults input.new) }
    ensures written { result ≡ 5 → Rose (K.faults out.old) (K.faults out.new) }
{
    match summary {
        true => summarize(alloc, input, out, kernel),
        false => replay_over(alloc, input, out, kernel),
    }
}

// Whether the command is `replay`, and then whether it asks for numbers.
fn replay_asked(command: &Command) -> Option<bool>
    ensures some { IfSome result (λ summary. command.now ≡ replay_of summary) }
    ensures none { result ≡ None → (summary : Bool) → ¬ (command.now ≡ replay_of summary) }
{
    match command {
        Command::Replay => Some(false),
        Command::Summarize => Some(true),
        Command::MakeScript { .. }
        | Command::ReadDescriptor
        | Command::CheckRules
        | Command::LintRules { .. }
        | Command::GeneratePolicy
        | Command::AddUser { .. }
        | Command::Ask { .. }
        | Command::ListChosen { .. }
        | Command::ListLabelled { .. }
        | Command::ListRuleDevices { .. }
        | Command::ChangeParameter { .. }
        | Command::Order { .. }
        | Command::Watch { .. }
        | Command::WatchWaiting { .. } => None,
    }
}

// Whether the words of `replay` ask for numbers, or why they aren't its words.
fn read_replay(alloc: Global, words: &[&str]) -> Result<bool, WordsFault>
    ensures ok { IfOk result
        (λ summary. command_in (map (λ word. word.now) words.now) ≡ Some (replay_of summary)) }
    ensures bad { IfErr result (λ fault. fault ≡ WordsFault.Bad
        → (summary : Bool)
        → ¬ (command_in (map (λ word. word.now) words.now) ≡ Some (replay_of summary))) }
{
    let command = read_command(alloc, words)?;
    let asked = replay_asked(&command);
    command.discard();
    match asked {
        Some(summary) => Ok(summary),
        None => Err(WordsFault::Bad),
    }
}

/// Runs the script that the input holds over a new kernel, and writes its journal, or with `--summary` one line with numbers of it. The
/// words are those of the command line behind the program's name. The status is 0; 1 where they aren't those of `replay`; 2 where a
/// line isn't in the grammar or a limit is passed; 4 for a read fault; 5 for a write fault; 6 for want of memory. With 1, 2, 4 and 6
/// the last line tells so. With 2 it is the line itself, its place or a limit that speaks against it, or the rules of the `rule` lines fit no
/// file, or the texts of the `folder` lines are too long: never what an order, or a stop of the machine, has left of the rule file.
pub fn run_replay<S: Source, K: Sink>(
    alloc: Global,
    words: &[&str],
    input: &mut S,
    out: &mut K,
    kernel: &mut SimKernel,
) -> u8
    requires { kernel.old ≡ new_world }
    ensures refused { ((summary : Bool)
        → ¬ (command_in (map (λ word. word.now) words.now) ≡ Some (replay_of summary)))
        → (IsRefused (K.held out.old) (K.held out.new) result
        ⊎ IsOutOfMemory (K.held out.old) (K.held out.new) result)
        × (kernel.new ≡ kernel.old) × (S.left input.new ≡ S.left input.old) }
    ensures replayed { command_in (map (λ word. word.now) words.now) ≡ Some command.Replay
        → (all base : List ℕ) → S.left input.old ≡ Some all → K.held out.old ≡ Some base
        → (script : Option Script) × AnswersLines script_step (of_first script_end) (
          None,
          new_world,
        ) all base (S.left input.new) (K.held out.new) (script, kernel.new) result }
    ensures summarized { command_in (map (λ word. word.now) words.now) ≡ Some command.Summarize
        → (all base : List ℕ) → S.left input.old ≡ Some all → K.held out.old ≡ Some base
        → (numbers : Summary) × AnswersLines summary_step summary_end ((None, no_totals), new_world)
        all base (S.left input.new) (K.held out.new) (numbers, kernel.new) result }
    ensures summary { command_in (map (λ word. word.now) words.now) ≡ Some command.Summarize
        → (all base : List ℕ) → S.left input.old ≡ Some all → K.held out.old ≡ Some base
        → TellsSummary new_world all base (K.held out.new) result }
    ensures laws { StaysLawful new_world }
    ensures recorded { StaysRecorded new_world }
    ensures births { StaysBorn new_world }
    ensures calls { StaysAtCalls new_world }
    ensures why { (summary : Bool)
        → command_in (map (λ word. word.now) words.now) ≡ Some (replay_of summary)
        → (all : List ℕ) → S.left input.old ≡ Some all → result ≡ 2
        → RefusesScript new_world (lines_of all) }
    ensures too_long { command_in (map (λ word. word.now) words.now) ≡ Some command.Replay
        → (all base : List ℕ) → S.left input.old ≡ Some all
        → K.held out.old ≡ Some base
        → TellsRoom new_world (lines_of all) base (K.held out.new) result }
    ensures carries { (summary : Bool)
        → command_in (map (λ word. word.now) words.now) ≡ Some (replay_of summary)
        → (all base : List ℕ) → S.left input.old ≡ Some all → K.held out.old ≡ Some base
        → result ≡ 0 → CarriesThrough new_world (lines_of all) }
    ensures ended { (summary : Bool)
        → command_in (map (λ word. word.now) words.now) ≡ Some (replay_of summary)
        → (ended : Ended) × (result ≡ status_of ended) }
    ensures read { result ≡ 4 → Rose (S.faults input.old) (S.faults input.new) }
    ensures written { result ≡ 5 → Rose (K.faults out.old) (K.faults out.new) }
{
    match read_replay(alloc, words) {
        Ok(summary) => replay_or_summarize(alloc, summary, input, out, kernel),
        Err(fault) => refuse(out, fault),
    }
}
