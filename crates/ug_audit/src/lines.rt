// The text of an entry.
ghost use Rattle.std.specs.Prelude.{◌≡◌, ◌≤◌, ◌<◌, ◌+◌, ◌++◌, [], ◌∷◌, length, codes, decimal};
ghost use Rattle.ug_audit.specs.Lines.{and_words, cause_words, change_word, entry_line, fault_words, saved_word, wrote_word};
ghost use Rattle.ug_audit.specs.Lines as lines;
ghost use Rattle.ug_types.specs.Parameters.{parameter_name, parameter_set, value_word};
ghost use Rattle.ug_types.specs.Principals.{principal_text};
ghost use Rattle.ug_types.specs.Refusals.{refusal_words};
ghost use Rattle.ug_types.specs.Targets.{target_word};

use crate::entry::{Entry, Fault, RuleChange};
use ug_kernel::{Write, Wrote};
use ug_types::{
    Cause, Line, Moment, NodeName, Parameter, Principal, Refusal, Saved, Target, words_of,
};

/// Appends a space and a name.
fn push_name(line: &mut Line, name: &NodeName)
    requires { length line.old + 31 < 512 }
    ensures text { line.new ≡ line.old ++ 32 ∷ name.now }
    ensures length { length line.new ≤ length line.old + 32 }
{
    let _short = name.len();
    line.push_word(name.bytes());
}

/// Appends a space and a user, or `:` and a group.
fn push_principal(line: &mut Line, who: &Principal)
    requires { length line.old + 40 < 512 }
    ensures { line.new ≡ line.old ++ 32 ∷ principal_text who.now }
{
    let text = Line::naming(who);
    line.push_word(text.bytes());
}

#[tactic(auto, unfolding(crate::specs::Lines::write_word))]
fn word_of_write(write: Write) -> &'static [u8]
    ensures text { result.now ≡ lines.write_word write }
    ensures length { length result.now ≤ 11 }
{
    match write {
        Write::On => b"on",
        Write::Off => b"off",
        Write::Remove => b"remove",
        Write::DefaultOff => b"default-off",
        Write::DefaultOn => b"default-on",
    }
}

#[tactic(auto, unfolding(crate::specs::Lines::wrote_word))]
fn word_of_outcome(outcome: Wrote) -> &'static [u8]
    ensures text { result.now ≡ wrote_word outcome }
    ensures length { length result.now ≤ 6 }
{
    match outcome {
        Wrote::Done => b"done",
        Wrote::Gone => b"gone",
        Wrote::Failed => b"failed",
    }
}

#[tactic(auto, unfolding(crate::specs::Lines::saved_word))]
fn word_of_save(saved: Saved) -> &'static [u8]
    ensures text { result.now ≡ saved_word saved }
    ensures length { length result.now ≤ 6 }
{
    match saved {
        Saved::Done => b"done",
        Saved::Failed(_) => b"failed",
        Saved::Memory => b"memory",
    }
}

#[tactic(auto, unfolding(crate::specs::Lines::change_word))]
fn word_of_change(change: RuleChange) -> &'static [u8]
    ensures text { result.now ≡ change_word change }
    ensures length { length result.now ≤ 7 }
{
    match change {
        RuleChange::Added => b"added",
        RuleChange::Removed => b"removed",
        RuleChange::Changed => b"changed",
    }
}

/// Appends a cause's words.
#[tactic(auto, unfolding(crate::specs::Lines::cause_words))]
fn push_cause(line: &mut Line, cause: Cause)
    requires { length line.old + 60 < 512 }
    ensures { line.new ≡ and_words line.old (cause_words cause) }
{
    match cause {
        Cause::Rule(id) => {
            line.push_word(b"rule");
            line.push_number(id);
        }
        Cause::Implicit => line.push_word(b"implicit"),
        Cause::Present => line.push_word(b"present"),
        Cause::Keep => line.push_word(b"keep"),
        Cause::Inserted => line.push_word(b"inserted"),
        Cause::Malformed { kind, place } => {
            line.push_word(b"malformed");
            line.push_number(kind as u64);
            line.push_number(place);
        }
        Cause::Order(who) => {
            line.push_word(b"order");
            push_principal(line, &who);
        }
    }
}

/// Appends a fault's words.
#[tactic(auto, unfolding(crate::specs::Lines::fault_words))]
fn push_fault(line: &mut Line, fault: Fault)
    requires { length line.old + 60 < 512 }
    ensures { line.new ≡ and_words line.old (fault_words fault) }
{
    match fault {
        Fault::Call(failed) => {
            line.push_word(b"fault");
            line.push_number(failed.call);
            line.push_number(failed.count);
        }
        Fault::Memory => line.push_word(b"memory"),
    }
}

/// A line that begins with a word, a device's number and its name.
fn of_device(word: &[u8], number: u64, name: &NodeName) -> Line
    requires { length word.now ≤ 10 }
    ensures text { result ≡ and_words word.now (decimal number ∷ name.now ∷ []) }
    ensures length { length result ≤ 63 }
{
    let mut line = Line::of(word);
    line.push_number(number);
    push_name(&mut line, name);
    line
}

fn line_of_event(number: u64, moment: Moment) -> Line
    ensures { result ≡ and_words (codes "event")
        (decimal number ∷ codes "sweep" ∷ decimal moment.0 ∷ []) }
{
    let mut line = Line::of(b"event");
    line.push_number(number);
    line.push_word(b"sweep");
    line.push_number(moment.0);
    line
}

fn line_of_order(number: u64, moment: Moment, who: &Principal) -> Line
    ensures { result ≡ and_words (codes "event")
        (decimal number ∷ codes "order" ∷ decimal moment.0 ∷ principal_text who.now ∷ []) }
{
    let mut line = Line::of(b"event");
    line.push_number(number);
    line.push_word(b"order");
    line.push_number(moment.0);
    push_principal(&mut line, who);
    line
}

fn line_of_hint(number: u64, moment: Moment) -> Line
    ensures { result ≡ and_words (codes "event")
        (decimal number ∷ codes "hint" ∷ decimal moment.0 ∷ []) }
{
    let mut line = Line::of(b"event");
    line.push_number(number);
    line.push_word(b"hint");
    line.push_number(moment.0);
    line
}

/// A line that is two words.
fn of_words(first: &[u8], second: &[u8]) -> Line
    requires first { length first.now ≤ 10 }
    requires second { length second.now ≤ 10 }
    ensures { result ≡ and_words first.now (second.now ∷ []) }
{
    let mut line = Line::of(first);
    line.push_word(second);
    line
}

fn line_of_verdict(number: u64, name: &NodeName, verdict: Target, cause: Cause) -> Line
    ensures { result ≡ and_words (codes "judged")
        (decimal number ∷ name.now ∷ target_word verdict ∷ cause_words cause) }
{
    let mut line = of_device(b"judged", number, name);
    line.push_word(verdict.word());
    push_cause(&mut line, cause);
    line
}

fn line_of_intent(number: u64, name: &NodeName, write: Write) -> Line
    ensures { result ≡ and_words (codes "intent")
        (decimal number ∷ name.now ∷ lines.write_word write ∷ []) }
{
    let mut line = of_device(b"intent", number, name);
    line.push_word(word_of_write(write));
    line
}

fn line_of_outcome(number: u64, name: &NodeName, write: Write, outcome: Wrote) -> Line
    ensures { result ≡ and_words (codes "wrote")
        (decimal number ∷ name.now ∷ lines.write_word write ∷ wrote_word outcome ∷ []) }
{
    let mut line = of_device(b"wrote", number, name);
    line.push_word(word_of_write(write));
    line.push_word(word_of_outcome(outcome));
    line
}

fn line_of_unsettled(name: &NodeName, fault: Fault) -> Line
    ensures { result ≡ and_words (codes "unsettled") (name.now ∷ fault_words fault) }
{
    let mut line = Line::of(b"unsettled");
    push_name(&mut line, name);
    push_fault(&mut line, fault);
    line
}

fn line_of_all_unsettled(fault: Fault) -> Line
    ensures { result ≡ and_words (codes "unsettled") (codes "*" ∷ fault_words fault) }
{
    let mut line = Line::of(b"unsettled");
    line.push_word(b"*");
    push_fault(&mut line, fault);
    line
}

fn line_of_refused_hint(kind: u8, place: u64) -> Line
    ensures { result ≡ and_words (codes "hint")
        (codes "refused" ∷ decimal kind ∷ decimal place ∷ []) }
{
    let mut line = Line::of(b"hint");
    line.push_word(b"refused");
    line.push_number(kind as u64);
    line.push_number(place);
    line
}

fn line_of_change(change: RuleChange, id: u64) -> Line
    ensures { result ≡ and_words (codes "rules") (change_word change ∷ decimal id ∷ []) }
{
    let mut line = Line::of(b"rules");
    line.push_word(word_of_change(change));
    line.push_number(id);
    line
}

fn line_of_refusal(refusal: &Refusal) -> Line
    ensures { result ≡ and_words (codes "reply") (refusal_words refusal.now ∷ []) }
{
    let words = words_of(refusal);
    let mut line = Line::of(b"reply");
    line.push_word(words.bytes());
    line
}

fn line_of_parameter(parameter: Parameter) -> Line
    ensures { result ≡ and_words (codes "parameter")
        (parameter_name (parameter_set parameter) ∷ value_word parameter ∷ []) }
{
    let mut line = Line::of(b"parameter");
    line.push_word(parameter.name().word());
    line.push_word(parameter.value());
    line
}

/// A line that is a word and a number.
fn of_number(word: &[u8], number: u64) -> Line
    requires { length word.now ≤ 10 }
    ensures { result ≡ and_words word.now (decimal number ∷ []) }
{
    let mut line = Line::of(word);
    line.push_number(number);
    line
}

/// The line of an entry in the journal, without a newline. It takes no memory.
#[tactic(auto, unfolding(crate::specs::Lines::entry_line))]
pub fn line_of(entry: &Entry) -> Line
    ensures { result ≡ entry_line entry.now }
{
    match entry {
        Entry::Event { number, moment } => line_of_event(*number, *moment),
        Entry::Order {
            number,
            moment,
            who,
        } => line_of_order(*number, *moment, who),
        Entry::Hint { number, moment } => line_of_hint(*number, *moment),
        Entry::Save(saved) => of_words(b"save", word_of_save(*saved)),
        Entry::Judged {
            number,
            name,
            held: _,
            verdict,
            cause,
        } => line_of_verdict(*number, name, *verdict, *cause),
        Entry::Intent {
            number,
            name,
            write,
        } => line_of_intent(*number, name, *write),
        Entry::Wrote {
            number,
            name,
            write,
            outcome,
        } => line_of_outcome(*number, name, *write, *outcome),
        Entry::Gone { number, name } => of_device(b"gone", *number, name),
        Entry::Unsettled { name, fault } => line_of_unsettled(name, *fault),
        Entry::UnsettledAll { fault } => line_of_all_unsettled(*fault),
        Entry::HintRefused { kind, place } => line_of_refused_hint(*kind, *place),
        Entry::Rules { change, id } => line_of_change(*change, *id),
        Entry::Parameter(parameter) => line_of_parameter(*parameter),
        Entry::Reply(Ok(())) => of_words(b"reply", b"ok"),
        Entry::Reply(Err(refusal)) => line_of_refusal(refusal),
        Entry::Dropped { member } => of_number(b"dropped", *member as u64),
        Entry::End { number } => of_number(b"end", *number),
    }
}
