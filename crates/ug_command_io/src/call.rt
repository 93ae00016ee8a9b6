// The call that reads a text and writes what its lines write.
ghost use Rattle.std.specs.Prelude.{◌≡◌, ◌≢◌, ◌≤◌, ◌+◌, ◌*◌, ◌++◌, ℕ, List, Some, [], ◌∷◌, length, vec_len};
ghost use Rattle.ug_types.specs.Ends.{Rose};
ghost use Rattle.ug_command_io.specs.Fold.{LineRefusal, Going, bad_line};
ghost use Rattle.ug_command_io.specs.Refusals.{HoldsOfEach, RefusesLines, fault_told};
ghost use Rattle.ug_command_io.specs.Runs.{ran_words, ended_of, SaysFault, Finishes, Replays};
ghost use Rattle.ug_command_io.specs.Statuses.{status_of, AnswersLines};
ghost use Rattle.ug_lines.specs.Lines.{last_line, lines_of};

use crate::feed::Splitter;
use crate::machine::{Machine, Ran};
use crate::results::{Ended, status, write_result};
use std::alloc::Global;
use ug_types::{Line, Sink, Source, Taken};

/// The fault line of line n.
#[tactic(auto, unfolding(crate::specs::Fold::bad_line))]
fn line_of_fault(n: u64) -> Line
    ensures { result ≡ bad_line n }
{
    let mut line = Line::of(b"bad script line ");
    line.push_decimal(n);
    line.push(b"\n");
    line
}

/// Ends as a step behind that many lines did, and writes its fault line.
fn conclude<K: Sink>(out: &mut K, ran: Ran, lines: u64) -> Ended
    requires { lines ≤ 1048576 }
    ensures told { SaysFault (K.held out.old) (K.held out.new) (ran_words ran lines)
        (ended_of ran) result }
    ensures not_read { result ≢ Ended.ReadFault }
    ensures counted { K.faults out.old ≤ K.faults out.new }
    ensures cause { ran ≢ Ran.SinkFailed → result ≡ Ended.WriteFault
        → Rose (K.faults out.old) (K.faults out.new) }
{
    match ran {
        Ran::Done => Ended::Done,
        Ran::Bad => write_result(out, line_of_fault(lines + 1).bytes(), Ended::Bad),
        Ran::TooLong => write_result(out, b"input too long\n", Ended::TooLong),
        Ran::SinkFailed => Ended::WriteFault,
        Ran::Memory => write_result(out, b"no memory\n", Ended::Memory),
    }
}

/// Takes a last line that lacks its newline, and writes what stands at the end.
fn finish<K: Sink, W, M: Machine<W>>(
    alloc: Global,
    splitter: &mut Splitter,
    out: &mut K,
    machine: &mut M,
    world: &mut W,
) -> Ended
    requires { M.keeps (M.state machine.old) world.old }
    ensures told { Finishes M.step_of M.closing splitter.old.line.items splitter.old.lines
        (M.state machine.old, world.old) (K.held out.old) (K.held out.new)
        (M.state machine.new, world.new) result }
    ensures why { (text : List ℕ) (fault : LineRefusal) → fault_told result ≡ Some fault
        → RefusesLines M.step_of M.closing M.because
        (Going splitter.old.lines text (M.state machine.old, world.old))
        (last_line splitter.old.line.items) fault }
    ensures taken { result ≡ Ended.Done → (text : List ℕ)
        → HoldsOfEach M.step_of M.holds
        (Going splitter.old.lines text (M.state machine.old, world.old))
        (last_line splitter.old.line.items) }
    ensures not_read { result ≢ Ended.ReadFault }
    ensures counted { K.faults out.old ≤ K.faults out.new }
    ensures cause { result ≡ Ended.WriteFault → Rose (K.faults out.old) (K.faults out.new) }
{
    match splitter.last(alloc, machine, world, out) {
        Ran::Done => {
            let ran = machine.finish(alloc, world, out);
            conclude(out, ran, splitter.lines)
        }
        other => conclude(out, other, splitter.lines),
    }
}

/// Reads a text to its end, hands each line to the machine, and writes the lines' text and a fault line.
/// A newline ends a line; the last line may lack it. There may be 1,048,576 lines of at most 1,048,576 bytes.
/// After a failed call of the sink nothing more is written.
pub fn replay<S: Source, K: Sink, W, M: Machine<W>>(
    alloc: Global,
    input: &mut S,
    out: &mut K,
    machine: &mut M,
    world: &mut W,
) -> Ended
    requires { M.keeps (M.state machine.old) world.old }
    ensures told { Replays M.step_of M.closing (M.state machine.old, world.old) (S.left input.old)
        (S.left input.new) (K.held out.old) (K.held out.new)
        (M.state machine.new, world.new) result }
    ensures why { (all : List ℕ) → S.left input.old ≡ Some all
        → (fault : LineRefusal) → fault_told result ≡ Some fault
        → RefusesLines M.step_of M.closing M.because
        (Going 0 [] (M.state machine.old, world.old)) (lines_of all) fault }
    ensures taken { (all : List ℕ) → S.left input.old ≡ Some all → result ≡ Ended.Done
        → HoldsOfEach M.step_of M.holds
        (Going 0 [] (M.state machine.old, world.old)) (lines_of all) }
    ensures read { result ≡ Ended.ReadFault → Rose (S.faults input.old) (S.faults input.new) }
    ensures written { result ≡ Ended.WriteFault → Rose (K.faults out.old) (K.faults out.new) }
{
    let mut splitter = Splitter::new(alloc);
    let mut piece = [0u8; 4096];
    'pieces: loop {
        match input.take(&mut piece) {
            Taken::Bytes(n) => match splitter.feed(alloc, machine, world, out, &piece[..n]) {
                Ran::Done => {}
                other => return conclude(out, other, splitter.lines),
            },
            Taken::End => return finish(alloc, &mut splitter, out, machine, world),
            Taken::Failed => return write_result(out, b"read fault\n", Ended::ReadFault),
        }
    }
}

/// The same as `replay`, with the exit status: 0, 2 for a refused line, 4 for a read fault, 5 for a write fault,
/// 6 for want of memory.
pub fn run<S: Source, K: Sink, W, M: Machine<W>>(
    alloc: Global,
    input: &mut S,
    out: &mut K,
    machine: &mut M,
    world: &mut W,
) -> u8
    requires { M.keeps (M.state machine.old) world.old }
    ensures answers { (all : List ℕ) (base : List ℕ) → S.left input.old ≡ Some all
        → K.held out.old ≡ Some base
        → AnswersLines M.step_of M.closing (
          M.state machine.old,
          world.old,
        ) all base (S.left input.new)
        (K.held out.new) (M.state machine.new, world.new) result }
    ensures refused { (all : List ℕ) → S.left input.old ≡ Some all → result ≡ 2
        → (fault : LineRefusal) × RefusesLines M.step_of M.closing M.because
        (Going 0 [] (M.state machine.old, world.old)) (lines_of all) fault }
    ensures taken { (all : List ℕ) → S.left input.old ≡ Some all → result ≡ 0
        → HoldsOfEach M.step_of M.holds
        (Going 0 [] (M.state machine.old, world.old)) (lines_of all) }
    ensures read { result ≡ 4 → Rose (S.faults input.old) (S.faults input.new) }
    ensures written { result ≡ 5 → Rose (K.faults out.old) (K.faults out.new) }
    ensures others { (ended : Ended) × (result ≡ status_of ended) }
{
    status(replay(alloc, input, out, machine, world))
}
