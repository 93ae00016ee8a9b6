// The machine that takes a script's lines.
ghost use Rattle.std.specs.Prelude.{◌≡◌, ◌≤◌, ◌++◌, ◌⊎◌, ℕ, List, Option, None, Some, IfOk};
ghost use Rattle.ug_command_io.specs.Fold.{of_first};
ghost use Rattle.ug_command_io.specs.Runs.{Closes, Steps};
ghost use Rattle.ug_lines.specs.Lines.{lines_of};
ghost use Rattle.ug_types.specs.Ends.{Rose};
ghost use Rattle.ug_script.specs.Script.{Script};
ghost use Rattle.ug_sysfs.specs.World.{World};
ghost use Rattle.ug_script.specs.Against.{LacksNumbers, SpeaksAgainst};
ghost use Rattle.ug_script.specs.Generating.{generate_end, generate_step};
ghost use Rattle.ug_steps.specs.Grammar.{step_of_line};
ghost use Rattle.ug_script.specs.LinesRead.{LineReads};
ghost use Rattle.ug_script.specs.Replay.{Begins, StartsAgain, done_line, first_step, has_begun, interpreter_state, outcome_text, script_step, script_end};
ghost use Rattle.ug_script.specs.Summing.{with_lines};
ghost use Rattle.ug_script.specs.Taking.{StepsToTell, ran_of, reported_by};

use crate::progress::Running;
use crate::taken::{Taken, silently};
use crate::text::put;
use crate::totals::Totals;
use std::alloc::Global;
use std::mem::replace;
use ug_command_io::{Machine, Ran};
use ug_generate::generated_text;
use ug_steps::StepFault;
use ug_sysfs::SimKernel;
use ug_types::{Line, NoMemory, Sink};

/// A machine of `ug_command_io` that takes a script's lines, over the kernel that it is lent. It keeps neither limits nor its end:
/// who hands it lines does.
#[derive(Drop)]
pub struct Interpreter {
    running: Option<Running>,
}

impl Interpreter {
    /// No line was taken. It takes no memory.
    pub fn new() -> Interpreter
        ensures { interpreter_state result ≡ None }
    {
        Interpreter { running: None }
    }

    /// Drops it. A crate that calls this need not prove how its parts are dropped.
    pub fn discard(self) {
        if let Some(running) = self.running {
            running.discard();
        }
    }

    /// Whether the first line was taken.
    pub fn has_begun(&self) -> bool
        ensures { result ≡ has_begun (interpreter_state self.now) }
    {
        self.running.is_some()
    }

    /// StepsToTell the first line, and writes nothing.
    fn take_header(&mut self, alloc: Global, line: &[u8]) -> Ran
        requires { interpreter_state self.old ≡ None }
        ensures silent { ¬ (result ≡ Ran.SinkFailed) }
        ensures ran { (w : World) (held : Option (List ℕ)) → Steps (first_step line.now w)
            (interpreter_state self.new, w) held held result }
    {
        match begin(alloc, line) {
            Ok(running) => {
                if let Some(earlier) = replace(&mut self.running, Some(running)) {
                    earlier.discard();
                }
                Ran::Done
            }
            Err(StepFault::Bad) => Ran::Bad,
            Err(StepFault::Memory) => Ran::Memory,
        }
    }

    /// StepsToTell a line. What there is to write of it isn't written.
    pub fn take_line(&mut self, alloc: Global, kernel: &mut SimKernel, line: &[u8]) -> Taken
        ensures ran { StepsToTell (script_step (interpreter_state self.old, kernel.old) line.now)
            (interpreter_state self.new, kernel.new) (reported_by self.new.running) result }
        ensures why { (s : Script) → interpreter_state self.old ≡ Some s
            → StartsAgain (step_of_line line.now) s kernel.old (ran_of result) }
        ensures readable { ran_of result ≡ Ran.Done
            → LineReads (interpreter_state self.old, kernel.old) line.now }
    {
        if let Some(running) = &mut self.running {
            return running.line(alloc, line, kernel);
        }
        silently(self.take_header(alloc, line))
    }

    /// Writes the text of the last event, and another one behind it.
    fn write_event<K: Sink>(&self, alloc: Global, passed: &[u8], out: &mut K) -> Ran
        ensures ran { Closes (Some (outcome_text (reported_by self.now.running) ++ passed.now))
            (K.held out.old) (K.held out.new) result }
        ensures taken { (¬ (result ≡ Ran.Bad)) × (¬ (result ≡ Ran.TooLong)) }
        ensures counted { K.faults out.old ≤ K.faults out.new }
        ensures cause { result ≡ Ran.SinkFailed → Rose (K.faults out.old) (K.faults out.new) }
    {
        let Some(running) = &self.running else {
            return put(out, passed);
        };
        match running.event_text(alloc, passed) {
            Ok(text) => put(out, text.as_slice()),
            Err(_) => Ran::Memory,
        }
    }

    /// Numbers with those of the text of the last event, and of another one behind it.
    pub fn event_totals(
        &self,
        alloc: Global,
        totals: Totals,
        passed: &[u8],
    ) -> Result<Totals, NoMemory>
        ensures { IfOk result (λ t. t
            ≡ with_lines (lines_of (outcome_text (reported_by self.now.running) ++ passed.now))
            totals) }
    {
        match &self.running {
            None => Ok(totals.with_text(passed)),
            Some(running) => running.event_totals(alloc, totals, passed),
        }
    }

    /// StepsToTell a line, and writes its text.
    pub fn take<K: Sink>(
        &mut self,
        alloc: Global,
        kernel: &mut SimKernel,
        line: &[u8],
        out: &mut K,
    ) -> Ran
        ensures ran { Steps (script_step (interpreter_state self.old, kernel.old) line.now)
            (interpreter_state self.new, kernel.new) (K.held out.old) (K.held out.new) result }
        ensures why { (s : Script) → interpreter_state self.old ≡ Some s
            → StartsAgain (step_of_line line.now) s kernel.old result }
        ensures readable { result ≡ Ran.Done
            → LineReads (interpreter_state self.old, kernel.old) line.now }
        ensures counted { K.faults out.old ≤ K.faults out.new }
        ensures cause { result ≡ Ran.SinkFailed → Rose (K.faults out.old) (K.faults out.new) }
    {
        match self.take_line(alloc, kernel, line) {
            Taken::Silent => Ran::Done,
            Taken::Event(passed) => self.write_event(alloc, passed.as_slice(), out),
            Taken::Text(text) => put(out, text.as_slice()),
            Taken::Bad => Ran::Bad,
            Taken::TooLong => Ran::TooLong,
            Taken::Memory => Ran::Memory,
        }
    }

    /// Writes the last line, which tells the number of events.
    pub fn close<K: Sink>(&self, out: &mut K) -> Ran
        ensures ran { Closes (script_end (interpreter_state self.now)) (K.held out.old)
            (K.held out.new) result }
        ensures counted { K.faults out.old ≤ K.faults out.new }
        ensures cause { result ≡ Ran.SinkFailed → Rose (K.faults out.old) (K.faults out.new) }
    {
        match &self.running {
            None => Ran::Bad,
            Some(running) => put(out, done(running.events()).bytes()),
        }
    }

    /// StepsToTell a line for the devices that are to have rules. It writes nothing.
    pub fn skim(&mut self, alloc: Global, line: &[u8], kernel: &mut SimKernel) -> Ran
        ensures silent { ¬ (result ≡ Ran.SinkFailed) }
        ensures ran { (held : Option (List ℕ))
            → Steps (generate_step (interpreter_state self.old, kernel.old) line.now)
            (interpreter_state self.new, kernel.new) held held result }
    {
        if let Some(running) = &mut self.running {
            return running.skim(alloc, line, kernel);
        }
        self.take_header(alloc, line)
    }

    /// Writes the rules of the devices that are there.
    pub fn write_policy<K: Sink>(&self, alloc: Global, kernel: &SimKernel, out: &mut K) -> Ran
        ensures ran { Closes (generate_end (interpreter_state self.now, kernel.now))
            (K.held out.old) (K.held out.new) result }
        ensures counted { K.faults out.old ≤ K.faults out.new }
        ensures cause { result ≡ Ran.SinkFailed → Rose (K.faults out.old) (K.faults out.new) }
    {
        let Some(running) = &self.running else {
            return Ran::Bad;
        };
        match generated_text(alloc, kernel.devices(), running.names_ports()) {
            Ok(text) => put(out, text.bytes()),
            Err(_) => Ran::Memory,
        }
    }
}

/// The first line is the header.
#[tactic(auto, unfolding(crate::specs::Replay::header))]
fn begin(alloc: Global, line: &[u8]) -> Result<Running, StepFault>
    ensures { Begins line.now result }
{
    if line != b"usbguard-replay 1".as_slice() {
        return Err(StepFault::Bad);
    }
    match Running::start(alloc) {
        Ok(running) => Ok(running),
        Err(_) => Err(StepFault::Memory),
    }
}

fn done(events: u64) -> Line
    ensures { result ≡ done_line events }
{
    let mut line = Line::of(b"done ");
    line.push_decimal(events);
    line.push(b"\n");
    line
}

impl Machine<SimKernel> for Interpreter {
    ghost State = { Option Script };

    ghost state = { interpreter_state };

    ghost step_of = { script_step };

    ghost closing = { of_first script_end };

    ghost keeps = { λ m w. Unit {0} };

    ghost because = { λ p line fault. SpeaksAgainst p line fault ⊎ LacksNumbers p line };

    ghost holds = { LineReads };

    fn step<K: Sink>(
        &mut self,
        alloc: Global,
        world: &mut SimKernel,
        line: &[u8],
        out: &mut K,
    ) -> Ran {
        self.take(alloc, world, line, out)
    }

    fn finish<K: Sink>(&self, _alloc: Global, _world: &SimKernel, out: &mut K) -> Ran {
        self.close(out)
    }
}
