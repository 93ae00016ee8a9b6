// The run of a script by single lines.
ghost use Rattle.std.specs.Prelude.{◌≡◌, ◌≢◌, ◌≤◌, ℕ, true, List, None, Option, Some};
ghost use Rattle.ug_command_io.specs.Fold as fold;
ghost use Rattle.ug_types.specs.Ends.{Rose};
ghost use Rattle.ug_command_io.specs.Runs.{Closes};
ghost use Rattle.ug_script.specs.Generating as generating;
ghost use Rattle.ug_script.specs.Generating.{generate_end};
ghost use Rattle.ug_steps.specs.Grammar.{step_of_line};
ghost use Rattle.ug_script.specs.LinesRead.{LineReads};
ghost use Rattle.ug_script.specs.Script.{Script};
ghost use Rattle.ug_script.specs.Replay.{StartsAgain, TakesLine, runner_state, script_end, script_step};

use crate::interpreter::Interpreter;
use std::alloc::Global;
use ug_command_io::{Ran, is_within};
use ug_sysfs::SimKernel;
use ug_types::Sink;

/// The run of a script whose lines are handed to it one by one, without their newlines. It takes 1,048,576 lines of at most
/// 1,048,576 bytes. After an answer other than `Done` each later call gives the same answer and changes nothing.
#[derive(Drop)]
pub struct Runner {
    alloc: Global,
    interpreter: Interpreter,
    lines: u64,
    so_far: Ran,
}

impl Runner {
    /// No line was taken. It takes no memory.
    pub fn new(alloc: Global) -> Runner
        ensures { runner_state result ≡ record { script = None; lines = 0; so_far = Ran.Done } }
    {
        Runner {
            alloc,
            interpreter: Interpreter::new(),
            lines: 0,
            so_far: Ran::Done,
        }
    }

    fn take<K: Sink>(&mut self, kernel: &mut SimKernel, line: &[u8], out: &mut K) -> Ran
        requires { self.old.so_far ≡ Ran.Done }
        ensures taken { TakesLine script_step (runner_state self.old) kernel.old line.now
            (K.held out.old) (K.held out.new) result (runner_state self.new) kernel.new }
        ensures why { (s : Script) → (runner_state self.old).script ≡ Some s
            → fold.is_within self.old.lines line.now ≡ true
            → StartsAgain (step_of_line line.now) s kernel.old result }
        ensures readable { result ≡ Ran.Done
            → LineReads ((runner_state self.old).script, kernel.old) line.now }
        ensures counted { K.faults out.old ≤ K.faults out.new }
        ensures cause { result ≡ Ran.SinkFailed → Rose (K.faults out.old) (K.faults out.new) }
    {
        if !is_within(self.lines, line) {
            self.so_far = Ran::Bad;
            return Ran::Bad;
        }
        let ran = self.interpreter.take(self.alloc, kernel, line, out);
        self.so_far = ran;
        if matches!(ran, Ran::Done) {
            self.lines += 1;
        }
        ran
    }

    fn skim(&mut self, kernel: &mut SimKernel, line: &[u8]) -> Ran
        requires { self.old.so_far ≡ Ran.Done }
        ensures { (held : Option (List ℕ))
            → TakesLine generating.generate_step (runner_state self.old) kernel.old line.now
            held held result (runner_state self.new) kernel.new }
    {
        if !is_within(self.lines, line) {
            self.so_far = Ran::Bad;
            return Ran::Bad;
        }
        let ran = self.interpreter.skim(self.alloc, line, kernel);
        self.so_far = ran;
        if matches!(ran, Ran::Done) {
            self.lines += 1;
        }
        ran
    }

    /// Takes the next line, and writes what it adds to the output. The first call is given a new kernel, and each later one
    /// the same kernel.
    pub fn step<K: Sink>(&mut self, kernel: &mut SimKernel, line: &[u8], out: &mut K) -> Ran
        ensures taken { (runner_state self.old).so_far ≡ Ran.Done
            → TakesLine script_step (runner_state self.old) kernel.old line.now
            (K.held out.old) (K.held out.new) result (runner_state self.new) kernel.new }
        ensures why { (s : Script) → (runner_state self.old).so_far ≡ Ran.Done
            → (runner_state self.old).script ≡ Some s
            → fold.is_within (runner_state self.old).lines line.now ≡ true
            → StartsAgain (step_of_line line.now) s kernel.old result }
        ensures readable { (runner_state self.old).so_far ≡ Ran.Done → result ≡ Ran.Done
            → LineReads ((runner_state self.old).script, kernel.old) line.now }
        ensures counted { K.faults out.old ≤ K.faults out.new }
        ensures cause { (runner_state self.old).so_far ≡ Ran.Done → result ≡ Ran.SinkFailed
            → Rose (K.faults out.old) (K.faults out.new) }

        ensures ended { (runner_state self.old).so_far ≢ Ran.Done
            → result ≡ (runner_state self.old).so_far }
        ensures unchanged { (runner_state self.old).so_far ≢ Ran.Done → self.new ≡ self.old }
        ensures unmoved { (runner_state self.old).so_far ≢ Ran.Done → kernel.new ≡ kernel.old }
        ensures unwritten { (runner_state self.old).so_far ≢ Ran.Done → out.new ≡ out.old }
    {
        if matches!(self.so_far, Ran::Done) {
            self.take(kernel, line, out)
        } else {
            self.so_far
        }
    }

    /// Writes the last line, which tells the number of events. It is `Bad` where no line was taken.
    pub fn finish<K: Sink>(&mut self, out: &mut K) -> Ran
        ensures closed { (runner_state self.old).so_far ≡ Ran.Done
            → Closes (script_end (runner_state self.old).script) (K.held out.old)
            (K.held out.new) result }
        ensures counted { K.faults out.old ≤ K.faults out.new }
        ensures cause { (runner_state self.old).so_far ≡ Ran.Done → result ≡ Ran.SinkFailed
            → Rose (K.faults out.old) (K.faults out.new) }
        ensures kept { runner_state self.new ≡ record (runner_state self.old) { so_far = result } }

        ensures ended { (runner_state self.old).so_far ≢ Ran.Done
            → result ≡ (runner_state self.old).so_far }
        ensures unwritten { (runner_state self.old).so_far ≢ Ran.Done → out.new ≡ out.old }
    {
        match self.so_far {
            Ran::Done => {
                self.so_far = self.interpreter.close(out);
                self.so_far
            }
            other => other,
        }
    }

    /// Takes the next line as `generate_policy` does. The first call is given a new kernel, and each later one the same kernel.
    pub fn generate_step(&mut self, kernel: &mut SimKernel, line: &[u8]) -> Ran
        ensures taken { (held : Option (List ℕ)) → (runner_state self.old).so_far ≡ Ran.Done
            → TakesLine generating.generate_step (runner_state self.old) kernel.old line.now
            held held result (runner_state self.new) kernel.new }

        ensures ended { (runner_state self.old).so_far ≢ Ran.Done
            → result ≡ (runner_state self.old).so_far }
        ensures unchanged { (runner_state self.old).so_far ≢ Ran.Done → self.new ≡ self.old }
        ensures unmoved { (runner_state self.old).so_far ≢ Ran.Done → kernel.new ≡ kernel.old }
    {
        match self.so_far {
            Ran::Done => self.skim(kernel, line),
            other => other,
        }
    }

    /// Writes the rules of the devices that are there. It is `Bad` where no line was taken.
    pub fn generate_finish<K: Sink>(&mut self, kernel: &SimKernel, out: &mut K) -> Ran
        ensures closed { (runner_state self.old).so_far ≡ Ran.Done
            → Closes (generate_end ((runner_state self.old).script, kernel.now))
            (K.held out.old) (K.held out.new) result }
        ensures counted { K.faults out.old ≤ K.faults out.new }
        ensures cause { (runner_state self.old).so_far ≡ Ran.Done → result ≡ Ran.SinkFailed
            → Rose (K.faults out.old) (K.faults out.new) }
        ensures kept { runner_state self.new ≡ record (runner_state self.old) { so_far = result } }

        ensures ended { (runner_state self.old).so_far ≢ Ran.Done
            → result ≡ (runner_state self.old).so_far }
        ensures unwritten { (runner_state self.old).so_far ≢ Ran.Done → out.new ≡ out.old }
    {
        match self.so_far {
            Ran::Done => {
                self.so_far = self.interpreter.write_policy(self.alloc, kernel, out);
                self.so_far
            }
            other => other,
        }
    }
}
