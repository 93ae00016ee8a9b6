// A machine that takes lines, and writes text.
ghost use Rattle.std.specs.Prelude.{◌≡◌, ◌≤◌, ℕ, List, Option, Some};
ghost use Rattle.ug_types.specs.Ends.{Rose};
ghost use Rattle.ug_command_io.specs.Fold.{LineRefusal, LineOutcome};
ghost use Rattle.ug_command_io.specs.Refusals.{fault_in};
ghost use Rattle.ug_command_io.specs.Runs.{Steps, Closes};

use std::alloc::Global;
use ug_types::Sink;

/// How a step ended.
#[derive(Clone, Copy)]
pub enum Ran {
    Done,
    /// The line isn't one that may stand there.
    Bad,
    /// What the line would start is past a limit.
    TooLong,
    /// A part of the text was written, up to where the sink failed.
    SinkFailed,
    /// Nothing was written.
    Memory,
}

/// A machine over a world that is lent to it.
pub trait Machine<W> {
    /// What it knows between two lines.
    ghost State: { Type 0 };

    ghost state: { Self → State };

    /// What a line writes, and the machine and the world that it leaves.
    ghost step_of: { State × W → List ℕ → LineOutcome (State × W) };

    /// What is written behind the last line, unless more lines are wanted.
    ghost closing: { State × W → Option (List ℕ) };

    /// What joins a machine and its world before each line.
    ghost keeps: { State → W → Type 0 };

    /// What speaks against a line that is refused, whatever it comes to by `step_of`.
    ghost because: { State × W → List ℕ → LineRefusal → Type 0 };

    /// What is so of a line that it takes, whatever that comes to by `step_of`.
    ghost holds: { State × W → List ℕ → Type 0 };

    /// Takes a line, and writes its text.
    fn step<K: Sink>(&mut self, alloc: Global, world: &mut W, line: &[u8], out: &mut K) -> Ran
        requires { keeps (state self.old) world.old }
        ensures ran { Steps (step_of (state self.old, world.old) line.now)
            (state self.new, world.new) (K.held out.old) (K.held out.new) result }
        ensures kept { result ≡ Ran.Done → keeps (state self.new) world.new }
        ensures why { (fault : LineRefusal) → fault_in result ≡ Some fault
            → because (state self.old, world.old) line.now fault }
        ensures taken { result ≡ Ran.Done → holds (state self.old, world.old) line.now }
        ensures counted { K.faults out.old ≤ K.faults out.new }
        ensures cause { result ≡ Ran.SinkFailed → Rose (K.faults out.old) (K.faults out.new) };

    /// Writes the text behind the last line.
    fn finish<K: Sink>(&self, alloc: Global, world: &W, out: &mut K) -> Ran
        ensures ran { Closes (closing (state self.now, world.now)) (K.held out.old)
            (K.held out.new) result }
        ensures counted { K.faults out.old ≤ K.faults out.new }
        ensures cause { result ≡ Ran.SinkFailed → Rose (K.faults out.old) (K.faults out.new) };
}
