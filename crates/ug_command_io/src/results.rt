// How a command ends, and the line that it writes then.
ghost use Rattle.std.specs.Prelude.{◌≡◌, ◌≢◌, ◌≤◌};
ghost use Rattle.ug_types.specs.Ends.{Rose};
ghost use Rattle.ug_command_io.specs.Runs.{SaysFault};
ghost use Rattle.ug_command_io.specs.Statuses.{status_of};
ghost use Rattle.ug_command_io.specs.WholeInputs.{input_fault_line, fault_end};

use crate::read::InputFault;
use ug_types::{Put, Sink};

/// How a call ended.
#[derive(Clone, Copy)]
pub enum Ended {
    /// All was read and written.
    Done,
    /// A line was bad or past a limit, or the text ended too early.
    Bad,
    /// What a line would start is past a limit.
    TooLong,
    /// The source failed.
    ReadFault,
    /// The sink failed. Nothing more was written.
    WriteFault,
    Memory,
}

/// Writes a line, by one call of the sink, and ends so; `WriteFault` where that call failed.
pub fn write_result<K: Sink>(out: &mut K, words: &[u8], ended: Ended) -> Ended
    ensures told { SaysFault (K.held out.old) (K.held out.new) words.now ended result }
    ensures counted { K.faults out.old ≤ K.faults out.new }
    ensures cause { ended ≢ Ended.WriteFault → result ≡ Ended.WriteFault
        → Rose (K.faults out.old) (K.faults out.new) }
{
    match out.put(words) {
        Put::Done => ended,
        Put::Failed => Ended::WriteFault,
    }
}

/// Writes the fault line of an input that wasn't read whole.
pub fn refuse_input<K: Sink>(out: &mut K, fault: InputFault) -> Ended
    ensures told { SaysFault (K.held out.old) (K.held out.new) (input_fault_line fault)
        (fault_end fault) result }
    ensures cause { result ≡ Ended.WriteFault → Rose (K.faults out.old) (K.faults out.new) }
{
    match fault {
        InputFault::TooLong => write_result(out, b"input too long\n", Ended::TooLong),
        InputFault::Failed => write_result(out, b"read fault\n", Ended::ReadFault),
        InputFault::Memory => write_result(out, b"no memory\n", Ended::Memory),
    }
}

/// The exit status of an end.
pub fn status(ended: Ended) -> u8
    ensures { result ≡ status_of ended }
{
    match ended {
        Ended::Done => 0,
        Ended::Bad => 2,
        Ended::TooLong => 2,
        Ended::ReadFault => 4,
        Ended::WriteFault => 5,
        Ended::Memory => 6,
    }
}
