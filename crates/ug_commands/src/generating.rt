// The call that writes a script of random events.
ghost use Rattle.std.specs.Prelude.{◌≡◌, ◌≤◌, ◌<◌, ◌^◌, ◌++◌, length};
ghost use Rattle.ug_types.specs.Ends.{Puts, Rose};
ghost use Rattle.ug_commands.specs.GeneratedScripts.{generated_script, line_before, number_behind, opening_lines, sweep_line};

use crate::generating_lines::{line_before, opening_lines, push_sweep};
use ug_types::{Put, Sink};

fn number_behind(number: u64) -> u64
    requires { number < 2 ^ 32 }
    ensures is { result ≡ number_behind number }
    ensures below { result < 2 ^ 32 }
{
    (1_664_525 * number + 1_013_904_223) % 4_294_967_296
}

/// Writes what happens before an event, and its sweep.
fn put_event<K: Sink>(out: &mut K, number: u64, event: u64) -> Put
    requires { number < 2 ^ 32 }
    ensures put { Puts (K.held out.old) (K.held out.new)
        (line_before number ++ sweep_line event) result }
    ensures counted { K.faults out.old ≤ K.faults out.new }
    ensures cause { result ≡ Put.Failed → Rose (K.faults out.old) (K.faults out.new) }
{
    let mut line = line_before(number);
    push_sweep(&mut line, event);
    out.put(line.bytes())
}

fn put_opening<K: Sink>(out: &mut K) -> Put
    ensures put { Puts (K.held out.old) (K.held out.new) opening_lines result }
    ensures counted { K.faults out.old ≤ K.faults out.new }
    ensures cause { result ≡ Put.Failed → Rose (K.faults out.old) (K.faults out.new) }
{
    out.put(opening_lines().bytes())
}

/// Writes a script of so many events, each a sweep behind one thing that happens: a device is plugged at a port of one
/// hub, or the device there goes, or a call of the event fails. Which it is, and where, is fixed by the start. Takes no
/// memory. After a failed call of the sink nothing more is written.
pub fn make_script<K: Sink>(events: u32, start: u32, out: &mut K) -> Put
    ensures put { Puts (K.held out.old) (K.held out.new) (generated_script events start) result }
    ensures counted { K.faults out.old ≤ K.faults out.new }
    ensures cause { result ≡ Put.Failed → Rose (K.faults out.old) (K.faults out.new) }
{
    if let Put::Failed = put_opening(out) {
        return Put::Failed;
    }
    let mut number = start as u64;
    for event in 0..events as u64 {
        number = number_behind(number);
        if let Put::Failed = put_event(out, number, event + 1) {
            return Put::Failed;
        }
    }
    Put::Done
}
