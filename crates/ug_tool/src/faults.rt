// Fault lines, and their statuses.
ghost use Rattle.std.specs.Prelude.{◌≡◌, ◌≢◌, ◌≤◌};
ghost use Rattle.ug_types.specs.Ends.{Rose};
ghost use Rattle.ug_tool.specs.Faults.{EndsIn, IsOutOfMemory, IsRefused};

use ug_arguments::WordsFault;
use ug_types::{Put, Sink};

/// Writes a fault line, and gives its status, or that of a failed write.
pub fn end_with<K: Sink>(out: &mut K, line: &[u8], status: u8) -> u8
    requires { status ≢ 5 }
    ensures ends { EndsIn line.now status (K.held out.old) (K.held out.new) result }
    ensures counted { K.faults out.old ≤ K.faults out.new }
    ensures cause { result ≡ 5 → Rose (K.faults out.old) (K.faults out.new) }
    ensures one { result ≢ 5 → result ≡ status }
{
    match out.put(line) {
        Put::Done => status,
        Put::Failed => 5,
    }
}

/// Ends where the words weren't read.
#[tactic(auto, unfolding(crate::specs::Faults::bad_words, ug_command_io::specs::Fold::no_memory))]
pub fn refuse<K: Sink>(out: &mut K, fault: WordsFault) -> u8
    ensures bad { fault ≡ WordsFault.Bad → IsRefused (K.held out.old) (K.held out.new) result }
    ensures memory { fault ≡ WordsFault.Memory
        → IsOutOfMemory (K.held out.old) (K.held out.new) result }
    ensures not_read { result ≢ 4 }
    ensures written { result ≡ 5 → Rose (K.faults out.old) (K.faults out.new) }
{
    match fault {
        WordsFault::Bad => end_with(out, b"bad words\n", 1),
        WordsFault::Memory => end_with(out, b"no memory\n", 6),
    }
}
