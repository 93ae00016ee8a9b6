// The call that reads rules and writes how many there are.
ghost use Rattle.std.specs.Prelude.{◌≡◌, ◌≢◌, ◌≤◌, ℕ, List, Option, Some, length};
ghost use Rattle.std.specs.Io.KnownBytes.{IsAtEnd};
ghost use Rattle.ug_types.specs.Ends.{Rose};
ghost use Rattle.ug_types.specs.Limits.{text_limit};
ghost use Rattle.ug_command_io.specs.declared.results.Ended.{Ended};
ghost use Rattle.ug_commands.specs.Checking.{AnswersCheck, CompletesCheck, TellsCheck, check_status};

use crate::checking_lines::{line_of_bad_rules, line_of_count};
use std::alloc::Global;
use ug_command_io::{Ended, read_input, refuse_input, write_result};
use ug_rule::count_rules;
use ug_types::{FileFault, Sink, Source, TEXT_LIMIT};

/// Writes what the bytes of an input say, whose end was reached.
fn write_count<K: Sink>(alloc: Global, bytes: &[u8], out: &mut K) -> Ended
    requires { length bytes.now ≤ text_limit }
    ensures told { (left : Option (List ℕ)) → IsAtEnd left
        → TellsCheck bytes.now left (K.held out.old) (K.held out.new) result }
    ensures not_read { result ≢ Ended.ReadFault }
    ensures cause { result ≡ Ended.WriteFault → Rose (K.faults out.old) (K.faults out.new) }
{
    match count_rules(alloc, bytes) {
        Ok(count) => write_result(out, line_of_count(count).bytes(), Ended::Done),
        Err(FileFault::Bad(fault)) => write_result(
            out,
            line_of_bad_rules(fault).bytes(),
            Ended::Bad,
        ),
        Err(FileFault::Memory) => write_result(out, b"no memory\n", Ended::Memory),
    }
}

fn check_input<S: Source, K: Sink>(alloc: Global, input: &mut S, out: &mut K) -> Ended
    ensures told { CompletesCheck (S.left input.old) (S.left input.new) (K.held out.old)
        (K.held out.new) result }
    ensures read { result ≡ Ended.ReadFault → Rose (S.faults input.old) (S.faults input.new) }
    ensures written { result ≡ Ended.WriteFault → Rose (K.faults out.old) (K.faults out.new) }
{
    match read_input(alloc, input, TEXT_LIMIT) {
        Ok(text) => write_count(alloc, text.bytes(), out),
        Err(fault) => refuse_input(out, fault),
    }
}

pub fn status(ended: Ended) -> u8
    ensures { result ≡ check_status ended }
{
    match ended {
        Ended::Done => 0,
        Ended::Bad => 3,
        Ended::TooLong => 2,
        Ended::ReadFault => 4,
        Ended::WriteFault => 5,
        Ended::Memory => 6,
    }
}

/// Reads a text of rules, at most 67,108,864 bytes, as usbguard-rules.conf(5) has them, and writes `rules N`, where N is
/// their number; blank lines and comments are no rules. The status is 0; 2 where the text has more bytes; 3 where it has a
/// bad line, with `bad rules line N kind K place P` of the first one; 4 for a read fault; 5 for a write fault; 6 for want
/// of memory. One line is all that is written.
pub fn check_rules<S: Source, K: Sink>(alloc: Global, input: &mut S, out: &mut K) -> u8
    ensures answers { (all : List ℕ) (base : List ℕ) → S.left input.old ≡ Some all
        → K.held out.old ≡ Some base
        → AnswersCheck all base (S.left input.new) (K.held out.new) result }
    ensures read { result ≡ 4 → Rose (S.faults input.old) (S.faults input.new) }
    ensures written { result ≡ 5 → Rose (K.faults out.old) (K.faults out.new) }
    ensures others { (ended : Ended) × (result ≡ check_status ended) }
{
    status(check_input(alloc, input, out))
}
