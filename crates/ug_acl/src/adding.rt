// The call that reads an access text and writes it with what is asked for.
ghost use Rattle.std.specs.Prelude.{◌≡◌, ◌≢◌, ◌≤◌, ℕ, List, Option, Some, length};
ghost use Rattle.std.specs.Io.KnownBytes.{IsAtEnd};
ghost use Rattle.ug_types.specs.Ends.{Rose};
ghost use Rattle.ug_types.specs.Limits.{text_limit};
ghost use Rattle.ug_command_io.specs.Statuses.{status_of};
ghost use Rattle.ug_command_io.specs.declared.results.Ended.{Ended};
ghost use Rattle.ug_acl.specs.Adding.{AnswersAdding, CompletesAdding, TellsAdding};

use crate::asked::Asked;
use crate::fault_line::line_of_bad_access;
use crate::uniting::unite;
use std::alloc::Global;
use ug_command_io::{Ended, read_input, refuse_input, status, write_result};
use ug_types::{FileFault, Sink, Source, TEXT_LIMIT};

/// Writes the bytes of an input, whose end was reached, with what is asked for.
fn write_united<K: Sink>(alloc: Global, asked: &Asked, bytes: &[u8], out: &mut K) -> Ended
    requires { length bytes.now ≤ text_limit }
    ensures told { (left : Option (List ℕ)) → IsAtEnd left
        → TellsAdding asked.now bytes.now left (K.held out.old) (K.held out.new) result }
    ensures not_read { result ≢ Ended.ReadFault }
    ensures cause { result ≡ Ended.WriteFault → Rose (K.faults out.old) (K.faults out.new) }
{
    match unite(alloc, asked, bytes) {
        Ok(text) => write_result(out, text.bytes(), Ended::Done),
        Err(FileFault::Bad(fault)) => write_result(
            out,
            line_of_bad_access(fault).bytes(),
            Ended::Bad,
        ),
        Err(FileFault::Memory) => write_result(out, b"no memory\n", Ended::Memory),
    }
}

fn add_to_input<S: Source, K: Sink>(
    alloc: Global,
    asked: &Asked,
    input: &mut S,
    out: &mut K,
) -> Ended
    ensures told { CompletesAdding asked.now (S.left input.old) (S.left input.new) (K.held out.old)
        (K.held out.new) result }
    ensures read { result ≡ Ended.ReadFault → Rose (S.faults input.old) (S.faults input.new) }
    ensures written { result ≡ Ended.WriteFault → Rose (K.faults out.old) (K.faults out.new) }
{
    match read_input(alloc, input, TEXT_LIMIT) {
        Ok(text) => write_united(alloc, asked, text.bytes(), out),
        Err(fault) => refuse_input(out, fault),
    }
}

/// Reads the text of an access file, at most 67,108,864 bytes, as usbguard-daemon.conf(5) has them, and writes the text of
/// one that grants the same and what is asked for: a line for each section in which there is something. An empty text
/// grants nothing. The status is 0; 2 where the text has a bad line, with `bad access line N kind K place P` of the first
/// one, or more bytes; 4 for a read fault; 5 for a write fault; 6 for want of memory. With 2, 4 and 6 a fault line is all
/// that is written.
pub fn add_user<S: Source, K: Sink>(alloc: Global, asked: &Asked, input: &mut S, out: &mut K) -> u8
    ensures answers { (all : List ℕ) (base : List ℕ) → S.left input.old ≡ Some all
        → K.held out.old ≡ Some base
        → AnswersAdding asked.now all base (S.left input.new) (K.held out.new) result }
    ensures read { result ≡ 4 → Rose (S.faults input.old) (S.faults input.new) }
    ensures written { result ≡ 5 → Rose (K.faults out.old) (K.faults out.new) }
    ensures others { (ended : Ended) × (result ≡ status_of ended) }
{
    status(add_to_input(alloc, asked, input, out))
}
