// The call that reads descriptors and writes what they say.
ghost use Rattle.std.specs.Prelude.{◌≡◌, ◌≢◌, ◌≤◌, ◌+◌, ℕ, List, Option, Some, length};
ghost use Rattle.std.specs.Io.KnownBytes.{IsAtEnd};
ghost use Rattle.ug_types.specs.Ends.{Rose};
ghost use Rattle.ug_types.specs.Limits.{text_limit};
ghost use Rattle.ug_command_io.specs.Statuses.{status_of};
ghost use Rattle.ug_command_io.specs.declared.results.Ended.{Ended};
ghost use Rattle.ug_commands.specs.Listing.{AnswersListing, CompletesListing, TellsListing};

use crate::listing_lines::line_of_malformed;
use crate::writing::write_listing;
use std::alloc::Global;
use ug_command_io::{Ended, read_input, refuse_input, status, write_result};
use ug_record::{DescrFault, decode};
use ug_types::{Put, Sink, Source, TEXT_LIMIT};

/// Writes what the bytes of an input say, whose end was reached.
fn write_descriptors<K: Sink>(alloc: Global, bytes: &[u8], out: &mut K) -> Ended
    requires { length bytes.now ≤ text_limit }
    ensures told { (left : Option (List ℕ)) → IsAtEnd left
        → TellsListing bytes.now left (K.held out.old) (K.held out.new) result }
    ensures not_read { result ≢ Ended.ReadFault }
    ensures cause { result ≡ Ended.WriteFault → Rose (K.faults out.old) (K.faults out.new) }
{
    match decode(alloc, bytes) {
        Ok(descr) => match write_listing(out, &descr) {
            Put::Done => Ended::Done,
            Put::Failed => Ended::WriteFault,
        },
        Err(DescrFault::Malformed { kind, place }) => {
            write_result(out, line_of_malformed(kind, place).bytes(), Ended::Bad)
        }
        Err(DescrFault::Memory) => write_result(out, b"no memory\n", Ended::Memory),
    }
}

fn list_input<S: Source, K: Sink>(alloc: Global, input: &mut S, out: &mut K) -> Ended
    ensures told { CompletesListing (S.left input.old) (S.left input.new) (K.held out.old)
        (K.held out.new) result }
    ensures read { result ≡ Ended.ReadFault → Rose (S.faults input.old) (S.faults input.new) }
    ensures written { result ≡ Ended.WriteFault → Rose (K.faults out.old) (K.faults out.new) }
{
    match read_input(alloc, input, TEXT_LIMIT) {
        Ok(text) => write_descriptors(alloc, text.bytes(), out),
        Err(fault) => refuse_input(out, fault),
    }
}

/// Reads the bytes of the file `descriptors` of a device, at most 67,108,864, and writes a line for the device, for each
/// configuration and for each interface descriptor, in file order: USB 2.0, 9.6. The status is 0; 2 where the bytes are
/// malformed or too many; 4 for a read fault; 5 for a write fault; 6 for want of memory. With 2, 4 and 6 a fault line is all
/// that is written.
pub fn list_descriptors<S: Source, K: Sink>(alloc: Global, input: &mut S, out: &mut K) -> u8
    ensures answers { (all : List ℕ) (base : List ℕ) → S.left input.old ≡ Some all
        → K.held out.old ≡ Some base
        → AnswersListing all base (S.left input.new) (K.held out.new) result }
    ensures read { result ≡ 4 → Rose (S.faults input.old) (S.faults input.new) }
    ensures written { result ≡ 5 → Rose (K.faults out.old) (K.faults out.new) }
    ensures others { (ended : Ended) × (result ≡ status_of ended) }
{
    status(list_input(alloc, input, out))
}
