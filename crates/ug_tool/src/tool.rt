// The commands by their words.
ghost use Rattle.std.specs.Prelude.{◌≡◌, ◌⊎◌, Some, None, map, false};
ghost use Rattle.ug_types.specs.Ends.{Rose};
ghost use Rattle.ug_script.specs.Births.{StaysBorn};
ghost use Rattle.ug_script.specs.EventCalls.{StaysAtCalls};
ghost use Rattle.ug_script.specs.Journal.{StaysRecorded};
ghost use Rattle.ug_script.specs.Laws.{StaysLawful};
ghost use Rattle.ug_arguments.specs.Commands.{command_in};
ghost use Rattle.ug_arguments.specs.declared.command.Command.{Command};
ghost use Rattle.ug_tool.specs.CarriedOut.{CarriesCommandOut};
ghost use Rattle.ug_tool.specs.Faults.{IsOutOfMemory, IsRefused};
ghost use Rattle.ug_tool.specs.Replay.{new_world};
ghost use Rattle.ug_tool.specs.Tool.{asks_daemon};

use crate::command::carry_out;
use crate::faults::refuse;
use std::alloc::Global;
use ug_arguments::read_command;
use ug_links::Link;
use ug_types::{Sink, Source};

/// Carries out a command, whose words are those of the command line behind the program's name. `replay` does what
/// `run_replay` does, over a new kernel of its own, and with `--summary` writes numbers of that journal alone. `make-script` writes a
/// script of random events. `read-descriptor` reads the file `descriptors` of a device, at most
/// 67,108,864 bytes, and writes what it says. `check-rules` reads a text of rules, of as many bytes at most, and writes their
/// number. `lint-rules` reads one too, of at most 4,096 rules, and writes which of them can never decide, or with `--prune`
/// those that no earlier one covers. `generate-policy` reads a script, and writes the rules that allow its devices. `add-user`
/// reads an access text, of as many bytes at most, and writes it with privileges added. The others ask the
/// daemon over the link, and print its reply. The status is 0; 1 for other words; 2 where the input is refused; 3 where a text
/// of rules has a bad line, or is linted and has more rules; 4 for a read fault; 5 for a write fault; 6 for want of memory; 7 for a refusal; 8 where the link
/// gave no reply.
pub fn run_tool<S: Source, K: Sink, L: Link>(
    alloc: Global,
    words: &[&str],
    input: &mut S,
    out: &mut K,
    link: &mut L,
) -> u8
    ensures refused { command_in (map (λ word. word.now) words.now) ≡ None
        → (IsRefused (K.held out.old) (K.held out.new) result
        ⊎ IsOutOfMemory (K.held out.old) (K.held out.new) result)
        × (S.left input.new ≡ S.left input.old) × (link.new ≡ link.old) }
    ensures carried { (c : Command) → command_in (map (λ word. word.now) words.now) ≡ Some c
        → CarriesCommandOut c
        (record {
          input = S.left input.old;
          output = K.held out.old;
          calls = L.told link.old;
          sent = L.sent link.old;
          incoming = L.left link.old;
          faults = L.faults link.old;
        })
        (record {
          input = S.left input.new;
          output = K.held out.new;
          calls = L.told link.new;
          sent = L.sent link.new;
          incoming = L.left link.new;
          faults = L.faults link.new;
        }) result }
    ensures laws { StaysLawful new_world }
    ensures recorded { StaysRecorded new_world }
    ensures births { StaysBorn new_world }
    ensures calls { StaysAtCalls new_world }
    ensures read { result ≡ 4 → Rose (S.faults input.old) (S.faults input.new) }
    ensures written { result ≡ 5 → Rose (K.faults out.old) (K.faults out.new) }
    ensures link { (c : Command) → command_in (map (λ word. word.now) words.now) ≡ Some c
        → asks_daemon c ≡ false → link.new ≡ link.old }
{
    match read_command(alloc, words) {
        Ok(command) => {
            let status = carry_out(alloc, &command, input, out, link);
            command.discard();
            status
        }
        Err(fault) => refuse(out, fault),
    }
}
