// The command that words are.
ghost use Rattle.std.specs.Prelude.{◌≡◌, IfOk, IfErr, Some, map};
ghost use Rattle.ug_arguments.specs.Commands.{NotRead, command_by, command_in};

use crate::command::{Command, WordsFault};
use crate::command_word::{CommandWord, command_word};
use crate::matches::find_values;
use crate::meaning::meaning;
use crate::simple::simple_command;
use std::alloc::Global;

fn read_by(alloc: Global, word: CommandWord, words: &[&str]) -> Result<Command, WordsFault>
    ensures ok { IfOk result (λ c. command_by word (map (λ w. w.now) words.now) ≡ Some c) }
    ensures err { IfErr result (NotRead (command_by word (map (λ w. w.now) words.now))) }
{
    match simple_command(alloc, word) {
        Ok(command) => match find_values(command, words) {
            Ok(matches) => {
                let command = meaning(alloc, word, &matches);
                drop(matches);
                command
            }
            Err(fault) => Err(fault),
        },
        Err(_) => Err(WordsFault::Memory),
    }
}

/// The command that the words of a command line are, without the program's name: the first chooses the command, and behind
/// it stand the words that usbguard(1) has for it.
#[tactic(auto, unfolding(crate::specs::Commands::command_in))]
pub fn read_command(alloc: Global, words: &[&str]) -> Result<Command, WordsFault>
    ensures ok { IfOk result (λ c. command_in (map (λ w. w.now) words.now) ≡ Some c) }
    ensures err { IfErr result (NotRead (command_in (map (λ w. w.now) words.now))) }
{
    match words {
        [first, ..] => match command_word(first) {
            Some(word) => read_by(alloc, word, words),
            None => Err(WordsFault::Bad),
        },
        [] => Err(WordsFault::Bad),
    }
}
