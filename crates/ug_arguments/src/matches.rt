// What is found in the words.
ghost use Rattle.std.specs.Prelude.{◌≡◌, IfOk, IfErr, Some, true, map, option_map};
ghost use Rattle.clap.specs.Words.{app_of, first_of, found_of, is_simple_and_free, rows_of};
ghost use Rattle.ug_arguments.specs.Commands.{NotRead};
ghost use Rattle.ug_arguments.specs.SimpleCommands.{rows_in};
ghost use Rattle.ug_arguments.specs.Values as values;

use crate::command::WordsFault;
use clap::error::ErrorKind;
use clap::{ArgMatches, Command};

/// What the command finds in the words, of which the first is its own.
#[tactic(auto, unfolding(crate::specs::SimpleCommands::rows_in))]
pub fn find_values<'a>(
    command: Command<'a>,
    words: &'a [&'a str],
) -> Result<ArgMatches<'a>, WordsFault>
    requires { is_simple_and_free (app_of command) ≡ true }
    ensures ok { IfOk result (λ m.
        rows_in (app_of command.entry) (map (λ word. word.now) words.entry.now)
        ≡ Some (rows_of (found_of m))) }
    ensures err { IfErr result (NotRead
        (rows_in (app_of command.entry) (map (λ word. word.now) words.entry.now))) }
{
    match command.try_get_matches_from(words) {
        Ok(matches) => Ok(matches),
        Err(error) => match error.kind() {
            ErrorKind::OutOfMemory => Err(WordsFault::Memory),
            _ => Err(WordsFault::Bad),
        },
    }
}

/// The value that was found by that name.
pub fn value<'a>(matches: &ArgMatches<'a>, id: &str) -> Option<&'a str>
    ensures { option_map (λ text. text.now) result
        ≡ first_of id.now (rows_of (found_of matches.now)) }
{
    matches.get_str(id)
}

/// Whether the flag of that name stands among the words.
pub fn is_set(matches: &ArgMatches, id: &str) -> bool
    ensures { result ≡ values.is_set id.now (rows_of (found_of matches.now)) }
{
    match value(matches, id) {
        Some(text) => text == "true",
        None => false,
    }
}
