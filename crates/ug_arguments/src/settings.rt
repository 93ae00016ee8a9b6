// A setting that is set, and told.
ghost use Rattle.std.specs.Prelude.{◌≡◌, IfOk, IfErr, Some};
ghost use Rattle.clap.specs.Words.{found_of, rows_of};
ghost use Rattle.ug_arguments.specs.Commands.{NotRead, change_by, change_parameter_in, set_command_in};

use crate::command::{Command, WordsFault};
use crate::matches::is_set;
use crate::meaning::ask_for;
use crate::requests::set_parameter;
use crate::sending::is_sendable;
use crate::values::socket;
use clap::ArgMatches;
use std::alloc::Global;
use ug_proto::Request;
use ug_types::Text;

fn change_by(request: Request, socket: Text) -> Result<Command, WordsFault>
    ensures ok { IfOk result (λ c. change_by request socket ≡ Some c) }
    ensures err { IfErr result (NotRead (change_by request socket)) }
{
    match request {
        Request::SetParameter { name, value } => Ok(Command::ChangeParameter {
            socket,
            name,
            value,
        }),
        other => {
            other.discard();
            Err(WordsFault::Bad)
        }
    }
}

fn change_parameter(alloc: Global, matches: &ArgMatches) -> Result<Command, WordsFault>
    ensures ok { IfOk result (λ c. change_parameter_in (rows_of (found_of matches.now))
        ≡ Some c) }
    ensures err { IfErr result (NotRead (change_parameter_in (rows_of (found_of matches.now)))) }
{
    let request = set_parameter(alloc, matches)?;
    if !is_sendable(&request) {
        request.discard();
        return Err(WordsFault::Bad);
    }
    let socket = socket(alloc, matches)?;
    change_by(request, socket)
}

/// The command that sets a setting, and tells both values where that is wanted.
pub fn set_command(alloc: Global, matches: &ArgMatches) -> Result<Command, WordsFault>
    ensures ok { IfOk result (λ c. set_command_in (rows_of (found_of matches.now)) ≡ Some c) }
    ensures err { IfErr result (NotRead (set_command_in (rows_of (found_of matches.now)))) }
{
    if is_set(matches, "verbose") {
        change_parameter(alloc, matches)
    } else {
        ask_for(alloc, matches, set_parameter(alloc, matches))
    }
}
