// What the values mean that were found behind a command's word.
ghost use Rattle.std.specs.Prelude.{◌≡◌, IfOk, IfErr, Option, Some};
ghost use Rattle.clap.specs.Words.{found_of, rows_of};
ghost use Rattle.ug_arguments.specs.Commands as commands;
ghost use Rattle.ug_arguments.specs.Commands.{NotRead, add_user_in, ask_in, request_given, made_of, make_script_in, replay_in, watch_in};
ghost use Rattle.ug_proto.specs.declared.request.Request.{Request};

use crate::command::{Command, WordsFault};
use crate::command_word::CommandWord;
use crate::devices::{device_command, list_devices};
use crate::matches::is_set;
use crate::requests::{append_rule, get_parameter, remove_rule};
use crate::rules::list_rules;
use crate::sending::is_sendable;
use crate::settings::set_command;
use crate::values::{is_event_count, is_start, listed, most, number, principal, socket};
use clap::ArgMatches;
use std::alloc::Global;
use ug_acl::Asked;
use ug_proto::Request;
use ug_types::{Section, Text};

fn replay(matches: &ArgMatches) -> Command
    ensures { result ≡ replay_in (rows_of (found_of matches.now)) }
{
    if is_set(matches, "summary") {
        Command::Summarize
    } else {
        Command::Replay
    }
}

fn made(events: u64, start: u64) -> Result<Command, WordsFault>
    ensures ok { IfOk result (λ c. made_of events start ≡ Some c) }
    ensures err { IfErr result (NotRead (made_of events start)) }
{
    if is_event_count(events) && is_start(start) {
        return Ok(Command::MakeScript {
            events: events as u32,
            start: start as u32,
        });
    }
    Err(WordsFault::Bad)
}

fn make_script(matches: &ArgMatches) -> Result<Command, WordsFault>
    ensures ok { IfOk result (λ c. make_script_in (rows_of (found_of matches.now)) ≡ Some c) }
    ensures err { IfErr result (NotRead (make_script_in (rows_of (found_of matches.now)))) }
{
    let events = number(matches, "events")?;
    let start = number(matches, "start")?;
    made(events, start)
}

fn asked(matches: &ArgMatches) -> Result<Asked, WordsFault>
    ensures ok { IfOk result (λ a. request_given (rows_of (found_of matches.now)) ≡ Some a) }
    ensures err { IfErr result (NotRead (request_given (rows_of (found_of matches.now)))) }
{
    let devices = listed(matches, Section::Devices, "devices")?;
    let policy = listed(matches, Section::Policy, "policy")?;
    let exceptions = listed(matches, Section::Exceptions, "exceptions")?;
    let parameters = listed(matches, Section::Parameters, "parameters")?;
    Ok(Asked {
        devices,
        policy,
        exceptions,
        parameters,
    })
}

fn add_user(matches: &ArgMatches) -> Result<Command, WordsFault>
    ensures ok { IfOk result (λ c. add_user_in (rows_of (found_of matches.now)) ≡ Some c) }
    ensures err { IfErr result (NotRead (add_user_in (rows_of (found_of matches.now)))) }
{
    let name = principal(matches, "name")?;
    let asked = asked(matches)?;
    Ok(Command::AddUser { name, asked })
}

fn watch_by(socket: Text, most: u64, matches: &ArgMatches) -> Command
    ensures { result ≡ commands.watch_by socket most (rows_of (found_of matches.now)) }
{
    if is_set(matches, "wait") {
        Command::WatchWaiting {
            socket,
            most,
            once: is_set(matches, "once"),
        }
    } else {
        Command::Watch { socket, most }
    }
}

fn watch(alloc: Global, matches: &ArgMatches) -> Result<Command, WordsFault>
    ensures ok { IfOk result (λ c. watch_in (rows_of (found_of matches.now)) ≡ Some c) }
    ensures err { IfErr result (NotRead (watch_in (rows_of (found_of matches.now)))) }
{
    let socket = socket(alloc, matches)?;
    let most = most(matches)?;
    Ok(watch_by(socket, most, matches))
}

/// The command that sends the request.
pub fn ask(alloc: Global, matches: &ArgMatches, request: Request) -> Result<Command, WordsFault>
    ensures ok { IfOk result (λ c. ask_in (Some request) (rows_of (found_of matches.now))
        ≡ Some c) }
    ensures err { IfErr result (NotRead (ask_in (Some request) (rows_of (found_of matches.now)))) }
{
    if !is_sendable(&request) {
        return Err(WordsFault::Bad);
    }
    match socket(alloc, matches) {
        Ok(socket) => Ok(Command::Ask { socket, request }),
        Err(fault) => Err(fault),
    }
}

/// The command that asks what was read, if it was read.
pub fn ask_for(
    alloc: Global,
    matches: &ArgMatches,
    request: Result<Request, WordsFault>,
) -> Result<Command, WordsFault>
    ensures ok { (read : Option Request) → IfOk request (λ r. read ≡ Some r)
        → IfOk result (λ c. ask_in read (rows_of (found_of matches.now)) ≡ Some c) }
    ensures err { (read : Option Request) → IfOk request (λ r. read ≡ Some r)
        → IfErr request (NotRead read)
        → IfErr result (NotRead (ask_in read (rows_of (found_of matches.now)))) }
{
    match request {
        Ok(request) => ask(alloc, matches, request),
        Err(fault) => Err(fault),
    }
}

/// What the values mean that were found behind the word.
pub fn meaning(
    alloc: Global,
    word: CommandWord,
    matches: &ArgMatches,
) -> Result<Command, WordsFault>
    ensures ok { IfOk result (λ c. commands.meaning word (rows_of (found_of matches.now))
        ≡ Some c) }
    ensures err { IfErr result (NotRead (commands.meaning word (rows_of (found_of matches.now)))) }
{
    match word {
        CommandWord::Replay => Ok(replay(matches)),
        CommandWord::MakeScript => make_script(matches),
        CommandWord::ReadDescriptor => Ok(Command::ReadDescriptor),
        CommandWord::CheckRules => Ok(Command::CheckRules),
        CommandWord::LintRules => Ok(Command::LintRules {
            prune: is_set(matches, "prune"),
        }),
        CommandWord::GeneratePolicy => Ok(Command::GeneratePolicy),
        CommandWord::AddUser => add_user(matches),
        CommandWord::GetParameter => ask_for(alloc, matches, get_parameter(alloc, matches)),
        CommandWord::SetParameter => set_command(alloc, matches),
        CommandWord::ListDevices => list_devices(alloc, matches),
        CommandWord::Device(target) => device_command(alloc, matches, target),
        CommandWord::ListRules => list_rules(alloc, matches),
        CommandWord::AppendRule => ask_for(alloc, matches, append_rule(alloc, matches)),
        CommandWord::RemoveRule => ask_for(alloc, matches, remove_rule(matches)),
        CommandWord::Watch => watch(alloc, matches),
    }
}
