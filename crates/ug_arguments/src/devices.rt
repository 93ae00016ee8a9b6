// Lists of devices, and orders on devices.
ghost use Rattle.std.specs.Prelude.{◌≡◌, IfOk, IfErr, Some, codes, is_some};
ghost use Rattle.clap.specs.Words.{first_of, found_of, rows_of};
ghost use Rattle.ug_arguments.specs.Commands as commands;
ghost use Rattle.ug_arguments.specs.Commands.{NotRead, device_command_in, list_chosen_in, list_devices_in, order_in, query_in};
ghost use Rattle.ug_lines.specs.Numbers.{number_in};

use crate::command::{Command, WordsFault};
use crate::matches::{is_set, value};
use crate::meaning::{ask, ask_for};
use crate::requests::device;
use crate::values::socket;
use clap::ArgMatches;
use std::alloc::Global;
use ug_lines::parse_decimal;
use ug_proto::Request;
use ug_rows::{Choice, cut_at_mark};
use ug_rule::{RuleFault, parse_query};
use ug_types::{Query, Target};

#[tactic(auto, unfolding(crate::specs::Commands::query_in))]
fn query(alloc: Global, text: &[u8]) -> Result<Query, WordsFault>
    ensures ok { IfOk result (λ query. query_in text.now ≡ Some query) }
    ensures err { IfErr result (NotRead (query_in text.now)) }
{
    match parse_query(alloc, text) {
        Ok(query) => Ok(query),
        Err(RuleFault::Bad { .. }) => Err(WordsFault::Bad),
        Err(RuleFault::Memory) => Err(WordsFault::Memory),
    }
}

fn query_given(alloc: Global, matches: &ArgMatches) -> Result<Option<Query>, WordsFault>
    ensures ok { IfOk result (λ query. commands.query_given
        (first_of (codes "query") (rows_of (found_of matches.now))) ≡ Some query) }
    ensures err { IfErr result (NotRead
        (commands.query_given (first_of (codes "query") (rows_of (found_of matches.now))))) }
{
    match value(matches, "query") {
        Some(text) => match query(alloc, text.as_bytes()) {
            Ok(query) => Ok(Some(query)),
            Err(fault) => Err(fault),
        },
        None => Ok(None),
    }
}

fn list_chosen(alloc: Global, matches: &ArgMatches) -> Result<Command, WordsFault>
    ensures ok { IfOk result (λ c. list_chosen_in (rows_of (found_of matches.now)) ≡ Some c) }
    ensures err { IfErr result (NotRead (list_chosen_in (rows_of (found_of matches.now)))) }
{
    let socket = socket(alloc, matches)?;
    let query = query_given(alloc, matches)?;
    Ok(Command::ListChosen {
        socket,
        choice: Choice {
            allowed: is_set(matches, "allowed"),
            blocked: is_set(matches, "blocked"),
            query,
        },
    })
}

fn is_whole_list(matches: &ArgMatches) -> bool
    ensures { result ≡ commands.is_whole_list (rows_of (found_of matches.now)) }
{
    value(matches, "query").is_none() && !is_set(matches, "allowed") && !is_set(matches, "blocked")
}

/// The list of all devices, or of those that are wanted.
pub fn list_devices(alloc: Global, matches: &ArgMatches) -> Result<Command, WordsFault>
    ensures ok { IfOk result (λ c. list_devices_in (rows_of (found_of matches.now)) ≡ Some c) }
    ensures err { IfErr result (NotRead (list_devices_in (rows_of (found_of matches.now)))) }
{
    if is_whole_list(matches) {
        ask(alloc, matches, Request::ListDevices)
    } else {
        list_chosen(alloc, matches)
    }
}

fn behind_target(text: &[u8]) -> &[u8]
    ensures { result.now ≡ commands.behind_target text.now }
{
    match cut_at_mark(b' ', text) {
        Some((word, rest)) => {
            if Target::named(word).is_some() {
                rest
            } else {
                text
            }
        }
        None => text,
    }
}

fn order(
    alloc: Global,
    matches: &ArgMatches,
    target: Target,
    text: &str,
) -> Result<Command, WordsFault>
    ensures ok { IfOk result
        (λ c. order_in target text.now (rows_of (found_of matches.now)) ≡ Some c) }
    ensures err { IfErr result
        (NotRead (order_in target text.now (rows_of (found_of matches.now)))) }
{
    let socket = socket(alloc, matches)?;
    let query = query(alloc, behind_target(text.as_bytes()))?;
    Ok(Command::Order {
        socket,
        query,
        target,
        permanent: is_set(matches, "permanent"),
    })
}

fn is_number(text: &str) -> bool
    ensures { result ≡ is_some (number_in text.now) }
{
    parse_decimal(text.as_bytes()).is_some()
}

/// An order on the device of a number, or on those that a query matches.
pub fn device_command(
    alloc: Global,
    matches: &ArgMatches,
    target: Target,
) -> Result<Command, WordsFault>
    ensures ok { IfOk result
        (λ c. device_command_in target (rows_of (found_of matches.now)) ≡ Some c) }
    ensures err { IfErr result
        (NotRead (device_command_in target (rows_of (found_of matches.now)))) }
{
    let text = match value(matches, "number") {
        Some(text) => text,
        None => return Err(WordsFault::Bad),
    };
    if is_number(text) {
        return ask_for(alloc, matches, device(matches, target));
    }
    order(alloc, matches, target, text)
}
