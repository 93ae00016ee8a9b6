// Lists of rules.
ghost use Rattle.std.specs.Prelude.{◌≡◌, IfOk, IfErr, Some, codes};
ghost use Rattle.clap.specs.Words.{first_of, found_of, rows_of};
ghost use Rattle.ug_arguments.specs.Commands.{NotRead, labelled_in, list_rules_in, rule_devices_in};

use crate::command::{Command, WordsFault};
use crate::matches::{is_set, value};
use crate::meaning::ask;
use crate::values::socket;
use clap::ArgMatches;
use std::alloc::Global;
use ug_proto::Request;
use ug_types::{NoMemory, Text};

fn label(alloc: Global, matches: &ArgMatches) -> Result<Option<Text>, NoMemory>
    ensures { IfOk result (λ label. label
        ≡ first_of (codes "label") (rows_of (found_of matches.now))) }
{
    match value(matches, "label") {
        Some(text) => Ok(Some(Text::of(alloc, text.as_bytes())?)),
        None => Ok(None),
    }
}

fn rule_devices(alloc: Global, matches: &ArgMatches) -> Result<Command, WordsFault>
    ensures ok { IfOk result (λ c. rule_devices_in (rows_of (found_of matches.now)) ≡ Some c) }
    ensures err { IfErr result (NotRead (rule_devices_in (rows_of (found_of matches.now)))) }
{
    let socket = socket(alloc, matches)?;
    let label = label(alloc, matches)?;
    Ok(Command::ListRuleDevices { socket, label })
}

fn labelled(alloc: Global, matches: &ArgMatches) -> Result<Command, WordsFault>
    ensures ok { IfOk result
        (λ c. labelled_in (first_of (codes "label") (rows_of (found_of matches.now)))
        (rows_of (found_of matches.now)) ≡ Some c) }
    ensures err { IfErr result
        (NotRead (labelled_in (first_of (codes "label") (rows_of (found_of matches.now)))
        (rows_of (found_of matches.now)))) }
{
    match label(alloc, matches)? {
        Some(label) => {
            let socket = socket(alloc, matches)?;
            Ok(Command::ListLabelled { socket, label })
        }
        None => ask(alloc, matches, Request::ListRules),
    }
}

/// The list of all rules, or of those of a label, or with the devices that each applies to.
pub fn list_rules(alloc: Global, matches: &ArgMatches) -> Result<Command, WordsFault>
    ensures ok { IfOk result (λ c. list_rules_in (rows_of (found_of matches.now)) ≡ Some c) }
    ensures err { IfErr result (NotRead (list_rules_in (rows_of (found_of matches.now)))) }
{
    if is_set(matches, "show-devices") {
        rule_devices(alloc, matches)
    } else {
        labelled(alloc, matches)
    }
}
