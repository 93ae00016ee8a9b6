// The requests that are asked for.
ghost use Rattle.std.specs.Prelude.{◌≡◌, IfOk, IfErr, Some};
ghost use Rattle.clap.specs.Words.{found_of, rows_of};
ghost use Rattle.ug_arguments.specs.Commands.{NotRead, append_rule_in, device_in, get_parameter_in, remove_rule_in, set_parameter_in};

use crate::command::WordsFault;
use crate::matches::is_set;
use crate::values::{after, number, rule, word};
use clap::ArgMatches;
use std::alloc::Global;
use ug_proto::Request;
use ug_types::Target;

pub fn get_parameter(alloc: Global, matches: &ArgMatches) -> Result<Request, WordsFault>
    ensures ok { IfOk result (λ r. get_parameter_in (rows_of (found_of matches.now)) ≡ Some r) }
    ensures err { IfErr result (NotRead (get_parameter_in (rows_of (found_of matches.now)))) }
{
    let name = word(alloc, matches, "name")?;
    Ok(Request::GetParameter { name })
}

pub fn set_parameter(alloc: Global, matches: &ArgMatches) -> Result<Request, WordsFault>
    ensures ok { IfOk result (λ r. set_parameter_in (rows_of (found_of matches.now)) ≡ Some r) }
    ensures err { IfErr result (NotRead (set_parameter_in (rows_of (found_of matches.now)))) }
{
    let name = word(alloc, matches, "name")?;
    let value = word(alloc, matches, "value")?;
    Ok(Request::SetParameter { name, value })
}

pub fn device(matches: &ArgMatches, target: Target) -> Result<Request, WordsFault>
    ensures ok { IfOk result (λ r. device_in target (rows_of (found_of matches.now)) ≡ Some r) }
    ensures err { IfErr result (NotRead (device_in target (rows_of (found_of matches.now)))) }
{
    let number = number(matches, "number")?;
    Ok(Request::Device {
        number,
        target,
        permanent: is_set(matches, "permanent"),
    })
}

pub fn append_rule(alloc: Global, matches: &ArgMatches) -> Result<Request, WordsFault>
    ensures ok { IfOk result (λ r. append_rule_in (rows_of (found_of matches.now)) ≡ Some r) }
    ensures err { IfErr result (NotRead (append_rule_in (rows_of (found_of matches.now)))) }
{
    let after = after(matches)?;
    let rule = rule(alloc, matches, "rule")?;
    Ok(Request::AppendRule {
        after,
        permanent: !is_set(matches, "temporary"),
        rule,
    })
}

pub fn remove_rule(matches: &ArgMatches) -> Result<Request, WordsFault>
    ensures ok { IfOk result (λ r. remove_rule_in (rows_of (found_of matches.now)) ≡ Some r) }
    ensures err { IfErr result (NotRead (remove_rule_in (rows_of (found_of matches.now)))) }
{
    let id = number(matches, "id")?;
    Ok(Request::RemoveRule { id })
}
