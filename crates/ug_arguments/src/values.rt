// The values of arguments.
ghost use Rattle.std.specs.Prelude.{◌≡◌, IfOk, IfErr, Some, codes, option_and_then};
ghost use Rattle.clap.specs.Words.{first_of, found_of, rows_of};
ghost use Rattle.ug_arguments.specs.Commands.{NotRead, after_id, after_of, given_most, list_of, most_of, path_given, settings_in, socket_in};
ghost use Rattle.ug_arguments.specs.Values as values;
ghost use Rattle.ug_arguments.specs.Values.{number_found, passing, text_found};
ghost use Rattle.ug_types.specs.Principals.{principal_of};
ghost use Rattle.ug_lines.specs.Numbers.{number_in};

use crate::command::WordsFault;
use crate::matches::value;
use clap::ArgMatches;
use std::alloc::Global;
use ug_acl::{Listed, read_list};
use ug_lines::parse_decimal;
use ug_types::{After, Principal, Section, Text};

fn is_line(text: &str) -> bool
    ensures { result ≡ values.is_line text.now }
{
    let bytes = text.as_bytes();
    for byte in bytes {
        if *byte == b'\n' {
            return false;
        }
    }
    true
}

fn is_rule(text: &str) -> bool
    ensures { result ≡ values.is_rule text.now }
{
    text.len() >= 1 && is_line(text)
}

fn are_word_bytes(text: &str) -> bool
    ensures { result ≡ values.are_word_bytes text.now }
{
    let bytes = text.as_bytes();
    for byte in bytes {
        if *byte == b'\n' || *byte == b' ' {
            return false;
        }
    }
    true
}

fn is_plain_word(text: &str) -> bool
    ensures { result ≡ values.is_plain_word text.now }
{
    text.len() >= 1 && are_word_bytes(text)
}

/// A word of at least one byte without spaces.
pub fn word(alloc: Global, matches: &ArgMatches, id: &str) -> Result<Text, WordsFault>
    ensures ok { IfOk result
        (λ text. text_found values.is_plain_word id.now (rows_of (found_of matches.now))
        ≡ Some text) }
    ensures err { IfErr result
        (NotRead (text_found values.is_plain_word id.now (rows_of (found_of matches.now)))) }
{
    let text = match value(matches, id) {
        Some(text) => text,
        None => return Err(WordsFault::Bad),
    };
    if is_plain_word(text) {
        return Ok(Text::of(alloc, text.as_bytes())?);
    }
    Err(WordsFault::Bad)
}

/// The text of a rule, which isn't read here.
pub fn rule(alloc: Global, matches: &ArgMatches, id: &str) -> Result<Text, WordsFault>
    ensures ok { IfOk result
        (λ text. text_found values.is_rule id.now (rows_of (found_of matches.now)) ≡ Some text) }
    ensures err { IfErr result
        (NotRead (text_found values.is_rule id.now (rows_of (found_of matches.now)))) }
{
    let text = match value(matches, id) {
        Some(text) => text,
        None => return Err(WordsFault::Bad),
    };
    if is_rule(text) {
        return Ok(Text::of(alloc, text.as_bytes())?);
    }
    Err(WordsFault::Bad)
}

fn decimal(text: &str) -> Result<u64, WordsFault>
    ensures ok { IfOk result (λ n. number_in text.now ≡ Some n) }
    ensures err { IfErr result (NotRead (number_in text.now)) }
{
    match parse_decimal(text.as_bytes()) {
        Some(number) => Ok(number),
        None => Err(WordsFault::Bad),
    }
}

pub fn number(matches: &ArgMatches, id: &str) -> Result<u64, WordsFault>
    ensures ok { IfOk result (λ n. number_found id.now (rows_of (found_of matches.now)) ≡ Some n) }
    ensures err { IfErr result (NotRead (number_found id.now (rows_of (found_of matches.now)))) }
{
    match value(matches, id) {
        Some(text) => decimal(text),
        None => Err(WordsFault::Bad),
    }
}

fn is_most(number: u64) -> bool
    ensures { result ≡ values.is_most number }
{
    1 <= number && number <= 1_000_000
}

/// Whether a script can be made of so many events.
pub fn is_event_count(number: u64) -> bool
    ensures { result ≡ values.is_event_count number }
{
    1 <= number && number <= 500_000
}

/// Whether a script can be made from that start.
pub fn is_start(number: u64) -> bool
    ensures { result ≡ values.is_start number }
{
    number <= 4_294_967_295
}

fn read_most(text: &str) -> Result<u64, WordsFault>
    ensures ok { IfOk result (λ n. given_most text.now ≡ Some n) }
    ensures err { IfErr result (NotRead (given_most text.now)) }
{
    let number = decimal(text)?;
    if is_most(number) {
        return Ok(number);
    }
    Err(WordsFault::Bad)
}

/// How many notices at most.
#[tactic(auto, unfolding(crate::specs::Commands::default_most))]
pub fn most(matches: &ArgMatches) -> Result<u64, WordsFault>
    ensures ok { IfOk result
        (λ n. most_of (first_of (codes "most") (rows_of (found_of matches.now))) ≡ Some n) }
    ensures err { IfErr result
        (NotRead (most_of (first_of (codes "most") (rows_of (found_of matches.now))))) }
{
    match value(matches, "most") {
        Some(text) => read_most(text),
        None => Ok(1_000_000),
    }
}

/// Where a rule goes.
pub fn after(matches: &ArgMatches) -> Result<After, WordsFault>
    ensures ok { IfOk result
        (λ place. after_of (first_of (codes "after") (rows_of (found_of matches.now)))
        ≡ Some place) }
    ensures err { IfErr result
        (NotRead (after_of (first_of (codes "after") (rows_of (found_of matches.now))))) }
{
    let text = match value(matches, "after") {
        Some(text) => text,
        None => return Ok(After::End),
    };
    match decimal(text)? {
        0 => Ok(After::Front),
        id => Ok(After::Rule(id)),
    }
}

/// The path that an option gives, or else the usual one.
fn path(alloc: Global, matches: &ArgMatches, id: &str, usual: &str) -> Result<Text, WordsFault>
    ensures ok { IfOk result
        (λ path. path_given id.now usual.now (rows_of (found_of matches.now)) ≡ Some path) }
    ensures err { IfErr result
        (NotRead (path_given id.now usual.now (rows_of (found_of matches.now)))) }
{
    let text = match value(matches, id) {
        Some(text) => text,
        None => usual,
    };
    if is_line(text) {
        return Ok(Text::of(alloc, text.as_bytes())?);
    }
    Err(WordsFault::Bad)
}

/// Where the daemon listens.
#[tactic(auto, unfolding(crate::specs::Commands::default_socket))]
pub fn socket(alloc: Global, matches: &ArgMatches) -> Result<Text, WordsFault>
    ensures ok { IfOk result (λ path. socket_in (rows_of (found_of matches.now)) ≡ Some path) }
    ensures err { IfErr result (NotRead (socket_in (rows_of (found_of matches.now)))) }
{
    path(alloc, matches, "socket", "/run/usbguard/root.socket")
}

/// Where the daemon's settings are.
#[tactic(auto, unfolding(crate::specs::Commands::default_settings))]
pub fn settings(alloc: Global, matches: &ArgMatches) -> Result<Text, WordsFault>
    ensures ok { IfOk result (λ path. settings_in (rows_of (found_of matches.now)) ≡ Some path) }
    ensures err { IfErr result (NotRead (settings_in (rows_of (found_of matches.now)))) }
{
    path(alloc, matches, "conf", "/etc/usbguard/usbguard-daemon.conf")
}

pub fn principal(matches: &ArgMatches, id: &str) -> Result<Principal, WordsFault>
    ensures ok { IfOk result
        (λ p. option_and_then principal_of (first_of id.now (rows_of (found_of matches.now)))
        ≡ Some p) }
    ensures err { IfErr result
        (NotRead
        (option_and_then principal_of (first_of id.now (rows_of (found_of matches.now))))) }
{
    let text = match value(matches, id) {
        Some(text) => text,
        None => return Err(WordsFault::Bad),
    };
    match Principal::parse(text.as_bytes()) {
        Some(principal) => Ok(principal),
        None => Err(WordsFault::Bad),
    }
}

/// The privileges that an option lists.
pub fn listed(matches: &ArgMatches, section: Section, id: &str) -> Result<Listed, WordsFault>
    ensures ok { IfOk result
        (λ l. list_of section (first_of id.now (rows_of (found_of matches.now))) ≡ Some l) }
    ensures err { IfErr result
        (NotRead (list_of section (first_of id.now (rows_of (found_of matches.now))))) }
{
    let text = match value(matches, id) {
        Some(text) => text,
        None => return Ok(Listed::none()),
    };
    match read_list(section, text.as_bytes()) {
        Some(listed) => Ok(listed),
        None => Err(WordsFault::Bad),
    }
}
