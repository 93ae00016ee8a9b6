// Lines that stand before all others: rules, also those of the folder and of interfaces, settings, access, a seed and a time
// zone.
ghost use Rattle.std.specs.Prelude.{◌≡◌, ◌≤◌, ◌&&◌, Some, IfOk};
ghost use Rattle.ug_acl.specs.Texts.{access_read};
ghost use Rattle.ug_iface.specs.Rules.{iface_rule_read};
ghost use Rattle.ug_types.specs.declared.rule.Rule.{Rule};
ghost use Rattle.ug_rule.specs.declared.fault.Fault.{Fault};
ghost use Rattle.ug_rule.specs.Rules.{rule_read};
ghost use Rattle.ug_steps.specs.Grammar.{folder_line_of, grant_of, granting, in_access, in_folder, in_iface_rule, in_rule, named_line};
ghost use Rattle.ug_steps.specs.Words as words;
ghost use Rattle.ug_steps.specs.Words.{Parses, offset_of, seed_of, signed_by, with_minutes};

use crate::step::{AccessLine, FolderLine, SetupLine, StepFault};
use crate::words::{is_entry, is_one_line, space};
use std::alloc::Global;
use ug_acl::parse_access;
use ug_conf::is_rule_file_name;
use ug_iface::parse_iface_rule;
use ug_rule::{RuleFault, parse_rule};
use ug_types::{FileFault, Principal, Text};

/// What stands behind `rule`, read as usbguard-rules.conf(5) says.
pub fn read_rule(alloc: Global, text: &[u8]) -> Result<SetupLine, StepFault>
    ensures { Parses (in_rule (rule_read text.now)) result }
{
    match parse_rule(alloc, text) {
        Ok(rule) => Ok(SetupLine::Rule(rule)),
        Err(RuleFault::Bad { .. }) => Err(StepFault::Bad),
        Err(RuleFault::Memory) => Err(StepFault::Memory),
    }
}

/// What stands behind `iface-rule`.
pub fn read_iface_rule(alloc: Global, text: &[u8]) -> Result<SetupLine, StepFault>
    ensures { Parses (in_iface_rule (iface_rule_read text.now)) result }
{
    match parse_iface_rule(alloc, text) {
        Ok(rule) => Ok(SetupLine::IfaceRule(rule)),
        Err(RuleFault::Bad { .. }) => Err(StepFault::Bad),
        Err(RuleFault::Memory) => Err(StepFault::Memory),
    }
}

/// Whether a line holds a rule.
fn check_rule(alloc: Global, line: &[u8]) -> Result<(), StepFault>
    ensures good { IfOk result (λ _. (rule : Rule) × (rule_read line.now ≡ Ok rule)) }
    ensures bad { result ≡ Err StepFault.Bad
        → (fault : Fault) × (rule_read line.now ≡ Err fault) }
{
    match parse_rule(alloc, line) {
        Ok(rule) => {
            rule.discard();
            Ok(())
        }
        Err(RuleFault::Bad { .. }) => Err(StepFault::Bad),
        Err(RuleFault::Memory) => Err(StepFault::Memory),
    }
}

/// A line of the folder's file of that name, which holds a rule.
fn read_line_in(alloc: Global, name: &[u8], line: &[u8]) -> Result<SetupLine, StepFault>
    ensures { Parses (in_folder name.now line.now (rule_read line.now)) result }
{
    check_rule(alloc, line)?;
    Ok(SetupLine::Folder(FolderLine {
        name: Text::of(alloc, name)?,
        text: Text::of(alloc, line)?,
    }))
}

fn read_named_line(alloc: Global, name: &[u8], line: &[u8]) -> Result<SetupLine, StepFault>
    ensures { Parses (named_line name.now line.now) result }
{
    if !is_rule_file_name(name) || !is_one_line(line) {
        return Err(StepFault::Bad);
    }
    read_line_in(alloc, name, line)
}

/// The name of a file that counts in the folder of rules, and a rule.
pub fn read_folder_line(alloc: Global, text: &[u8]) -> Result<SetupLine, StepFault>
    ensures { Parses (folder_line_of text.now) result }
{
    match space(text) {
        None => Err(StepFault::Bad),
        Some(at) => read_named_line(alloc, &text[..at], &text[at + 1..]),
    }
}

/// What a line of an access file grants, read as usbguard-daemon.conf(5) says.
fn read_grants(alloc: Global, who: Principal, line: &[u8]) -> Result<SetupLine, StepFault>
    ensures { Parses (in_access who (access_read line.now)) result }
{
    match parse_access(alloc, line) {
        Ok(grants) => Ok(SetupLine::Access(AccessLine { who, grants })),
        Err(FileFault::Bad(_)) => Err(StepFault::Bad),
        Err(FileFault::Memory) => Err(StepFault::Memory),
    }
}

/// A line that grants nothing may not stand there.
fn read_grant_line(alloc: Global, who: Principal, line: &[u8]) -> Result<SetupLine, StepFault>
    ensures { Parses (granting (Some who) line.now) result }
{
    if !is_one_line(line) || !is_entry(line) {
        return Err(StepFault::Bad);
    }
    read_grants(alloc, who, line)
}

/// A user, or a group behind `:`, and a line of an access file.
pub fn read_access(alloc: Global, text: &[u8]) -> Result<SetupLine, StepFault>
    ensures { Parses (grant_of text.now) result }
{
    match space(text) {
        None => Err(StepFault::Bad),
        Some(at) => match Principal::parse(&text[..at]) {
            None => Err(StepFault::Bad),
            Some(who) => read_grant_line(alloc, who, &text[at + 1..]),
        },
    }
}

/// 64 hexadecimal digits of either case.
pub fn seed(text: &[u8]) -> Option<[u8; 32]>
    ensures { result ≡ seed_of text.now }
{
    let mut seed = [0; 32];
    match hex::decode_to_slice(text, &mut seed) {
        Ok(()) => Some(seed),
        Err(_) => None,
    }
}

fn is_digit(byte: u8) -> bool
    ensures { result ≡ words.is_digit byte }
{
    b'0' <= byte && byte <= b'9'
}

/// The number of two decimal digits.
fn two_digits(a: u8, b: u8) -> Option<u8>
    ensures { result ≡ words.two_digits a b }
{
    if is_digit(a) && is_digit(b) {
        Some((a - b'0') * 10 + (b - b'0'))
    } else {
        None
    }
}

fn signed(sign: u8, seconds: u32) -> Option<i32>
    requires { seconds ≤ 86400 }
    ensures { result ≡ signed_by sign seconds }
{
    match sign {
        b'+' => Some(seconds as i32),
        b'-' => Some(-(seconds as i32)),
        _ => None,
    }
}

fn seconds(sign: u8, hours: u8, minutes: u8) -> Option<i32>
    ensures { result ≡ with_minutes sign hours (Some minutes) }
{
    if hours <= 23 && minutes <= 59 {
        signed(sign, u32::from(hours) * 3600 + u32::from(minutes) * 60)
    } else {
        None
    }
}

/// An offset from UTC as `+HH:MM` or `-HH:MM`, hours to 23, in seconds.
#[tactic(auto, unfolding(crate::specs::Words::offset_of))]
pub fn offset(text: &[u8]) -> Option<i32>
    ensures { result ≡ offset_of text.now }
{
    if text.len() != 6 || text[3] != b':' {
        return None;
    }
    match two_digits(text[1], text[2]) {
        None => None,
        Some(hours) => match two_digits(text[4], text[5]) {
            None => None,
            Some(minutes) => seconds(text[0], hours, minutes),
        },
    }
}
