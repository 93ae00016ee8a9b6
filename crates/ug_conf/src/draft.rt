// What the lines so far set.
ghost use Rattle.std.specs.Prelude.{◌≡◌, ◌++◌, IfOk, OnOk, OnErr};
ghost use Rattle.ug_types.specs.TextFaults.{IsLineRead};
ghost use Rattle.ug_conf.specs.Draft.{draft_of, is_unused, with_setting, key_read, value_read, assigned, setting_line_read, LeavesDraft};

use crate::fault::FaultKind;
use crate::keys::{Key, known_key};
use crate::settings::{AuthDefault, Settings};
use crate::values::{Setting, make_setting};
use std::alloc::Global;
use std::mem::replace;
use ug_lines::{LineCut, cut_line};
use ug_types::{LineFault, List, NoMemory, Principal};

// Both, one behind the other.
fn joined(
    alloc: Global,
    front: &[Principal],
    behind: &[Principal],
) -> Result<List<Principal>, NoMemory>
    ensures { IfOk result (λ all. all ≡ front.now ++ behind.now) }
{
    let mut all = Vec::from_slice(alloc, front)?;
    all.extend_from_slice(behind)?;
    Ok(List::from_vec(all))
}

// Whether a line with that default sets nothing yet.
fn is_unused(default: AuthDefault) -> bool
    ensures { result ≡ is_unused default }
{
    match default {
        AuthDefault::Keep => false,
        AuthDefault::None => false,
        AuthDefault::All => false,
        AuthDefault::Internal => true,
    }
}

// Sets what the line of that number says. A refusal changes nothing.
fn set(
    alloc: Global,
    settings: &mut Settings,
    number: u64,
    setting: Setting,
) -> Result<(), NoMemory>
    ensures ok { OnOk result (settings.new ≡ with_setting number setting settings.old) }
    ensures err { OnErr result (settings.new ≡ settings.old) }
{
    match setting {
        Setting::RuleFile(path) => drop(replace(&mut settings.rule_file, path)),
        Setting::RuleFolder(path) => drop(replace(&mut settings.rule_folder, path)),
        Setting::Implicit(target) => settings.implicit = target,
        Setting::PresentDevice(policy) => settings.present_device = policy,
        Setting::PresentController(policy) => settings.present_controller = policy,
        Setting::Inserted(policy) => settings.inserted = policy,
        Setting::Default(default) => {
            if is_unused(default) {
                settings.unused.push(number)?;
            }
            settings.default = default;
        }
        Setting::Users(users) => {
            let all = joined(alloc, users.as_slice(), settings.users.as_slice())?;
            drop(replace(&mut settings.users, all));
        }
        Setting::Groups(groups) => {
            let all = joined(alloc, settings.users.as_slice(), groups.as_slice())?;
            drop(replace(&mut settings.users, all));
        }
        Setting::AccessFolder(path) => drop(replace(&mut settings.access_folder, path)),
        Setting::WithPort(with_port) => settings.with_port = with_port,
        Setting::Unused => settings.unused.push(number)?,
    }
    Ok(())
}

// The key that a word is, unless it was set before.
fn new_key(seen: &[Key], word: &[u8]) -> Result<Key, LineFault<FaultKind>>
    ensures { IsLineRead result (key_read seen.now word.now) }
{
    match known_key(word) {
        Some(key) => {
            if seen.contains(&key) {
                return Err(LineFault::at(FaultKind::Repeated, 0));
            }
            Ok(key)
        }
        None => Err(LineFault::at(FaultKind::UnknownKey, 0)),
    }
}

fn value(alloc: Global, key: Key, text: &[u8], place: u64) -> Result<Setting, LineFault<FaultKind>>
    ensures { IsLineRead result (value_read place key text.now) }
{
    match make_setting(alloc, key, text)? {
        Some(setting) => Ok(setting),
        None => Err(LineFault::at(FaultKind::BadValue, place)),
    }
}

// Takes what is before and after the first `=`. The value's place is given.
fn add_assignment(
    alloc: Global,
    settings: &mut Settings,
    seen: &mut Vec<Key>,
    number: u64,
    word: &[u8],
    text: &[u8],
    place: u64,
) -> Result<(), LineFault<FaultKind>>
    ensures { LeavesDraft result
        (draft_of settings.old seen.old.items) (draft_of settings.new seen.new.items)
        (assigned number (draft_of settings.old seen.old.items) word.now text.now place) }
{
    let key = new_key(seen.as_slice(), word)?;
    let setting = value(alloc, key, text, place)?;
    match seen.reserve(1) {
        Ok(()) => {}
        Err(_) => {
            drop(setting);
            return Err(LineFault::Memory);
        }
    }
    set(alloc, settings, number, setting)?;
    let _done = seen.push(key);
    Ok(())
}

/// Takes the line of that number. A refusal changes nothing.
pub fn add_line(
    alloc: Global,
    settings: &mut Settings,
    seen: &mut Vec<Key>,
    number: u64,
    line: &[u8],
) -> Result<(), LineFault<FaultKind>>
    ensures { LeavesDraft result (draft_of settings.old seen.old.items) (draft_of settings.new
        seen.new.items) (setting_line_read number (draft_of settings.old seen.old.items) line.now) }
{
    match cut_line(line) {
        LineCut::Skipped => Ok(()),
        LineCut::NoSign => Err(LineFault::at(FaultKind::NoEquals, 0)),
        LineCut::Equation { word, value, place } => {
            add_assignment(alloc, settings, seen, number, word, value, place)
        }
    }
}
