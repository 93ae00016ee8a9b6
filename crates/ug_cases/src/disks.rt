// Rule files: what a start makes of a text, and what saves leave.
use crate::rules::add_file_fault;
use rand_chacha::ChaCha20Rng;
use rand_core::SeedableRng;
use std::alloc::Global;
use ug_acl::Acl;
use ug_casefile::{Answer, number_of, split_word};
use ug_cond::FixedZone;
use ug_conf::default_settings;
use ug_core::{Daemon, StartFault};
use ug_print::{RulesTextFault, rules_text};
use ug_rule::parse_file;
use ug_store::{MemDisk, Mishap, RuleDisk, Saved, Store};
use ug_types::{FileFault, List, Rule, Text};

fn start(alloc: Global, disk: &mut MemDisk) -> Result<(), StartFault> {
    let Ok(settings) = default_settings(alloc) else {
        return Err(StartFault::Memory);
    };
    let rng = ChaCha20Rng::from_seed([0; 32]);
    let acl = Acl::new(alloc);
    let folder = List::new(alloc);
    match Daemon::start(alloc, settings, acl, rng, FixedZone::UTC, 1, folder, disk) {
        Ok(_daemon) => Ok(()),
        Err(fault) => Err(fault),
    }
}

fn add_start(told: &mut Answer, started: Result<(), StartFault>) {
    match started {
        Ok(()) => told.add(b"starts"),
        Err(StartFault::Disk(count)) => {
            told.add(b"disk ");
            told.add_number(count);
        }
        Err(StartFault::BadFolder { fault, .. } | StartFault::BadRules(fault)) => {
            add_file_fault(told, FileFault::Bad(fault))
        }
        Err(StartFault::FolderTooLong | StartFault::TooLong) => told.add(b"too long"),
        Err(StartFault::TooMany) => told.add(b"too many"),
        Err(StartFault::Memory) => told.fall_short(),
    }
}

/// Whether a daemon starts from a rule file of that text, or what keeps it from its start.
pub fn tell(alloc: Global, told: &mut Answer, text: &[u8]) {
    match MemDisk::with_text(alloc, text) {
        Ok(mut disk) => add_start(told, start(alloc, &mut disk)),
        Err(_) => told.fall_short(),
    }
}

// The rules of a text; none where a line is bad.
fn rules_of(alloc: Global, text: &[u8]) -> Vec<Rule> {
    match parse_file(alloc, text) {
        Ok(rules) => rules,
        Err(_) => Vec::new(alloc),
    }
}

fn text_of(alloc: Global, rules: &[Rule]) -> Option<Text> {
    match rules_text(alloc, rules) {
        Ok(text) => Some(text),
        Err(RulesTextFault::TooLong) => Text::of(alloc, b"too long").ok(),
        Err(RulesTextFault::Memory) => None,
    }
}

fn save_on(alloc: Global, disk: &mut MemDisk, text: &[u8]) -> bool {
    match Store::recover(alloc, disk) {
        Ok((mut store, _empty)) => matches!(store.save(alloc, disk, text), Saved::Done),
        Err(_) => false,
    }
}

// What the disk's rule file holds, behind a save of that text over an empty file.
fn save_and_load(alloc: Global, text: &[u8]) -> Option<Text> {
    let mut disk = MemDisk::new(alloc);
    if !save_on(alloc, &mut disk, text) {
        return None;
    }
    match Store::recover(alloc, &mut disk) {
        Ok((_store, loaded)) => Some(Text::from_vec(loaded)),
        Err(_) => None,
    }
}

// Whether a text is printed so again.
fn is_printed_again(alloc: Global, text: &[u8]) -> bool {
    match text_of(alloc, rules_of(alloc, text).as_slice()) {
        Some(again) => again.bytes() == text,
        None => false,
    }
}

// Whether the rules of a text are saved, loaded and printed as they are, and a daemon starts from them.
fn add_kept(alloc: Global, told: &mut Answer, printed: &[u8]) {
    let Some(loaded) = save_and_load(alloc, printed) else {
        told.fall_short();
        return;
    };
    if loaded.bytes() == printed && is_printed_again(alloc, printed) {
        told.add(b" rules kept, ");
    } else {
        told.add(b" rules changed, ");
    }
    tell(alloc, told, loaded.bytes());
}

/// How many rules a text has, and whether they are saved, loaded and printed as they are, and a daemon starts from them.
pub fn tell_kept(alloc: Global, told: &mut Answer, text: &[u8]) {
    let rules = rules_of(alloc, text);
    told.add_number(rules.len() as u64);
    match text_of(alloc, rules.as_slice()) {
        Some(printed) => add_kept(alloc, told, printed.bytes()),
        None => told.fall_short(),
    }
}

// A disk call that is to fail: its number, and `effect` behind it where it has its effect all the same.
fn plan(told: &mut Answer, disk: &mut MemDisk, words: &[u8]) {
    let (digits, rest) = split_word(words);
    let mishap = if rest == b"effect".as_slice() {
        Mishap::Effect
    } else {
        Mishap::NoEffect
    };
    if let Some(call) = number_of(digits) {
        if disk.fail(call, mishap).is_err() {
            told.fall_short();
        }
    }
}

fn add_saved(told: &mut Answer, saved: Saved) {
    match saved {
        Saved::Done => told.add(b"done"),
        Saved::Failed(count) => {
            told.add(b"failed ");
            told.add_number(count);
        }
        Saved::Memory => told.fall_short(),
    }
}

fn save(alloc: Global, told: &mut Answer, store: &mut Store, disk: &mut MemDisk, text: &[u8]) {
    if !told.is_empty() {
        told.add(b"\n");
    }
    add_saved(told, store.save(alloc, disk, text));
    if store.pending() {
        told.add(b", pending");
    }
    told.add(b", holds ");
    told.add_quoted(disk.text());
}

fn take_line(alloc: Global, told: &mut Answer, store: &mut Store, disk: &mut MemDisk, line: &[u8]) {
    let (word, rest) = split_word(line);
    match word {
        b"fail" => plan(told, disk, rest),
        b"begin" => {
            disk.end_event();
            disk.begin();
        }
        _ => save(alloc, told, store, disk, rest),
    }
}

fn take_lines(alloc: Global, told: &mut Answer, disk: &mut MemDisk, lines: &[u8]) {
    let Ok((mut store, _text)) = Store::recover(alloc, disk) else {
        told.fall_short();
        return;
    };
    disk.begin();
    for line in lines.split(|byte| *byte == b'\n') {
        take_line(alloc, told, &mut store, disk, line);
    }
}

/// What each `save TEXT` answers and leaves of a rule file that holds `old`. A line `fail N` or `fail N effect` lets a call of the
/// disk fail; behind `begin` calls are numbered from 1 again, and none is to fail.
pub fn tell_saves(alloc: Global, told: &mut Answer, lines: &[u8]) {
    match MemDisk::with_text(alloc, b"old") {
        Ok(mut disk) => take_lines(alloc, told, &mut disk, lines),
        Err(_) => told.fall_short(),
    }
}
