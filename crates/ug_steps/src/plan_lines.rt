// Lines for a call of the next event.
ghost use Rattle.std.specs.Prelude.{◌≡◌, option_map};
ghost use Rattle.ug_steps.specs.Grammar as grammar;
ghost use Rattle.ug_steps.specs.Grammar.{disk_fail_of, failing_of, scheduled_at, scheduled_of, planned_stop};
ghost use Rattle.ug_steps.specs.Words as words;
ghost use Rattle.ug_steps.specs.Words.{Parses};

use crate::move_lines::move_line;
use crate::step::StepFault;
use crate::words::{moment, space};
use std::alloc::Global;
use ug_store::{Mishap, Planned};
use ug_sysfs::{Failing, Scheduled};
use ug_types::is_word;

/// The number of a call, from 1 to 1,048,576.
fn call(text: &[u8]) -> Option<u64>
    ensures { result ≡ words.call_of text.now }
{
    match moment(text) {
        None => None,
        Some(number) => {
            if 1 <= number && number <= 1048576 {
                Some(number)
            } else {
                None
            }
        }
    }
}

fn scheduled_at(alloc: Global, after: bool, call: u64, text: &[u8]) -> Result<Scheduled, StepFault>
    ensures { Parses (scheduled_at after call text.now) result }
{
    Ok(Scheduled {
        call,
        after,
        action: move_line(alloc, text)?,
    })
}

/// `CALL MOVE`, where the call's number is from 1 to 1,048,576, and the move is a `plug` or an `unplug` line.
pub fn scheduled(alloc: Global, after: bool, text: &[u8]) -> Result<Scheduled, StepFault>
    ensures { Parses (scheduled_of after text.now) result }
{
    match space(text) {
        None => Err(StepFault::Bad),
        Some(at) => match call(&text[..at]) {
            None => Err(StepFault::Bad),
            Some(call) => scheduled_at(alloc, after, call, &text[at + 1..]),
        },
    }
}

fn failing_at(effect: bool, text: &[u8]) -> Option<Failing>
    ensures { result ≡ grammar.failing_at effect (words.call_of text.now) }
{
    match call(text) {
        None => None,
        Some(call) => Some(Failing { call, effect }),
    }
}

#[tactic(auto, unfolding(crate::specs::Grammar::is_effect))]
fn is_effect(word: &[u8]) -> bool
    ensures { result ≡ grammar.is_effect word.now }
{
    is_word(word, b"effect")
}

/// A call's number, and `effect` behind it where a write is to have its effect all the same.
pub fn failing(text: &[u8]) -> Option<Failing>
    ensures { result ≡ failing_of text.now }
{
    match space(text) {
        None => failing_at(false, text),
        Some(at) => {
            if is_effect(&text[at + 1..]) {
                failing_at(true, &text[..at])
            } else {
                None
            }
        }
    }
}

fn mishap(effect: bool) -> Mishap
    ensures { result ≡ grammar.mishap_of effect }
{
    if effect {
        Mishap::Effect
    } else {
        Mishap::NoEffect
    }
}

#[tactic(auto, unfolding(crate::specs::Grammar::is_fail))]
fn is_fail(word: &[u8]) -> bool
    ensures { result ≡ grammar.is_fail word.now }
{
    is_word(word, b"fail")
}

fn failing_on_disk(text: &[u8]) -> Option<Planned>
    ensures { result ≡ option_map grammar.fails_on_disk (failing_of text.now) }
{
    match failing(text) {
        Some(failing) => Some(Planned {
            call: failing.call,
            mishap: mishap(failing.effect),
            stops: false,
        }),
        None => None,
    }
}

/// `fail`, and the same of a call of the disk.
pub fn disk_fail(text: &[u8]) -> Option<Planned>
    ensures { result ≡ disk_fail_of text.now }
{
    match space(text) {
        None => None,
        Some(at) => {
            if is_fail(&text[..at]) {
                failing_on_disk(&text[at + 1..])
            } else {
                None
            }
        }
    }
}

#[tactic(auto, unfolding(crate::specs::Grammar::mishap_word))]
fn mishap_word(word: &[u8]) -> Option<Mishap>
    ensures { result ≡ grammar.mishap_word word.now }
{
    if is_word(word, b"old") {
        return Some(Mishap::NoEffect);
    }
    if is_word(word, b"new") {
        return Some(Mishap::Effect);
    }
    None
}

fn stopping_at(call: u64, word: &[u8]) -> Option<Planned>
    ensures { result ≡ grammar.stopping_at call (grammar.mishap_word word.now) }
{
    match mishap_word(word) {
        None => None,
        Some(mishap) => Some(Planned {
            call,
            mishap,
            stops: true,
        }),
    }
}

/// The number of a call of the disk in which the machine stops, and `old`, or `new` where a swap is to have had its effect.
pub fn stop(text: &[u8]) -> Option<Planned>
    ensures { result ≡ planned_stop text.now }
{
    match space(text) {
        None => None,
        Some(at) => match call(&text[..at]) {
            None => None,
            Some(call) => stopping_at(call, &text[at + 1..]),
        },
    }
}
