// A script with something at each of its calls in turn.
use crate::calls::{Call, replay};
use std::alloc::Global;
use ug_casefile::{Answer, Case, Setting, add_pattern, number_of};
use ug_sysfs::{SimKernel, Write};
use ug_types::NoMemory;

// The script of the case, its lines for these calls, and two events.
fn script(alloc: Global, case: &Case, first: u64, second: u64) -> Result<Call<'static>, NoMemory> {
    let mut text = Answer::new(alloc);
    text.add(&case.input);
    for setting in case.settings.as_slice() {
        if setting.key.as_slice() == b"line".as_slice() {
            add_pattern(&mut text, &setting.value, first, second);
            text.add(b"\n");
        }
    }
    text.add(b"sweep 100\nsweep 101\n");
    Call::of_script(alloc, text.finish()?)
}

fn holds(text: &[u8], part: &[u8]) -> bool {
    !part.is_empty() && text.windows(part.len()).any(|window| window == part)
}

// What stands behind the first line of the second event.
fn later(text: &[u8]) -> &[u8] {
    let line: &[u8] = b"event 2 sweep 101\n";
    match text.windows(line.len()).position(|window| window == line) {
        Some(at) => text.get(at..).unwrap_or(&[]),
        None => &[],
    }
}

fn live_are_on(kernel: &SimKernel) -> bool {
    kernel
        .devices()
        .iter()
        .all(|device| device.gone || device.on)
}

// Devices are counted from 1 in the order of their births.
fn was_switched_on(kernel: &SimKernel, number: &[u8]) -> bool {
    let Some(place) = number_of(number).and_then(|number| number.checked_sub(1)) else {
        return true;
    };
    kernel.log().iter().any(|effect| effect.device as u64 == place
        && matches!(effect.write, Write::On))
}

// Whether the setting `but` has that number.
fn is_excepted(case: &Case, call: u64) -> bool {
    let line = case.setting(b"but").unwrap_or(&[]);
    for part in line.split(|byte| *byte == b' ') {
        if number_of(part) == Some(call) {
            return true;
        }
    }
    false
}

fn is_met(setting: &Setting, output: &[u8], kernel: &SimKernel, excepted: bool) -> bool {
    let value = setting.value.as_slice();
    match str::from_utf8(&setting.key).unwrap_or("") {
        "calls" | "line" | "but" => true,
        "holds" => holds(output, value) != excepted,
        "lacks" => !holds(output, value),
        "later-lacks" => !holds(later(output), value),
        "live-are-on" => live_are_on(kernel),
        "never-on" => !was_switched_on(kernel, value),
        "devices" => number_of(value) == Some(kernel.devices().len() as u64),
        _ => false,
    }
}

fn add_calls(told: &mut Answer, first: u64, second: u64) {
    told.add(b"calls ");
    told.add_number(first);
    told.add(b" and ");
    told.add_number(second);
}

fn add_unmet(told: &mut Answer, setting: &Setting) {
    told.add(b": not ");
    told.add_escaped(&setting.key);
    told.add(b" ");
    told.add_escaped(&setting.value);
    told.add(b"\n");
}

fn add_status(told: &mut Answer, first: u64, second: u64, status: u8) {
    if status != 0 {
        add_calls(told, first, second);
        told.add(b": status ");
        told.add_number(u64::from(status));
        told.add(b"\n");
    }
}

// Adds a line for each thing that isn't as the settings say.
fn judge_call(
    alloc: Global,
    told: &mut Answer,
    case: &Case,
    mut call: Call,
    first: u64,
    second: u64,
) {
    let (status, kernel) = replay(alloc, &mut call);
    let excepted = is_excepted(case, first);
    add_status(told, first, second, status);
    for setting in case.settings.as_slice() {
        if !is_met(setting, call.out.bytes(), &kernel, excepted) {
            add_calls(told, first, second);
            add_unmet(told, setting);
        }
    }
}

fn judge(alloc: Global, told: &mut Answer, case: &Case, first: u64, second: u64) {
    match script(alloc, case, first, second) {
        Ok(call) => judge_call(alloc, told, case, call, first, second),
        Err(_) => told.fall_short(),
    }
}

fn last_call(case: &Case) -> u64 {
    case.setting(b"calls").and_then(number_of).unwrap_or(0)
}

fn add_count(told: &mut Answer, count: u64) {
    told.add_number(count);
    told.add(b" scripts");
}

/// Runs the script of the case with its lines for each call from 1 to the setting `calls`, and tells which of its other
/// settings aren't met, and how many scripts there were.
pub fn tell(alloc: Global, told: &mut Answer, case: &Case) {
    let last = last_call(case);
    for call in 1..=last {
        judge(alloc, told, case, call, call);
    }
    add_count(told, last);
}

fn judge_pairs(alloc: Global, told: &mut Answer, case: &Case, second: u64) -> u64 {
    let mut count: u64 = 0;
    for first in 1..second {
        judge(alloc, told, case, first, second);
        count = count.saturating_add(1);
    }
    count
}

/// The same for each two calls.
pub fn tell_pairs(alloc: Global, told: &mut Answer, case: &Case) {
    let mut count: u64 = 0;
    for second in 1..=last_call(case) {
        count = count.saturating_add(judge_pairs(alloc, told, case, second));
    }
    add_count(told, count);
}
