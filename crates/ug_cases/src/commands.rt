// What commands write, and how they end.
use crate::calls::{Asked, Call, ask, replay, tool};
use crate::inputs::source;
use std::alloc::Global;
use ug_casefile::{Answer, Case};
use ug_types::{MemSink, NoMemory};

/// The words of a line, between which stand spaces.
pub fn words_of(alloc: Global, line: &[u8]) -> Result<Vec<&str>, NoMemory> {
    let mut words = Vec::new(alloc);
    for part in line.split(|byte| *byte == b' ') {
        if !part.is_empty() {
            words.push(str::from_utf8(part).unwrap_or(""))?;
        }
    }
    Ok(words)
}

// The words of the setting `words`, or the one word; and behind them those of the settings `word`, each of which may hold
// spaces.
fn words<'a>(alloc: Global, case: &'a Case, word: &'a str) -> Result<Vec<&'a str>, NoMemory> {
    let Some(line) = case.setting(b"words") else {
        let mut words = Vec::new(alloc);
        words.push(word)?;
        return Ok(words);
    };
    let mut words = words_of(alloc, line)?;
    push_whole_words(&mut words, case)?;
    Ok(words)
}

fn push_whole_words<'a>(words: &mut Vec<&'a str>, case: &'a Case) -> Result<(), NoMemory> {
    for setting in case.settings.as_slice() {
        if setting.key.as_slice() == b"word".as_slice() {
            words.push(str::from_utf8(&setting.value).unwrap_or(""))?;
        }
    }
    Ok(())
}

fn sink(alloc: Global, case: &Case) -> Result<MemSink, NoMemory> {
    Ok(MemSink::new(alloc, case.numbers(alloc, b"writes")?))
}

fn call<'a>(alloc: Global, case: &'a Case, word: &'a str) -> Result<Call<'a>, NoMemory> {
    let words = words(alloc, case, word)?;
    let input = source(alloc, case, b"reads")?;
    Ok(Call {
        words,
        input,
        out: sink(alloc, case)?,
    })
}

fn count_lines(text: &[u8]) -> u64 {
    let mut count: u64 = 0;
    for byte in text {
        if *byte == b'\n' {
            count = count.saturating_add(1);
        }
    }
    count
}

fn add_status(told: &mut Answer, status: u8) {
    told.add(b"status ");
    told.add_number(u64::from(status));
}

fn add_replay(alloc: Global, told: &mut Answer, mut call: Call) {
    let (status, kernel) = replay(alloc, &mut call);
    told.add(call.out.bytes());
    add_status(told, status);
    told.add(b", ");
    told.add_number(kernel.log().len() as u64);
    told.add(b" writes");
}

/// What a script writes, its status, and how many writes to devices had their effect.
pub fn tell_replay(alloc: Global, told: &mut Answer, case: &Case) {
    match call(alloc, case, "replay") {
        Ok(call) => add_replay(alloc, told, call),
        Err(_) => told.fall_short(),
    }
}

fn add_counts(alloc: Global, told: &mut Answer, mut call: Call) {
    let (status, kernel) = replay(alloc, &mut call);
    told.add_number(count_lines(call.out.bytes()));
    told.add(b" lines, ");
    add_status(told, status);
    told.add(b", ");
    told.add_number(kernel.log().len() as u64);
    told.add(b" writes, ");
    told.add_number(kernel.devices().len() as u64);
    told.add(b" devices");
}

/// How many lines a script writes, its status, and how many writes and devices there were.
pub fn count_replay(alloc: Global, told: &mut Answer, case: &Case) {
    match call(alloc, case, "replay") {
        Ok(call) => add_counts(alloc, told, call),
        Err(_) => told.fall_short(),
    }
}

/// What a command writes, and its status.
pub fn tell_tool(alloc: Global, told: &mut Answer, word: &str, case: &Case) {
    match call(alloc, case, word) {
        Ok(mut call) => {
            let status = tool(alloc, &mut call);
            told.add(call.out.bytes());
            add_status(told, status);
        }
        Err(_) => told.fall_short(),
    }
}

fn add_asked(told: &mut Answer, asked: &Asked) {
    told.add(b"sent ");
    told.add(asked.link.sent());
    told.add(b"printed ");
    told.add(asked.out.bytes());
    add_status(told, asked.status);
}

/// What a command sends and writes whose link gives the input, and its status. The setting `unreachable` stands where no
/// daemon listens.
pub fn tell_ask(alloc: Global, told: &mut Answer, case: &Case) {
    let reachable = case.setting(b"unreachable").is_none();
    match call(alloc, case, "") {
        Ok(call) => add_asked(told, &ask(alloc, call, reachable)),
        Err(_) => told.fall_short(),
    }
}

/// How many lines a command writes, and its status.
pub fn count_tool(alloc: Global, told: &mut Answer, word: &str, case: &Case) {
    match call(alloc, case, word) {
        Ok(mut call) => {
            let status = tool(alloc, &mut call);
            told.add_number(count_lines(call.out.bytes()));
            told.add(b" lines, ");
            add_status(told, status);
        }
        Err(_) => told.fall_short(),
    }
}

/// Adds what was written, in one line, and the status.
pub fn add_in_one_line(told: &mut Answer, output: &[u8], status: u8) {
    for byte in output {
        match *byte {
            b'\n' => told.add(b"; "),
            other => told.add(&[other]),
        }
    }
    add_status(told, status);
}

// A script of the first line, some others and these.
fn script(alloc: Global, others: &[u8], lines: &[u8]) -> Result<Call<'static>, NoMemory> {
    let mut input = Answer::new(alloc);
    input.add(b"usbguard-replay 1\n");
    input.add(others);
    input.add(lines);
    Call::of_script(alloc, input.finish()?)
}

/// What the script of the first line, some others and these writes, in one line, and its status.
pub fn tell_line(alloc: Global, told: &mut Answer, others: &[u8], lines: &[u8]) {
    match script(alloc, others, lines) {
        Ok(mut call) => {
            let (status, _kernel) = replay(alloc, &mut call);
            add_in_one_line(told, call.out.bytes(), status);
        }
        Err(_) => told.fall_short(),
    }
}
