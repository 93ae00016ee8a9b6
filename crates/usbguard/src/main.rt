// The program: the real objects and the top call.
#![tactic(auto)]

mod about;
mod bad_words;
mod earlier;
mod folder;
mod hub_parameter;
mod hubs_watch;
mod input;
mod last_line;
mod link_words;
mod open_hubs;
mod ordered;
mod refusals;
mod rule_place;
mod script_place;
mod serve;
mod service_words;
mod shown;
mod socket_choice;
mod texts;
mod told;
mod unkept;
mod usage;
mod waited;
mod waiting;
mod words;

use crate::about::tell_about;
use crate::earlier::tell_earlier_rules;
use crate::input::{KeptInput, LAST_LINES, WHOLE};
use crate::last_line::LastLine;
use crate::link_words::tell_link;
use crate::refusals::tell_last_line;
use crate::serve::serve;
use crate::socket_choice::{choose_socket, words_with};
use crate::texts::{TextsFault, read_texts, words_of};
use crate::unkept::tell_unkept;
use crate::usage::{tell, tell_unreadable};
use crate::waited::{Waited, waited_for};
use crate::waiting::tell_waiting;
use std::io::{self, Read, Write};
use std::process::ExitCode;
use ug_host::fill_standard_files;
use ug_sockets::SocketLink;
use ug_sysfs::SimKernel;
use ug_tool::{run_replay, run_tool};
use ug_types::{Put, ReaderSource, Sink, WriterSink};

/// Writes a fault line, and gives its status, or that of a failed write.
fn end_with(rt: &HostRuntime, line: &[u8], status: u8) -> u8 {
    match WriterSink::new(io::writer(rt)).put(line) {
        Put::Done => status,
        Put::Failed => 5,
    }
}

// Runs a script over a kernel in memory, and gives its status.
fn replay<R: Read + Drop, K: Sink>(rt: &HostRuntime, words: &[&str], input: R, out: &mut K) -> u8 {
    let mut input = ReaderSource::new(input);
    let mut kernel = SimKernel::new(rt.alloc());
    let status = run_replay(rt.alloc(), words, &mut input, out, &mut kernel);
    kernel.discard();
    drop(input);
    status
}

// Runs a command that may ask the daemon, and gives its status.
fn ask<R: Read + Drop, K: Sink>(rt: HostRuntime, words: &[&str], input: R, out: &mut K) -> u8 {
    let mut input = ReaderSource::new(input);
    let mut link = SocketLink::new(rt);
    let status = run_tool(rt.alloc(), words, &mut input, out, &mut link);
    if status == 8 {
        tell_link(&rt, &link);
    }
    if status == 0 {
        tell_earlier_rules(rt, words);
    }
    drop(link);
    drop(input);
    status
}

// The same with a path among the words, where there is memory for them.
fn ask_at<R: Read + Drop, K: Sink>(
    rt: HostRuntime,
    words: &[&str],
    path: &str,
    input: R,
    out: &mut K,
) -> u8 {
    match words_with(rt.alloc(), words, path) {
        Some(all) => {
            let status = ask(rt, &all, input, out);
            drop(all);
            status
        }
        None => ask(rt, words, input, out),
    }
}

// The same at the socket of the caller's choice.
fn ask_chosen<R: Read + Drop, K: Sink>(
    rt: HostRuntime,
    words: &[&str],
    input: R,
    out: &mut K,
) -> u8 {
    match choose_socket(&rt, words) {
        Some(path) => {
            let status = ask_at(rt, words, path.as_str(), input, out);
            drop(path);
            status
        }
        None => ask(rt, words, input, out),
    }
}

// Runs a command over its input and its output, and gives its status.
fn run_over<R: Read + Drop, K: Sink>(rt: HostRuntime, words: &[&str], input: R, out: &mut K) -> u8 {
    match words {
        ["replay", ..] => replay(&rt, words, input, out),
        _ => ask_chosen(rt, words, input, out),
    }
}

// Runs a watch over and over, each time that a daemon listens.
fn run_waiting<R: Read + Drop, W: Write>(
    rt: HostRuntime,
    words: &[&str],
    waited: &Waited,
    input: &mut KeptInput<R>,
    lines: &mut LastLine<W>,
) -> u8 {
    let mut status = 0;
    for _ in 0..u64::MAX {
        waited.wait(rt, words);
        lines.count_anew();
        status = run_over(rt, words, &mut *input, &mut WriterSink::new(&mut *lines));
        if waited.is_over(status, lines.count()) {
            break;
        }
    }
    status
}

// Runs a command, once or as often as its words wait for.
fn run_lines<R: Read + Drop, W: Write>(
    rt: HostRuntime,
    words: &[&str],
    input: &mut KeptInput<R>,
    lines: &mut LastLine<W>,
) -> u8 {
    match waited_for(&rt, words) {
        Some(waited) => {
            let status = run_waiting(rt, words, &waited, input, lines);
            drop(waited);
            status
        }
        None => run_over(rt, words, input, &mut WriterSink::new(lines)),
    }
}

// How much of its input is kept to show a line of it.
fn kept_of(words: &[&str]) -> usize {
    match words {
        ["replay" | "generate-policy", ..] => LAST_LINES,
        _ => WHOLE,
    }
}

// Runs a command, and tells a person what to know of its input and its output.
fn run_and_tell(rt: HostRuntime, words: &[&str]) -> u8 {
    tell_waiting(&rt, words);
    let mut lines = LastLine::new(rt.alloc(), io::writer(&rt));
    let mut input = KeptInput::new(rt.alloc(), rt.reader(), kept_of(words));
    let status = run_lines(rt, words, &mut input, &mut lines);
    tell_last_line(&rt, words, lines.text(), &input);
    drop(input);
    drop(lines);
    status
}

// Runs the command of these words, tells a person what to do, and gives its status.
fn run(rt: HostRuntime, words: &[&str]) -> u8 {
    let status = match words {
        ["daemon", behind @ ..] => serve(rt, behind),
        _ => run_and_tell(rt, words),
    };
    tell(&rt, words, status);
    tell_unkept(&rt, words, status);
    status
}

// Does what these texts ask for.
fn carry_out(rt: HostRuntime, texts: &[String]) -> u8 {
    let Some(words) = words_of(rt.alloc(), texts) else {
        return end_with(&rt, b"no memory\n", 6);
    };
    let status = match tell_about(&rt, &words) {
        Some(status) => status,
        None => run(rt, &words),
    };
    drop(words);
    status
}

fn main(rt: HostRuntime) -> ExitCode {
    fill_standard_files();
    let status = match read_texts(&rt) {
        Ok(texts) => {
            let status = carry_out(rt, texts.as_slice());
            drop(texts);
            status
        }
        Err(TextsFault::Memory) => end_with(&rt, b"no memory\n", 6),
        Err(TextsFault::Unreadable) => {
            tell_unreadable();
            end_with(&rt, b"bad words\n", 1)
        }
    };
    ExitCode::from(status)
}
