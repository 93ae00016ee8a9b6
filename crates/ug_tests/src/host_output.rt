// A journal over outputs that take nothing for a while.
use crate::folders::{holds, make_folder, remove_folder};
use std::fs;
use std::io::Read;
use std::os::fd::AsRawFd;
use std::os::unix::net::UnixStream;
use std::rt::Files;
use ug_audit::{Auditor, Noted};
use ug_host::{JournalOutput, WriterAuditor};

type Journal = WriterAuditor<JournalOutput>;

fn make_journal(rt: &HostRuntime, output: i32, omits_idle: bool) -> Journal {
    WriterAuditor::new(JournalOutput::new(rt.alloc(), output, omits_idle))
}

fn all_done(journal: &mut Journal, line: &[u8], times: u32) -> bool {
    for _ in 0..times {
        if journal.note(line) != Noted::Done {
            return false;
        }
    }
    true
}

// How many lines begin so.
fn count_lines(text: &[u8], start: u8) -> usize {
    let mut count = 0usize;
    for line in text.split(|byte| *byte == b'\n') {
        if line.first() == Some(&start) {
            count = count.saturating_add(1);
        }
    }
    count
}

// Reads what a socket has at once, and tells how many lines begin so.
fn read_lines(socket: &mut UnixStream, start: u8) -> Option<usize> {
    let mut piece = [0u8; 65536];
    let count = socket.read(&mut piece).ok()?;
    Some(count_lines(&piece[..count], start))
}

// How many of the first lines come, while others are noted.
fn lines_that_come(journal: &mut Journal, reader: &mut UnixStream) -> Option<usize> {
    let mut lines = 0usize;
    for _ in 0..16 {
        lines = lines.saturating_add(read_lines(reader, b'a')?);
        if !all_done(journal, &[b'b'; 63], 1) {
            return None;
        }
    }
    Some(lines)
}

// Lines of 64 bytes that tell of no device, of which 2,048 wait beside those that the socket takes.
fn count_kept(rt: &HostRuntime) -> Option<usize> {
    let (mut reader, writer) = UnixStream::pair(rt).ok()?;
    let mut journal = make_journal(rt, writer.as_raw_fd(), false);
    if !all_done(&mut journal, &[b'a'; 63], 20000) || journal.faults() != 0 {
        return None;
    }
    lines_that_come(&mut journal, &mut reader)
}

#[test]
fn a_reader_that_stops_stops_nobody(rt: HostRuntime) {
    let lines = count_kept(&rt).expect(&rt, "a line wasn't taken");
    assert!(rt; lines >= 2048 && lines < 20000);
}

#[test]
fn a_full_disk_stops_nobody(rt: HostRuntime) {
    let full = fs::OpenOptions::new().write(true).open(&rt, "/dev/full");
    let full = full.ok().expect(&rt, "no full disk");
    let mut journal = make_journal(&rt, full.as_raw_fd(), false);
    assert!(rt; all_done(&mut journal, b"event 1 sweep 0", 3));
}

const LINES: [&str; 9] = [
    "event 1 sweep 0",
    "end 1",
    "event 2 sweep 1",
    "gone 1 1-1",
    "end 2",
    "event 3 order 2 root",
    "reply ok",
    "end 3",
    "event 4 sweep 3",
];

const WANTED: &[u8] =
    b"event 2 sweep 1\ngone 1 1-1\nend 2\nevent 3 order 2 root\nreply ok\nend 3\n";

const PATH: &str = "out/idle/lines";

fn notes_all(journal: &mut Journal, lines: &[&str]) -> bool {
    for line in lines {
        if !all_done(journal, line.as_bytes(), 1) {
            return false;
        }
    }
    true
}

#[test]
fn an_idle_event_can_be_omitted(rt: HostRuntime) {
    assert!(rt; make_folder(&rt, "out/idle"));
    let file = fs::create(&rt, PATH).ok().expect(&rt, "no file");
    let mut journal = make_journal(&rt, file.as_raw_fd(), true);
    assert!(rt; notes_all(&mut journal, &LINES));
    assert!(rt; holds(&rt, PATH, WANTED));
    assert!(rt; remove_folder(&rt, "out/idle"));
}
