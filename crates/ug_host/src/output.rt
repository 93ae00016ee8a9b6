// A journal's output, which waits for nobody unless it is asked to.
use crate::repeats::Repeats;
use libc::net::poll;
use libc::types::pollfd;
use std::alloc::{AllocError, Global};
use std::io::{self, Write};
use ug_files::{put_at_once, tell};

/// The most bytes that wait for the output, and the most where a line is put that tells of no device.
const MOST: usize = 262_144;

const MOST_OF_OTHERS: usize = 131_072;

/// How a line begins that tells of a device.
const OF_DEVICES: [&[u8]; 5] = [b"judged ", b"intent ", b"wrote ", b"gone ", b"unsettled "];

/// The most pieces that are written of it at once.
const PIECES: u32 = 256;

/// How many lines are lost from one sentence to the next.
const STEP: u64 = 1000;

/// Milliseconds from one try of an output that takes nothing to the next.
const PAUSE: i32 = 10;

/// How an event's first line begins, and its last.
const EVENT: &[u8] = b"event ";

const END: &[u8] = b"end ";

/// Lines that wait for an open descriptor.
#[derive(Drop)]
struct Waiting {
    alloc: Global,
    output: i32,
    bytes: Vec<u8>,
    /// How many lines were lost since the output took all.
    lost: u64,
    /// How many of them since the last line that wasn't.
    gap: u64,
}

fn is_of_device(line: &[u8]) -> bool {
    for word in OF_DEVICES {
        if line.starts_with(word) {
            return true;
        }
    }
    false
}

fn sleep(millis: i32) {
    let mut nothing: [pollfd; 0] = [];
    let _slept = poll(&mut nothing, millis);
}

impl Waiting {
    // Writes a front, and tells whether the output took any of it.
    fn send_piece(&mut self) -> bool {
        let count = put_at_once(self.output, self.bytes.as_slice());
        if count == 0 {
            return false;
        }
        let _written = self.bytes.drain(..count);
        true
    }

    fn send_pieces(&mut self) {
        for _ in 0..PIECES {
            if !self.send_piece() {
                break;
            }
        }
    }

    // Writes all, however long the output takes nothing.
    fn send_all(&mut self) {
        let mut is_told = false;
        for _ in 0..u64::MAX {
            self.send_pieces();
            if self.bytes.is_empty() {
                break;
            }
            if !is_told {
                tell(
                    "usbguard: standard output takes nothing. The daemon waits for it, as USBGUARD_JOURNAL says.\n",
                );
                is_told = true;
            }
            sleep(PAUSE);
        }
    }

    // Writes as much as the output takes.
    fn send(&mut self) {
        self.send_pieces();
        if self.bytes.is_empty() && self.gap > 0 && self.add(b"").is_ok() {
            self.send_pieces();
        }
        if self.bytes.is_empty() && self.lost > 0 {
            self.tell_lost(
                "standard output takes lines again. Lines of the journal that were lost",
            );
            self.lost = 0;
        }
    }

    // The line that stands in the place of those that were lost.
    fn mark(&self) -> Result<String, AllocError> {
        if self.gap == 0 {
            return Ok(String::new(self.alloc));
        }
        let gap = self.gap;
        format!(in self.alloc; "lost {gap}\n")
    }

    // How many bytes more may wait where such a line is put.
    fn room_for(&self, line: &[u8]) -> usize {
        let most = if is_of_device(line) {
            MOST
        } else {
            MOST_OF_OTHERS
        };
        most.saturating_sub(self.bytes.len())
    }

    // Puts a line behind the others, and before it the mark of what was lost there.
    fn add(&mut self, line: &[u8]) -> Result<(), AllocError> {
        let mark = self.mark()?;
        let size = mark.len().saturating_add(line.len());
        if size > self.room_for(line) {
            return Err(AllocError);
        }
        self.bytes.reserve(size)?;
        self.bytes.extend_from_slice(mark.as_bytes())?;
        self.bytes.extend_from_slice(line)?;
        self.gap = 0;
        Ok(())
    }

    // The same. Where there is no room for it, it is lost.
    fn pass(&mut self, line: &[u8]) {
        if self.add(line).is_err() {
            self.lose();
        }
    }

    fn lose(&mut self) {
        if self.lost % STEP == 0 {
            self.tell_lost(
                "standard output takes nothing. Lines of the journal that were lost before this one",
            );
        }
        self.lost = self.lost.saturating_add(1);
        self.gap = self.gap.saturating_add(1);
    }

    fn tell_lost(&self, what: &str) {
        let lost = self.lost;
        if let Ok(sentence) = format!(in self.alloc; "usbguard: {what}: {lost}\n") {
            tell(sentence.as_str());
        }
    }
}

/// Takes each line of a journal at once, and writes it to an open descriptor as soon as that takes it: what isn't taken waits, and goes
/// out before later lines. A line for which there is no room is lost, and the next one is tried anew. A line `lost N` stands where N were
/// lost, and standard error tells it too. Of the 262,144 bytes that may wait, lines that tell of no device take the first 131,072
/// alone. So no write fails, and none waits.
///
/// Where it is asked to wait, each line is out before the call that flushes it returns, whatever becomes of the output.
///
/// Where idle events are omitted, the first line of a sweep's event goes out with the line behind it; where that is the event's last,
/// neither does. Nor does an event of which each line but these tells a trouble that the event
/// before told: a save or a listing that fails still.
#[derive(Drop)]
pub struct JournalOutput {
    omits_idle: bool,
    waits: bool,
    /// A line that hasn't ended yet.
    line: Vec<u8>,
    /// Whether there was no memory for a part of it.
    cut: bool,
    /// An event's first line, and those behind it that the event before had too.
    held: Vec<u8>,
    repeats: Repeats,
    waiting: Waiting,
}

fn is_newline(byte: &u8) -> bool {
    *byte == b'\n'
}

fn is_sweep(line: &[u8]) -> bool {
    if !line.starts_with(EVENT) {
        return false;
    }
    for word in line.windows(7) {
        if word == b" sweep ".as_slice() {
            return true;
        }
    }
    false
}

impl JournalOutput {
    /// An output over that descriptor, which stays open. It takes no memory.
    pub fn new(alloc: Global, output: i32, omits_idle: bool) -> JournalOutput {
        JournalOutput {
            omits_idle,
            waits: false,
            line: Vec::new(alloc),
            cut: false,
            held: Vec::new(alloc),
            repeats: Repeats::new(),
            waiting: Waiting {
                alloc,
                output,
                bytes: Vec::new(alloc),
                lost: 0,
                gap: 0,
            },
        }
    }

    /// Has each line be out before the call that flushes it returns.
    pub fn set_waits(&mut self, waits: bool) {
        self.waits = waits;
    }

    // Whether the line is kept back until the next one comes.
    fn holds_back(&mut self) -> bool {
        self.omits_idle
            && is_sweep(self.line.as_slice())
            && self.held.extend_from_slice(self.line.as_slice()).is_ok()
    }

    // Whether the line is kept back behind an event's first one.
    fn holds_repeated(&mut self) -> bool {
        self.repeats.is_repeated(self.line.as_slice())
            && !self.held.is_empty()
            && self.held.extend_from_slice(self.line.as_slice()).is_ok()
    }

    // Passes the lines on that were kept back.
    fn pass_held(&mut self) {
        for line in self.held.split_inclusive(is_newline) {
            self.waiting.pass(line);
        }
        self.held.clear();
    }

    // Passes a whole line on, or keeps it back.
    fn pass_line(&mut self) {
        if self.holds_repeated() {
            return;
        }
        self.pass_held();
        if !self.holds_back() {
            self.waiting.pass(self.line.as_slice());
        }
    }

    // A line has ended.
    fn end_line(&mut self) {
        let is_end = self.line.starts_with(END);
        if self.cut {
            self.waiting.lose();
        } else if is_end && !self.held.is_empty() {
            self.held.clear();
        } else {
            self.pass_line();
        }
        if is_end {
            self.repeats.end_event();
        }
        self.line.clear();
        self.cut = false;
    }
}

impl Write for JournalOutput {
    fn write(&mut self, bytes: &[u8]) -> io::Result<usize> {
        if self.line.extend_from_slice(bytes).is_err() {
            self.cut = true;
        }
        if bytes.ends_with(b"\n") {
            self.end_line();
        }
        Ok(bytes.len())
    }

    fn flush(&mut self) -> io::Result<()> {
        if self.waits {
            self.waiting.send_all();
        } else {
            self.waiting.send();
        }
        Ok(())
    }
}
