// How much the sessions of a listener may send at once.
ghost use Rattle.std.specs.Prelude.{◌≡◌, ◌≤◌, length};

use std::time::{Clock, Instant};

/// The length of a slice of time, in milliseconds.
const SLICE: u128 = 240;

/// How many lines the sessions of all listeners but root's may send in a slice, together.
const LINES: usize = 40;

/// The slice of time that goes on.
#[derive(Clone, Copy)]
pub struct Pace {
    since: Option<Instant>,
    pub slice: u64,
}

/// How many lines came of somebody in a slice.
#[derive(Clone, Copy)]
pub struct Sent {
    slice: u64,
    lines: usize,
}

impl Sent {
    pub fn new() -> Sent {
        Sent { slice: 0, lines: 0 }
    }

    /// How many came in that slice.
    pub fn lines_in(&self, slice: u64) -> usize {
        if self.slice == slice { self.lines } else { 0 }
    }

    /// So many more came in that slice.
    pub fn add(&mut self, slice: u64, lines: usize) {
        self.lines = self.lines_in(slice).saturating_add(lines);
        self.slice = slice;
    }
}

impl Pace {
    /// No slice has begun.
    pub fn new() -> Pace {
        Pace {
            since: None,
            slice: 0,
        }
    }

    /// Begins another slice where the last one is over. Where the clock can't be read, it is.
    pub fn renew(&mut self, now: Option<Instant>) {
        if let (Some(since), Some(now)) = (self.since, now)
            && now.duration_since(since).as_millis() < SLICE
        {
            return;
        }
        self.since = now;
        self.slice = self.slice.wrapping_add(1);
    }
}

/// The moment of this call, where the clock can be read.
pub fn moment<R: Clock>(rt: &R) -> Option<Instant> {
    Instant::now(rt).ok()
}

/// How many lines one of so many listeners may have in a slice, which is at least one for each of
/// its sessions.
pub fn lines_of(listeners: usize, sessions: usize) -> usize {
    share(LINES, listeners).max(sessions)
}

/// How many of them one of so many sessions may have.
pub fn lines_of_session(listeners: usize, sessions: usize) -> usize {
    share(share(LINES, listeners), sessions)
}

/// What one of so many has of a whole, which is at least one.
pub fn share(whole: usize, parts: usize) -> usize {
    if parts == 0 {
        whole
    } else {
        (whole / parts).max(1)
    }
}

/// How many bytes a front with at most so many lines has, of which the last may have no end.
pub fn front_with(bytes: &[u8], lines: usize) -> usize
    ensures { result ≤ length bytes.now }
{
    let mut found = 0usize;
    for i in 0..bytes.len() {
        if bytes[i] == b'\n' {
            found = found.saturating_add(1);
            if found >= lines {
                return i + 1;
            }
        }
    }
    bytes.len()
}

/// How many lines end in these bytes.
pub fn count_ends(bytes: &[u8]) -> usize {
    let mut ends = 0usize;
    for byte in bytes {
        if *byte == b'\n' {
            ends = ends.saturating_add(1);
        }
    }
    ends
}
