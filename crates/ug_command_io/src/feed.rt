// The lines of a text, as its bytes come.
ghost use Rattle.std.specs.Prelude.{◌≡◌, ◌≢◌, ◌<◌, ◌≤◌, ◌+◌, ◌-◌, ◌*◌, ℕ, List, [], ◌∷◌, ◌++◌, Some, length, take, vec_len};
ghost use Rattle.ug_types.specs.Ends.{Rose};
ghost use Rattle.ug_lines.specs.Splitting.{IsLine};
ghost use Rattle.ug_command_io.specs.Fold as fold;
ghost use Rattle.ug_command_io.specs.Fold.{LineRefusal, Going};
ghost use Rattle.ug_command_io.specs.Refusals.{HoldsOfEach, RefusesLine, fault_in};
ghost use Rattle.ug_command_io.specs.Runs.{Extends, Feeds, Lasts};
ghost use Rattle.ug_lines.specs.Lines.{last_line, lines_from, whole_from};

use crate::machine::{Machine, Ran};
use std::alloc::Global;
use ug_types::Sink;

/// The greatest length of a line.
pub const MAX_LINE: usize = 1048576;

/// The greatest number of lines.
pub const MAX_LINES: u64 = 1048576;

/// Whether a line may come behind so many lines: there may be 1,048,576 lines of at most 1,048,576 bytes.
pub fn is_within(lines: u64, line: &[u8]) -> bool
    ensures { result ≡ fold.is_within lines line.now }
{
    lines < MAX_LINES && line.len() <= MAX_LINE
}

/// The number of lines that were taken, and the line that has begun.
#[derive(Drop)]
pub struct Splitter {
    pub line: Vec<u8>,
    pub lines: u64,
    ghost short: { vec_len line ≤ 1048576 },
    ghost few: { lines ≤ 1048576 },
}

/// The place behind the first newline, or the end.
fn part_end(bytes: &[u8]) -> usize
    requires { 0 < length bytes.now }
    ensures some { 0 < result }
    ensures within { result ≤ length bytes.now }
    ensures front { IsLine (take (result - 1) bytes.now) }
{
    let mut i = 0;
    while i < bytes.len() {
        if bytes[i] == b'\n' {
            return i + 1;
        }
        i += 1;
    }
    bytes.len()
}

impl Splitter {
    pub fn new(alloc: Global) -> Splitter
        ensures line { result.line.items ≡ [] }
        ensures lines { result.lines ≡ 0 }
    {
        Splitter {
            line: Vec::new(alloc),
            lines: 0,
        }
    }

    /// Takes bytes without a newline.
    fn extend(&mut self, run: &[u8]) -> Ran
        ensures extended { Extends self.old.line.items self.old.lines run.now result
            self.new.line.items }
        ensures lines { self.new.lines ≡ self.old.lines }
        ensures no_sink { result ≢ Ran.SinkFailed }
    {
        if run.is_empty() {
            return Ran::Done;
        }
        if self.lines >= MAX_LINES {
            return Ran::Bad;
        }
        if run.len() > MAX_LINE - self.line.len() {
            return Ran::Bad;
        }
        match self.line.extend_from_slice(run) {
            Ok(()) => Ran::Done,
            Err(_) => Ran::Memory,
        }
    }

    /// Takes a newline, which hands the line to the machine.
    fn end_line<K: Sink, W, M: Machine<W>>(
        &mut self,
        alloc: Global,
        machine: &mut M,
        world: &mut W,
        out: &mut K,
    ) -> Ran
        requires { M.keeps (M.state machine.old) world.old }
        ensures fed { Feeds M.step_of self.old.line.items self.old.lines
            (M.state machine.old, world.old) (K.held out.old) (10 ∷ [])
            result self.new.line.items self.new.lines (M.state machine.new, world.new)
            (K.held out.new) }
        ensures why { (fault : LineRefusal) → fault_in result ≡ Some fault → (text more : List ℕ)
            → RefusesLine M.step_of M.because
            (Going self.old.lines text (M.state machine.old, world.old))
            (lines_from self.old.line.items ((10 ∷ []) ++ more)) fault }
        ensures taken { result ≡ Ran.Done → (text : List ℕ)
            → HoldsOfEach M.step_of M.holds
            (Going self.old.lines text (M.state machine.old, world.old))
            (whole_from self.old.line.items (10 ∷ [])) }
        ensures kept { result ≡ Ran.Done → M.keeps (M.state machine.new) world.new }
        ensures further { result ≡ Ran.Done → self.new.lines ≡ self.old.lines + 1 }
        ensures counted { K.faults out.old ≤ K.faults out.new }
        ensures cause { result ≡ Ran.SinkFailed → Rose (K.faults out.old) (K.faults out.new) }
    {
        if self.lines >= MAX_LINES {
            return Ran::Bad;
        }
        match machine.step(alloc, world, &self.line, out) {
            Ran::Done => {
                self.line.clear();
                self.lines += 1;
                Ran::Done
            }
            other => other,
        }
    }

    /// Takes bytes of which only the last may be a newline.
    fn take<K: Sink, W, M: Machine<W>>(
        &mut self,
        alloc: Global,
        machine: &mut M,
        world: &mut W,
        out: &mut K,
        part: &[u8],
    ) -> Ran
        requires keeps { M.keeps (M.state machine.old) world.old }
        requires some { 0 < length part.now }
        requires front { IsLine (take (length part.now - 1) part.now) }
        ensures fed { Feeds M.step_of self.old.line.items self.old.lines
            (M.state machine.old, world.old) (K.held out.old) part.now
            result self.new.line.items self.new.lines (M.state machine.new, world.new)
            (K.held out.new) }
        ensures why { (fault : LineRefusal) → fault_in result ≡ Some fault → (text more : List ℕ)
            → RefusesLine M.step_of M.because
            (Going self.old.lines text (M.state machine.old, world.old))
            (lines_from self.old.line.items (part.now ++ more)) fault }
        ensures taken { result ≡ Ran.Done → (text : List ℕ)
            → HoldsOfEach M.step_of M.holds
            (Going self.old.lines text (M.state machine.old, world.old))
            (whole_from self.old.line.items part.now) }
        ensures kept { result ≡ Ran.Done → M.keeps (M.state machine.new) world.new }
        ensures further { result ≡ Ran.Done
            → self.old.lines * 1048578 + vec_len self.old.line + length part.now ≤ self.new.lines *
            1048578 + vec_len self.new.line }
        ensures counted { K.faults out.old ≤ K.faults out.new }
        ensures cause { result ≡ Ran.SinkFailed → Rose (K.faults out.old) (K.faults out.new) }
    {
        let end = part.len() - 1;
        if part[end] != b'\n' {
            return self.extend(part);
        }
        match self.extend(&part[..end]) {
            Ran::Done => self.end_line(alloc, machine, world, out),
            other => other,
        }
    }

    /// Takes the bytes of a piece, up to where a line isn't taken.
    pub fn feed<K: Sink, W, M: Machine<W>>(
        &mut self,
        alloc: Global,
        machine: &mut M,
        world: &mut W,
        out: &mut K,
        piece: &[u8],
    ) -> Ran
        requires { M.keeps (M.state machine.old) world.old }
        ensures fed { Feeds M.step_of self.old.line.items self.old.lines
            (M.state machine.old, world.old) (K.held out.old) piece.now
            result self.new.line.items self.new.lines (M.state machine.new, world.new)
            (K.held out.new) }
        ensures why { (fault : LineRefusal) → fault_in result ≡ Some fault → (text more : List ℕ)
            → RefusesLine M.step_of M.because
            (Going self.old.lines text (M.state machine.old, world.old))
            (lines_from self.old.line.items (piece.now ++ more)) fault }
        ensures taken { result ≡ Ran.Done → (text : List ℕ)
            → HoldsOfEach M.step_of M.holds
            (Going self.old.lines text (M.state machine.old, world.old))
            (whole_from self.old.line.items piece.now) }
        ensures kept { result ≡ Ran.Done → M.keeps (M.state machine.new) world.new }
        ensures further { result ≡ Ran.Done
            → self.old.lines * 1048578 + vec_len self.old.line + length piece.now ≤ self.new.lines *
            1048578 + vec_len self.new.line }
        ensures counted { K.faults out.old ≤ K.faults out.new }
        ensures cause { result ≡ Ran.SinkFailed → Rose (K.faults out.old) (K.faults out.new) }
    {
        let mut at = 0;
        while at < piece.len() {
            let rest = &piece[at..];
            let end = part_end(rest);
            match self.take(alloc, machine, world, out, &rest[..end]) {
                Ran::Done => {}
                other => return other,
            }
            at += end;
        }
        Ran::Done
    }

    /// Takes the line that has begun, if there is one, as the last line.
    pub fn last<K: Sink, W, M: Machine<W>>(
        &mut self,
        alloc: Global,
        machine: &mut M,
        world: &mut W,
        out: &mut K,
    ) -> Ran
        requires { M.keeps (M.state machine.old) world.old }
        ensures told { Lasts M.step_of self.old.line.items self.old.lines
            (M.state machine.old, world.old) (K.held out.old)
            result self.new.lines (M.state machine.new, world.new) (K.held out.new) }
        ensures why { (fault : LineRefusal) → fault_in result ≡ Some fault → (text : List ℕ)
            → RefusesLine M.step_of M.because
            (Going self.old.lines text (M.state machine.old, world.old))
            (last_line self.old.line.items) fault }
        ensures taken { result ≡ Ran.Done → (text : List ℕ)
            → HoldsOfEach M.step_of M.holds
            (Going self.old.lines text (M.state machine.old, world.old))
            (last_line self.old.line.items) }
        ensures counted { K.faults out.old ≤ K.faults out.new }
        ensures cause { result ≡ Ran.SinkFailed → Rose (K.faults out.old) (K.faults out.new) }
    {
        if self.line.len() == 0 {
            return Ran::Done;
        }
        if self.lines >= MAX_LINES {
            return Ran::Bad;
        }
        match machine.step(alloc, world, &self.line, out) {
            Ran::Done => {
                self.lines += 1;
                Ran::Done
            }
            other => other,
        }
    }
}
