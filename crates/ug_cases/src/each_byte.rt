// Commands that ask the daemon, over links that end, fail or give another byte at each byte of what they give.
use crate::calls::{Asked, Call, ask};
use crate::commands::{add_in_one_line, words_of};
use std::alloc::Global;
use ug_casefile::{Answer, Case, bytes_of_hex};
use ug_types::{MemSink, MemSource, NoMemory};

/// What happens at a byte.
#[derive(Clone, Copy)]
enum Turn {
    Ends,
    Fails,
    Other(u8),
}

/// A command, what its link gives, and what it sends over one that ends there.
#[derive(Drop)]
struct Asking<'a> {
    words: &'a [u8],
    given: &'a [u8],
    sent: Vec<u8>,
}

/// What came of one place after another, with a line for those that have the same.
#[derive(Drop)]
struct Table {
    lines: Answer,
    first: u64,
    last: u64,
    answer: Vec<u8>,
    count: u64,
}

fn add_turn(told: &mut Answer, turn: Turn) {
    match turn {
        Turn::Ends => told.add(b"ends at "),
        Turn::Fails => told.add(b"fails at "),
        Turn::Other(byte) => {
            told.add(b"has ");
            told.add_escaped(&[byte]);
            told.add(b" at ");
        }
    }
}

impl Table {
    fn new(alloc: Global) -> Table {
        Table {
            lines: Answer::new(alloc),
            first: 0,
            last: 0,
            answer: Vec::new(alloc),
            count: 0,
        }
    }

    // Writes the line of the places that have the same answer.
    fn close(&mut self, turn: Turn) {
        if self.answer.is_empty() {
            return;
        }
        add_turn(&mut self.lines, turn);
        self.lines.add_number(self.first);
        if self.first < self.last {
            self.lines.add(b" to ");
            self.lines.add_number(self.last);
        }
        self.lines.add(b": ");
        self.lines.add(&self.answer);
        self.lines.add(b"\n");
        self.answer.clear();
    }

    fn add(&mut self, turn: Turn, place: u64, answer: Vec<u8>) {
        self.count = self.count.saturating_add(1);
        if answer != self.answer {
            self.close(turn);
            self.first = place;
            self.answer = answer;
        }
        self.last = place;
    }
}

// What a link gives whose bytes turn at that place.
fn turned(alloc: Global, given: &[u8], place: usize, turn: Turn) -> Result<Vec<u8>, NoMemory> {
    let mut bytes = Answer::new(alloc);
    bytes.add(given.get(..place).unwrap_or(&[]));
    if let Turn::Other(byte) = turn {
        let behind = place.saturating_add(1);
        bytes.add(&[byte]);
        bytes.add(given.get(behind..).unwrap_or(&[]));
    }
    bytes.finish()
}

// The number of the call of a link that fails: the bytes before it come in one call, if there are any.
fn failing_calls(alloc: Global, place: usize, turn: Turn) -> Result<Vec<u64>, NoMemory> {
    let mut calls = Vec::new(alloc);
    match turn {
        Turn::Fails => calls.push(if place == 0 { 1 } else { 2 })?,
        _ => {}
    }
    Ok(calls)
}

fn turned_link(
    alloc: Global,
    given: &[u8],
    place: usize,
    turn: Turn,
) -> Result<MemSource, NoMemory> {
    let calls = failing_calls(alloc, place, turn)?;
    Ok(MemSource::new(turned(alloc, given, place, turn)?, calls))
}

impl<'a> Asking<'a> {
    fn new(alloc: Global, words: &'a [u8], given: &'a [u8]) -> Result<Asking<'a>, NoMemory> {
        let mut asking = Asking {
            words,
            given,
            sent: Vec::new(alloc),
        };
        let whole = asking.run(alloc, given.len(), Turn::Ends)?;
        asking.sent.extend_from_slice(whole.link.sent())?;
        Ok(asking)
    }

    fn run(&self, alloc: Global, place: usize, turn: Turn) -> Result<Asked, NoMemory> {
        let words = words_of(alloc, self.words)?;
        let call = Call {
            words,
            input: turned_link(alloc, self.given, place, turn)?,
            out: MemSink::new(alloc, Vec::new(alloc)),
        };
        Ok(ask(alloc, call, true))
    }

    // What is printed, the status, and whether it sent something else than before.
    fn answer(&self, alloc: Global, place: usize, turn: Turn) -> Result<Vec<u8>, NoMemory> {
        let asked = self.run(alloc, place, turn)?;
        let mut told = Answer::new(alloc);
        add_in_one_line(&mut told, asked.out.bytes(), asked.status);
        if asked.link.sent() != self.sent.as_slice() {
            told.add(b", with another request");
        }
        told.finish()
    }

    fn add_places(&self, alloc: Global, table: &mut Table, turn: Turn, first: usize, end: usize) {
        for place in first..end {
            match self.answer(alloc, place, turn) {
                Ok(answer) => table.add(turn, place as u64, answer),
                Err(_) => table.lines.fall_short(),
            }
        }
        table.close(turn);
    }

    fn table(&self, alloc: Global, first: usize, others: &[u8]) -> Table {
        let mut table = Table::new(alloc);
        let end = self.given.len();
        let behind = end.saturating_add(1);
        self.add_places(alloc, &mut table, Turn::Ends, first, behind);
        self.add_places(alloc, &mut table, Turn::Fails, first, behind);
        for byte in others {
            self.add_places(alloc, &mut table, Turn::Other(*byte), first, end);
        }
        table
    }
}

// The first place: with the setting `whole`, that behind the whole input.
fn first_place(case: &Case) -> usize {
    match case.setting(b"whole") {
        Some(_) => case.input.len(),
        None => 0,
    }
}

// The bytes of the setting `others`, in hexadecimal digits.
fn others(alloc: Global, told: &mut Answer, case: &Case) -> Vec<u8> {
    match bytes_of_hex(alloc, case.setting(b"others").unwrap_or(&[])) {
        Ok(Some(bytes)) => bytes,
        Ok(None) => Vec::new(alloc),
        Err(_) => {
            told.fall_short();
            Vec::new(alloc)
        }
    }
}

fn without_newline(line: &[u8]) -> &[u8] {
    line.strip_suffix(b"\n").unwrap_or(line)
}

fn add_sent(told: &mut Answer, sent: &[u8]) {
    let before: &[u8] = if told.is_empty() { b"sent " } else { b"; " };
    told.add(before);
    told.add(without_newline(sent));
}

/// The tables of commands one behind another, and how many links they had.
#[derive(Drop)]
struct Tables {
    lines: Answer,
    last: Answer,
    count: u64,
}

impl Tables {
    // Commands one behind another of which the same comes have one table.
    fn add(&mut self, table: Table) {
        self.count = self.count.saturating_add(table.count);
        if table.lines.text() != self.last.text() {
            self.lines.add_answer(&table.lines);
        }
        self.last = table.lines;
    }

    fn add_command(
        &mut self,
        alloc: Global,
        sent: &mut Answer,
        case: &Case,
        words: &[u8],
        others: &[u8],
    ) {
        match Asking::new(alloc, words, &case.input) {
            Ok(asking) => {
                self.add(asking.table(alloc, first_place(case), others));
                add_sent(sent, &asking.sent);
            }
            Err(_) => sent.fall_short(),
        }
    }
}

fn add_tables(told: &mut Answer, tables: &Tables) {
    told.add(b"\n");
    told.add_answer(&tables.lines);
    told.add_number(tables.count);
    told.add(b" links");
}

/// What each command sends of the setting `commands`, between which stands `|`, and what comes of a link that ends or fails at
/// each place of the input, or with `whole` at its end alone, or has each byte of the setting `others` in place of each of its bytes.
/// Commands one behind another of which the same comes have one table. At last, how many links there were.
pub fn tell(alloc: Global, told: &mut Answer, case: &Case) {
    let others = others(alloc, told, case);
    let mut tables = Tables {
        lines: Answer::new(alloc),
        last: Answer::new(alloc),
        count: 0,
    };
    let commands = case.setting(b"commands").unwrap_or(&[]);
    for words in commands.split(|byte| *byte == b'|') {
        tables.add_command(alloc, told, case, words, &others);
    }
    add_tables(told, &tables);
}
