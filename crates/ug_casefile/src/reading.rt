// A text of cases, line by line.
use crate::answer::{Answer, say};
use crate::cases::{Case, CaseFile, Setting};
use crate::inputs::add_input;
use crate::names::Names;
use crate::words::split_word;
use std::alloc::Global;
use std::mem;
use ug_types::NoMemory;

#[derive(Drop)]
struct Reader {
    alloc: Global,
    names: Names,
    kind: Vec<u8>,
    // The case that the lines build, whether one of them began it, and whether an answer is wanted already.
    case: Case,
    input: Answer,
    wanted: Answer,
    begun: bool,
    answered: bool,
    file: CaseFile,
}

impl Reader {
    fn new(alloc: Global) -> Reader {
        Reader {
            alloc,
            names: Names::new(alloc),
            kind: Vec::new(alloc),
            case: Case::new(alloc),
            input: Answer::new(alloc),
            wanted: Answer::new(alloc),
            begun: false,
            answered: false,
            file: CaseFile {
                cases: Vec::new(alloc),
                bad_lines: Vec::new(alloc),
            },
        }
    }

    fn take_case(&mut self) -> Result<Case, NoMemory> {
        let mut case = mem::replace(&mut self.case, Case::new(self.alloc));
        case.input = mem::replace(&mut self.input, Answer::new(self.alloc)).finish()?;
        case.wanted = mem::replace(&mut self.wanted, Answer::new(self.alloc)).finish()?;
        Ok(case)
    }

    fn close(&mut self) -> Result<(), NoMemory> {
        if self.begun {
            let case = self.take_case()?;
            self.file.cases.push(case)?;
        }
        self.begun = false;
        self.answered = false;
        Ok(())
    }

    fn begin(&mut self, number: u64) -> Result<(), NoMemory> {
        if self.answered {
            self.close()?;
        }
        if !self.begun {
            self.case.line = number;
            self.case.kind = say(self.alloc, &self.kind)?;
            self.begun = true;
        }
        Ok(())
    }

    fn set(&mut self, number: u64, text: &[u8]) -> Result<bool, NoMemory> {
        self.begin(number)?;
        let (key, value) = split_word(text);
        let key = say(self.alloc, key)?;
        let value = self.names.expand(self.alloc, value)?;
        self.case.settings.push(Setting { key, value })?;
        Ok(true)
    }

    fn give(&mut self, number: u64, mark: u8, text: &[u8]) -> Result<bool, NoMemory> {
        self.begin(number)?;
        let text = self.names.expand(self.alloc, text)?;
        add_input(self.alloc, &mut self.input, mark, &text)
    }

    fn want(&mut self, text: &[u8]) -> Result<bool, NoMemory> {
        if self.answered {
            self.wanted.add(b"\n");
        }
        self.wanted.add(&self.names.expand(self.alloc, text)?);
        self.answered = true;
        Ok(self.begun)
    }

    fn name_kind(&mut self, text: &[u8]) -> Result<bool, NoMemory> {
        self.close()?;
        self.kind = say(self.alloc, text)?;
        Ok(true)
    }

    // Whether the line is in the format.
    fn read_line(&mut self, number: u64, line: &[u8]) -> Result<bool, NoMemory> {
        let Some((mark, rest)) = line.split_first() else {
            return Ok(true);
        };
        let (before, text) = split_word(rest);
        if !before.is_empty() {
            return Ok(*mark == b'#');
        }
        match *mark {
            b'#' => Ok(true),
            b'=' => self.names.define(self.alloc, text),
            b':' => self.name_kind(text),
            b'?' => self.set(number, text),
            b'>' => self.want(text),
            mark => self.give(number, mark, text),
        }
    }

    fn take(&mut self, number: u64, line: &[u8]) -> Result<(), NoMemory> {
        if !self.read_line(number, line)? {
            self.file.bad_lines.push(number)?;
        }
        Ok(())
    }

    fn finish(mut self) -> Result<CaseFile, NoMemory> {
        self.close()?;
        Ok(self.file)
    }
}

/// Reads a text of cases. Each line is empty or has a mark, and a space before what else stands there:
///
/// - `#` a comment;
/// - `= NAME TEXT`: behind it, `$NAME` stands for the text;
/// - `: KIND`: the cases behind it are of that kind;
/// - `? KEY VALUE`: a setting of a case;
/// - `< TEXT`: a line of its input, and `+ TEXT` the same without a newline; `x HEX`: these bytes; `* COUNT HEX`: copies of them;
/// - `% FIRST LAST PATTERN`: a line for each number, which stands for each `%` of the pattern;
/// - `& FIRST LAST FIRST LAST PATTERN`: a line for each two numbers, which stand for `%` and `&`;
/// - `> TEXT`: a line that is wanted.
///
/// A line of another mark than `>` behind one that is wanted begins the next case.
pub fn read_cases(alloc: Global, text: &[u8]) -> Result<CaseFile, NoMemory> {
    let mut reader = Reader::new(alloc);
    let mut number: u64 = 0;
    for line in text.split(|byte| *byte == b'\n') {
        number = number.saturating_add(1);
        reader.take(number, line)?;
    }
    reader.finish()
}
