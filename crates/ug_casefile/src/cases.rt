// What a text of cases holds.
use crate::words::number_of;
use std::alloc::Global;
use ug_types::NoMemory;

#[derive(Drop)]
pub struct Setting {
    pub key: Vec<u8>,
    pub value: Vec<u8>,
}

/// What is given, and the text that is wanted for it.
#[derive(Drop)]
pub struct Case {
    /// The line where it begins, counted from 1.
    pub line: u64,
    pub kind: Vec<u8>,
    pub settings: Vec<Setting>,
    pub input: Vec<u8>,
    /// Its lines are joined by newlines, and the last has none behind it.
    pub wanted: Vec<u8>,
}

impl Case {
    pub fn new(alloc: Global) -> Case {
        Case {
            line: 0,
            kind: Vec::new(alloc),
            settings: Vec::new(alloc),
            input: Vec::new(alloc),
            wanted: Vec::new(alloc),
        }
    }

    /// The value of the first setting of that key.
    pub fn setting(&self, key: &[u8]) -> Option<&[u8]> {
        for setting in self.settings.as_slice() {
            if setting.key.as_slice() == key {
                return Some(setting.value.as_slice());
            }
        }
        None
    }

    /// The numbers of the first setting of that key.
    pub fn numbers(&self, alloc: Global, key: &[u8]) -> Result<Vec<u64>, NoMemory> {
        let mut numbers = Vec::new(alloc);
        let line = self.setting(key).unwrap_or(&[]);
        for part in line.split(|byte| *byte == b' ') {
            if let Some(number) = number_of(part) {
                numbers.push(number)?;
            }
        }
        Ok(numbers)
    }

    /// The input as one line, without the newline at its end.
    pub fn line_given(&self) -> &[u8] {
        match self.input.as_slice() {
            [line @ .., b'\n'] => line,
            line => line,
        }
    }
}

#[derive(Drop)]
pub struct CaseFile {
    pub cases: Vec<Case>,
    /// The numbers of the lines that aren't in the format.
    pub bad_lines: Vec<u64>,
}
