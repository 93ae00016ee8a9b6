// Which of a command's words is wrong.
use std::alloc::Global;
use ug_arguments::{read_command, read_daemon_words};

/// Words that can stand where an option's value is expected.
const VALUES: [&str; 2] = ["1", "ALL"];

/// What is wrong with words.
#[derive(Clone, Copy)]
pub enum Wrong<'a> {
    /// This one can't stand there.
    Word(&'a str),
    /// One that is called so has to stand behind them.
    Missing(&'a str),
    Unknown,
}

// A word that can stand in the place of a word of a usage line; None where that is an option, or
// its value.
fn sample_of(word: &str) -> Option<&'static str> {
    match word {
        "NUMBER|QUERY" | "ID" | "EVENTS" | "START" => Some("1"),
        "NAME" | "VALUE" => Some("a"),
        "RULE" => Some("allow"),
        _ => None,
    }
}

// Whether the words are those of a command.
fn are_read(alloc: Global, words: &[&str]) -> bool {
    match words {
        ["daemon", behind @ ..] => match read_daemon_words(alloc, behind) {
            Ok(path) => {
                drop(path);
                true
            }
            Err(_) => false,
        },
        _ => match read_command(alloc, words) {
            Ok(command) => {
                command.discard();
                true
            }
            Err(_) => false,
        },
    }
}

// Whether they are with more behind them: an option's value, if there is one, and samples of the
// last words of the usage line.
fn are_begun(alloc: Global, words: &[&str], value: &[&str], samples: &[&str]) -> bool {
    let mut all = Vec::new(alloc);
    let is_whole = all.extend_from_slice(words).is_ok()
        && all.extend_from_slice(value).is_ok()
        && all.extend_from_slice(samples).is_ok();
    let is_read = is_whole && are_read(alloc, all.as_slice());
    drop(all);
    is_read
}

// The same with any option's value, or none.
fn can_end(alloc: Global, words: &[&str], samples: &[&str]) -> bool {
    if are_begun(alloc, words, &[], samples) {
        return true;
    }
    for value in VALUES {
        if are_begun(alloc, words, &[value], samples) {
            return true;
        }
    }
    false
}

// How many of the last samples have to stand behind the words, so that they are those of a command.
fn count_of_missing(alloc: Global, words: &[&str], samples: &[&str]) -> Option<usize> {
    for start in 0..samples.len() {
        let left = &samples[start..];
        if can_end(alloc, words, left) {
            return Some(left.len());
        }
    }
    if can_end(alloc, words, &[]) {
        return Some(0);
    }
    None
}

// The words of a usage line that have to be there, and a sample of each.
#[derive(Drop)]
struct Needed {
    names: Vec<&'static str>,
    samples: Vec<&'static str>,
}

impl Needed {
    fn new(alloc: Global) -> Needed {
        Needed {
            names: Vec::new(alloc),
            samples: Vec::new(alloc),
        }
    }

    // Adds those of a usage line, and tells whether there was memory for them.
    fn add(&mut self, usage: &'static str) -> bool {
        for name in usage.split(' ') {
            if let Some(sample) = sample_of(name)
                && (self.names.push(name).is_err() || self.samples.push(sample).is_err())
            {
                return false;
            }
        }
        true
    }

    // The first of so many last ones.
    fn missing(&self, count: usize) -> Wrong<'static> {
        match self.names.len().checked_sub(count) {
            Some(at) => match self.names.get(at) {
                Some(name) => Wrong::Missing(name),
                None => Wrong::Missing("the value of its last word"),
            },
            None => Wrong::Unknown,
        }
    }

    fn wrong<'a>(&self, alloc: Global, words: &[&'a str]) -> Wrong<'a> {
        let samples = self.samples.as_slice();
        let mut missing = 0;
        for count in 0..words.len() {
            match count_of_missing(alloc, &words[..count + 1], samples) {
                Some(more) => missing = more,
                None => return Wrong::Word(words[count]),
            }
        }
        self.missing(missing)
    }
}

/// What is wrong with the words of a command, which is used so.
pub fn wrong_word<'a>(alloc: Global, words: &[&'a str], usage: &'static str) -> Wrong<'a> {
    let mut needed = Needed::new(alloc);
    let wrong = if needed.add(usage) {
        needed.wrong(alloc, words)
    } else {
        Wrong::Unknown
    };
    drop(needed);
    wrong
}
