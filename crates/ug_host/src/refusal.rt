// The line of a journal that says why a daemon doesn't start.
ghost use Rattle.std.specs.Prelude.{◌≡◌, None};
ghost use Rattle.std.specs.Option.{option_copied};
ghost use Rattle.ug_types.specs.Ends.{IsCounted, Rose};
ghost use Rattle.ug_audit.specs.Auditors.{TakesEntryLine};

use std::alloc::Global;
use std::cell::Cell;
use std::rc::Rc;
use std::str;
use ug_audit::{Auditor, Noted};
use ug_conf::is_rule_file_name;

/// A part of a configuration.
#[derive(Drop)]
pub enum RefusedPart {
    Settings,
    Access,
    /// The files of the folder of rules, together.
    Folder,
    /// One of them, by its name.
    FolderFile(String),
    Rules,
}

/// The part that isn't taken, and the line, the kind and the place of its fault.
#[derive(Drop)]
pub struct StartRefusal {
    pub part: RefusedPart,
    pub line: u64,
    pub kind: u64,
    pub place: u64,
}

fn file_of(alloc: Global, word: &str) -> Option<RefusedPart> {
    let name = word.strip_prefix("folder/")?;
    if is_rule_file_name(name.as_bytes()) {
        let name = String::from_str(alloc, name).ok()?;
        Some(RefusedPart::FolderFile(name))
    } else {
        None
    }
}

fn part_of(alloc: Global, word: &str) -> Option<RefusedPart> {
    match word {
        "settings" => Some(RefusedPart::Settings),
        "access" => Some(RefusedPart::Access),
        "folder" => Some(RefusedPart::Folder),
        "rules" => Some(RefusedPart::Rules),
        _ => file_of(alloc, word),
    }
}

fn number_of(word: Option<&str>) -> Option<u64> {
    word?.parse::<u64>().ok()
}

fn refusal_of(alloc: Global, line: &[u8]) -> Option<StartRefusal> {
    let text = str::from_utf8(line).ok()?;
    let mut words = text.strip_prefix("start-refused ")?.split(' ');
    let part = words.next()?;
    let line = number_of(words.next())?;
    let kind = number_of(words.next())?;
    let place = number_of(words.next())?;
    let part = part_of(alloc, part)?;
    Some(StartRefusal {
        part,
        line,
        kind,
        place,
    })
}

/// Reads along in a journal, and keeps the last refusal of a start for whoever has a handle on it. For want of memory it keeps
/// none of a file of the folder.
#[derive(Drop)]
pub struct RefusalReader {
    alloc: Global,
    refusal: Rc<Cell<Option<StartRefusal>>>,
}

impl RefusalReader {
    /// A reader that leaves what it finds there.
    pub fn new(alloc: Global, refusal: Rc<Cell<Option<StartRefusal>>>) -> RefusalReader {
        RefusalReader { alloc, refusal }
    }
}

impl Auditor for RefusalReader {
    ghost text = { λ a. None };

    ghost faults = { λ a. 0 };

    fn note(&mut self, line: &[u8]) -> Noted {
        if let Some(refusal) = refusal_of(self.alloc, line) {
            self.refusal.set(Some(refusal));
        }
        Noted::Done
    }

    fn taken(&self) -> Option<&[u8]>
        ensures { option_copied result ≡ None }
    {
        None
    }

    fn faults(&self) -> u64 {
        0
    }
}
