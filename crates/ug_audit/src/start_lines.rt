// The text of an entry of the start.
ghost use Rattle.std.specs.Prelude.{◌≡◌, ◌≤◌, [], ◌∷◌, length, codes, decimal};
ghost use Rattle.ug_audit.specs.Lines.{and_words};
ghost use Rattle.ug_audit.specs.StartLines.{part_text, start_line};

use crate::start_entry::{ConfigPart, StartEntry};
use ug_types::Line;

#[tactic(auto, unfolding(crate::specs::StartLines::part_text))]
fn text_of_part(part: &ConfigPart) -> Line
    ensures text { result ≡ part_text part.now }
    ensures length { length result ≤ 262 }
{
    match part {
        ConfigPart::Settings => Line::of(b"settings"),
        ConfigPart::Folder => Line::of(b"folder"),
        ConfigPart::FolderFile(name) => {
            let mut line = Line::of(b"folder/");
            line.push(name.bytes());
            line
        }
        ConfigPart::Rules => Line::of(b"rules"),
        ConfigPart::Access => Line::of(b"access"),
    }
}

fn line_of_unused(number: u64) -> Line
    ensures { result ≡ and_words (codes "note") (codes "unused-key" ∷ decimal number ∷ []) }
{
    let mut line = Line::of(b"note");
    line.push_word(b"unused-key");
    line.push_number(number);
    line
}

fn line_of_refused(part: &ConfigPart, number: u64, kind: u8, place: u64) -> Line
    ensures { result ≡ and_words (codes "start-refused")
        (part_text part.now ∷ decimal number ∷ decimal kind ∷ decimal place ∷ []) }
{
    let mut line = Line::of(b"start-refused");
    let what = text_of_part(part);
    line.push_word(what.bytes());
    line.push_number(number);
    line.push_number(kind as u64);
    line.push_number(place);
    line
}

/// The line of an entry of the start in the journal, without a newline. It takes no memory.
#[tactic(auto, unfolding(crate::specs::StartLines::start_line))]
pub fn line_of_start(entry: &StartEntry) -> Line
    ensures { result ≡ start_line entry.now }
{
    match entry {
        StartEntry::UnusedKey { line } => line_of_unused(*line),
        StartEntry::Refused {
            part,
            line,
            kind,
            place,
        } => line_of_refused(part, *line, *kind, *place),
    }
}
