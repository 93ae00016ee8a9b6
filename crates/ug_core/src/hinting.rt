// A piece of recorded uevents, which an event meets.
ghost use Rattle.std.specs.Prelude.{◌≡◌, ◌≤◌, ◌<◌, ◌+◌, ◌*◌, ◌++◌, ◌↔◌, ℕ, [], List, IfOk, MatchResult, OnErr, length, vec_capacity};
ghost use Rattle.ug_audit.specs.Journal.{live_in, members, noted_in, Notes, SameEntries};
ghost use Rattle.ug_core.specs.Due.{FitsDue};
ghost use Rattle.ug_core.specs.Event.{daemon_of, NotesMore};
ghost use Rattle.ug_table.specs.Laws.{AreInOrder};
ghost use Rattle.ug_types.specs.Elements.{Has};
ghost use Rattle.ug_types.specs.Events.{longest_piece};
ghost use Rattle.ug_uevent.specs.Streams.{stream_with_piece};
ghost use Rattle.ug_core.specs.Hinting.{MeetsPiece, ReadsMessages, name_hinted, names_due, refusal_of};

use crate::daemon::Daemon;
use rand_core::Rng;
use std::alloc::Global;
use ug_audit::{Auditor, Entry, Fault, Journal, Panel};
use ug_cond::Zone;
use ug_table::{Table, in_order};
use ug_types::{List, NoMemory, NodeName, Numbered};
use ug_uevent::{Hint, Hints, UeventFault};

// What a message comes to: one that is refused is noted, and the name that one hints at is appended.
fn take_answer(answer: Result<Hint, UeventFault>, names: &mut Vec<NodeName>, out: &mut Journal)
    requires place { 1 ≤ (noted_in out.old).spare }
    requires room { length names.old.items < vec_capacity names.old }
    ensures names { names.new.items ≡ names.old.items ++ name_hinted answer }
    ensures capacity { vec_capacity names.new ≡ vec_capacity names.old }
    ensures entries { (noted_in out.new).entries
        ≡ (noted_in out.old).entries ++ refusal_of answer }
    ensures journal { Notes (λ b. ⟦<dyn Auditor as Auditor>⟧ b.vtable) 1 out.old out.new }
{
    match answer {
        Ok(hint) => {
            if let Some(name) = hint.name {
                names.push_reserved(name);
            }
        }
        Err(bad) => out.push(Entry::HintRefused {
            kind: bad.kind.number(),
            place: bad.place,
        }),
    }
}

// Reads each message that is left.
fn read_messages(hints: &mut Hints, names: &mut Vec<NodeName>, out: &mut Journal)
    requires place { length hints.old.messages ≤ (noted_in out.old).spare }
    requires empty { names.old.items ≡ [] }
    requires room { length hints.old.messages ≤ vec_capacity names.old }
    ensures stream { hints.new ≡ record { messages = []; begun = hints.old.begun } }
    ensures reads { ReadsMessages hints.old.messages names.new.items
        (noted_in out.old).entries (noted_in out.new).entries }
    ensures few { length names.new.items ≤ length hints.old.messages }
    ensures journal { Notes (λ b. ⟦<dyn Auditor as Auditor>⟧ b.vtable)
        (length hints.old.messages) out.old out.new }
{
    while let Some(answer) = hints.next_hint() {
        take_answer(answer, names, out);
    }
}

// Reads the messages that end in the piece. The room is made before: a refusal changes nothing.
fn read_piece(
    alloc: Global,
    table: &Table,
    hints: &mut Hints,
    piece: &[u8],
    out: &mut Journal,
) -> Result<Vec<NodeName>, NoMemory>
    requires piece { length piece.now ≤ longest_piece }
    requires handed_out { hints.old.messages ≡ [] }
    ensures stream { MatchResult result
        (λ _. hints.new
        ≡ record { messages = []; begun = (stream_with_piece hints.old piece.now).begun })
        (λ _. hints.new ≡ hints.old) }
    ensures reads { IfOk result (λ names. ReadsMessages
        (stream_with_piece hints.old piece.now).messages names.items
        (noted_in out.old).entries (noted_in out.new).entries) }
    ensures fits { IfOk result (λ names. (length names.items ≤ longest_piece)
        × (10 * length names.items + 2 ≤ (noted_in out.new).spare)
        × (10 * (length table.now.standings + length names.items) + 64 ≤ (noted_in out.new).room)) }
    ensures same { SameEntries (λ b. ⟦<dyn Auditor as Auditor>⟧ b.vtable) out.old out.new }
    ensures kept { OnErr result (((noted_in out.new).entries ≡ (noted_in out.old).entries)
        × ((noted_in out.old).spare ≤ (noted_in out.new).spare)
        × ((noted_in out.old).room ≤ (noted_in out.new).room)) }
{
    let count = hints.messages_with(piece);
    let places = table.places_for(2 * count)?;
    out.reserve(places)?;
    let mut names = Vec::with_capacity(alloc, count)?;
    hints.feed(piece)?;
    read_messages(hints, &mut names, out);
    Ok(names)
}

// The names in order, each once. Where no listing has succeeded no name is due.
fn names_due(listed: bool, mut names: Vec<NodeName>) -> List<NodeName>
    ensures due { (sorted : List (List ℕ)) × AreInOrder sorted
        × ((name : List ℕ) → Has sorted name ↔ Has names.items name)
        × (result ≡ names_due listed sorted) }
    ensures few { length result ≤ length names.items }
{
    in_order(&mut names);
    if listed {
        return List::from_vec(names);
    }
    names.clear();
    List::from_vec(names)
}

impl<Z: Zone, R: Rng> Daemon<Z, R> {
    // Takes the piece, or drops it where memory is refused, which is noted.
    pub(crate) fn meet_piece(&mut self, alloc: Global, piece: &[u8], panel: &mut Panel)
        requires piece { length piece.now ≤ longest_piece }
        requires place { live_in panel.old + 3 ≤ self.old.report.entries.spare }
        ensures meets { MeetsPiece piece.now (daemon_of self.old) (daemon_of self.new) }
        ensures fits { FitsDue self.new.due (length self.new.table.standings)
            (live_in panel.new) self.new.report.entries.spare self.new.report.entries.room }
        ensures next { self.new.table.next ≡ self.old.table.next }
        ensures next_event { self.new.next_event ≡ self.old.next_event }
        ensures number { self.new.report.event ≡ self.old.report.event }
        ensures reply { self.new.report.reply ≡ self.old.report.reply }
        ensures noted { NotesMore self.old.report.entries.entries self.new.report.entries.entries
            (members (λ b. ⟦<dyn Auditor as Auditor>⟧ b.vtable) panel.old)
            (members (λ b. ⟦<dyn Auditor as Auditor>⟧ b.vtable) panel.new) }
    {
        let mut journal = Journal::join(panel, &mut self.report.entries);
        match read_piece(alloc, &self.table, &mut self.hints, piece, &mut journal) {
            Ok(names) => self.due = Some(names_due(self.table.listed(), names)),
            Err(_) => {
                journal.push(Entry::UnsettledAll {
                    fault: Fault::Memory,
                });
                self.due = Some(List::new(alloc));
            }
        }
    }
}
