// The auditors of a journal.
ghost use Rattle.std.specs.Prelude.{◌≡◌, ◌≤◌, ◌<◌, ◌+◌, ◌++◌, ◌∷◌, [], ◌^◌, false, length, replicate, slice_get, MatchOption, Some};
ghost use Rattle.std.specs.Option.{option_copied};
ghost use Rattle.arrayvec.specs.ArrayVec.{array_vec_len};
ghost use Rattle.ug_audit.specs.Auditors.{IsTextTaken};
ghost use Rattle.ug_audit.specs.Noting.{NotesLine};
ghost use Rattle.ug_audit.specs.StartLines.{start_line};
ghost use Rattle.ug_audit.specs.Panels.{TakesAs, is_newly, live_of, newly, newly_dropped, one_live, NotesAll, members_of, dropped_between};

use crate::auditor::{Auditor, Noted};
use crate::entry::Entry;
use crate::lines::line_of;
use crate::start_entry::StartEntry;
use crate::start_lines::line_of_start;
use arrayvec::ArrayVec;

/// At most 64 auditors, each of which is given each line until it fails.
#[derive(Drop)]
pub struct Panel {
    auditors: Vec<Box<dyn Auditor>>,
    dropped: [bool; 64],
    ghost few: { length auditors.items ≤ 64 },
}

/// Gives the line to an auditor that isn't dropped, and drops it where it fails. Tells whether it did.
fn give(auditor: &mut Box<dyn Auditor>, dropped: &mut bool, line: &[u8]) -> bool
    ensures taken { TakesAs dropped.old dropped.new line.now
        (record { text = text auditor.old; faults = faults auditor.old; dropped = dropped.old })
        (record { text = text auditor.new; faults = faults auditor.new; dropped = dropped.new }) }
    ensures told { result ≡ is_newly dropped.old dropped.new }
    ensures live { one_live dropped.new + newly dropped.old dropped.new ≡ one_live dropped.old }
{
    if *dropped {
        return false;
    }
    match auditor.note(line) {
        Noted::Done => false,
        Noted::Failed => {
            *dropped = true;
            true
        }
    }
}

/// The numbers of those that fail go behind the others that are due; the first auditor has that number.
fn give_all(
    auditors: &mut [Box<dyn Auditor>],
    dropped: &mut [bool],
    line: &[u8],
    first: u8,
    due: &mut ArrayVec<u8, 64>,
) -> u64
    requires few { first + length auditors.old ≤ 64 }
    requires marks { length auditors.old ≤ length dropped.old }
    requires room { array_vec_len due.old + live_of auditors.old dropped.old ≤ 64 }
    ensures each { NotesAll line.now
        (members_of (λ b. text b) (λ b. faults b) auditors.old dropped.old)
        (members_of (λ b. text b) (λ b. faults b) auditors.new dropped.new) }
    ensures set { result ≡ dropped_between
        (members_of (λ b. text b) (λ b. faults b) auditors.old dropped.old)
        (members_of (λ b. text b) (λ b. faults b) auditors.new dropped.new) }
    ensures due { due.new.items
        ≡ due.old.items
        ++ newly_dropped first (members_of (λ b. text b) (λ b. faults b) auditors.old dropped.old)
        (members_of (λ b. text b) (λ b. faults b) auditors.new dropped.new) }
    ensures live { live_of auditors.new dropped.new + array_vec_len due.new
        ≡ live_of auditors.old dropped.old + array_vec_len due.old }
    ensures small { result < 2 ^ length auditors.old }
    ensures auditors { length auditors.new ≡ length auditors.old }
    ensures dropped { length dropped.new ≡ length dropped.old }
{
    let Some((auditor, auditors)) = auditors.split_first_mut() else {
        return 0;
    };
    let Some((mark, dropped)) = dropped.split_first_mut() else {
        return 0;
    };
    let failed = give(auditor, mark, line);
    if failed {
        due.push(first);
    }
    let later = give_all(auditors, dropped, line, first + 1, due);
    failed as u64 + 2 * later
}

/// Takes the first of the members that are due.
pub(crate) fn take_first(due: &mut ArrayVec<u8, 64>) -> Option<u8>
    ensures { MatchOption result (due.old.items ≡ []) (λ i. due.old.items ≡ i ∷ due.new.items) }
{
    if due.is_empty() {
        return None;
    }
    Some(due.remove(0))
}

fn text_of(auditor: &Box<dyn Auditor>) -> Option<&[u8]>
    ensures { IsTextTaken (option_copied result) (text auditor.now) }
{
    auditor.taken()
}

impl Panel {
    ghost use Rattle.ug_audit.specs.Journal.{live_in, members};

    /// The panel of these auditors, of which there are at most 64.
    pub fn new(members: Vec<Box<dyn Auditor>>) -> Panel
        requires { length members.items ≤ 64 }
        ensures auditors { result.auditors ≡ members }
        ensures dropped { result.dropped ≡ replicate 64 false }
    {
        Panel {
            auditors: members,
            dropped: [false; 64],
        }
    }

    /// Gives a line to each member that isn't dropped, in order, and drops those that fail. The answer is the set of these, bit i
    /// for member i. It takes no memory.
    pub fn note(&mut self, line: &[u8]) -> u64
        ensures each { NotesAll line.now (members Auditor-box self.old)
            (members Auditor-box self.new) }
        ensures set { result ≡ dropped_between (members Auditor-box self.old)
            (members Auditor-box self.new) }
        ensures len { length self.new.auditors.items ≡ length self.old.auditors.items }
    {
        self.give_line(line, &mut ArrayVec::new())
    }

    /// Notes a line; the numbers of those that fail go behind the others that are due.
    pub(crate) fn give_line(&mut self, line: &[u8], due: &mut ArrayVec<u8, 64>) -> u64
        requires { array_vec_len due.old + live_in self.old ≤ 64 }
        ensures each { NotesAll line.now (members Auditor-box self.old)
            (members Auditor-box self.new) }
        ensures set { result ≡ dropped_between (members Auditor-box self.old)
            (members Auditor-box self.new) }
        ensures due { due.new.items
            ≡ due.old.items
            ++ newly_dropped 0 (members Auditor-box self.old) (members Auditor-box self.new) }
        ensures live { live_in self.new + array_vec_len due.new
            ≡ live_in self.old + array_vec_len due.old }
        ensures len { length self.new.auditors.items ≡ length self.old.auditors.items }
    {
        give_all(
            self.auditors.as_mut_slice(),
            &mut self.dropped,
            line,
            0,
            due,
        )
    }

    /// Gives an entry of the start to each member that isn't dropped, and behind it a `dropped` entry for each that fails at its line or
    /// at the line of such an entry, in the order in which they fail. It takes no memory.
    pub fn note_start(&mut self, entry: &StartEntry)
        ensures { NotesLine (start_line entry.now) (members Auditor-box self.old)
            (members Auditor-box self.new) }
    {
        let mut due = ArrayVec::new();
        self.give_line(line_of_start(entry).bytes(), &mut due);
        while let Some(member) = take_first(&mut due) {
            self.give_line(line_of(&Entry::Dropped { member }).bytes(), &mut due);
        }
    }

    /// How many members there are.
    pub fn len(&self) -> usize
        ensures value { result ≡ length self.now.auditors.items }
        ensures few { result ≤ 64 }
    {
        self.auditors.len()
    }

    /// The text that the member of that number tells.
    pub fn text(&self, i: usize) -> Option<&[u8]>
        requires { i < length self.now.auditors.items }
        ensures { (b : _) → slice_get self.now.auditors.items i ≡ Some b
            → IsTextTaken (option_copied result) (text b) }
    {
        match self.auditors.get(i) {
            Some(auditor) => text_of(auditor),
            None => None,
        }
    }
}
