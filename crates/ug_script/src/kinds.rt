// Kinds of a journal's entries.
ghost use Rattle.std.specs.Prelude.{◌≡◌, ◌<◌, ◌^◌, IsTrue};
ghost use Rattle.ug_audit.specs.Printed.{IsCause, IsEntry, IsUnsettling};
ghost use Rattle.ug_script.specs.Summing as summing;

use ug_core::{Entry, Fault};
use ug_types::{Cause, Moment};

pub fn begins_event(entry: &Entry) -> bool
    ensures { result ≡ summing.begins_event entry.now }
{
    matches!(
        entry,
        Entry::Event { .. } | Entry::Order { .. } | Entry::Hint { .. }
    )
}

pub fn sets_verdict(entry: &Entry) -> bool
    ensures { result ≡ summing.sets_verdict entry.now }
{
    matches!(entry, Entry::Judged { .. })
}

pub fn tells_write(entry: &Entry) -> bool
    ensures { result ≡ summing.tells_write entry.now }
{
    matches!(entry, Entry::Wrote { .. })
}

pub fn tells_unsettled(entry: &Entry) -> bool
    ensures { result ≡ summing.tells_unsettled entry.now }
{
    matches!(entry, Entry::Unsettled { .. } | Entry::UnsettledAll { .. })
}

/// Whether nobody's order was the cause.
fn is_ruling(cause: Cause) -> bool
    ensures { IsTrue result → IsCause cause }
{
    match cause {
        Cause::Rule(_id) => true,
        Cause::Implicit | Cause::Present | Cause::Keep | Cause::Inserted => true,
        Cause::Malformed {
            kind: _kind,
            place: _place,
        } => true,
        Cause::Order(_) => false,
    }
}

/// Why a name is unsettled has numbers within their type.
fn read_fault(fault: Fault)
    ensures { IsUnsettling fault }
{
    if let Fault::Call(failed) = fault {
        let _call = failed.call;
        let _count = failed.count;
    }
}

/// A moment is within its type.
fn read_moment(moment: Moment)
    ensures { moment.0 < 2 ^ 64 }
{
    let _seconds = moment.0;
}

/// Whether it is an entry of a sweep, or of a piece of recorded uevents.
pub fn is_of_sweep(entry: &Entry) -> bool
    ensures { IsTrue result → IsEntry entry.now }
{
    match *entry {
        Entry::Event {
            number: _number,
            moment,
        } => {
            read_moment(moment);
            true
        }
        Entry::Hint {
            number: _number,
            moment,
        } => {
            read_moment(moment);
            true
        }
        Entry::HintRefused {
            kind: _kind,
            place: _place,
        } => true,
        Entry::Judged {
            number: _number,
            name,
            cause,
            ..
        } => {
            let _named = name.len();
            is_ruling(cause)
        }
        Entry::Intent {
            number: _number,
            name,
            ..
        } => {
            let _named = name.len();
            true
        }
        Entry::Wrote {
            number: _number,
            name,
            ..
        } => {
            let _named = name.len();
            true
        }
        Entry::Gone {
            number: _number,
            name,
        } => {
            let _named = name.len();
            true
        }
        Entry::Unsettled { name, fault } => {
            let _named = name.len();
            read_fault(fault);
            true
        }
        Entry::UnsettledAll { fault } => {
            read_fault(fault);
            true
        }
        Entry::End { number: _number } => true,
        _ => false,
    }
}
