// A standing is found by its number and settled again, by a judge that allows root hubs and rejects each other device.
ghost use Rattle.ug_types.specs.declared.verdict.Cause.TheVariants.{Implicit};
ghost use Rattle.ug_types.specs.declared.verdict.Target.TheVariants.{Allow, Reject};

use crate::devices::hub_and_key;
use std::alloc::Global;
use ug_audit::{Entries, Journal, Panel, line_of};
use ug_sysfs::SimKernel;
use ug_table::{Judge, Settled, Table};
use ug_types::{Cause, Judged, NodeName, Target};

#[derive(Drop)]
struct Rejecting {}

impl Judge for Rejecting {
    ghost use Rattle.std.specs.Prelude.{if◌then◌else◌};
    ghost use Rattle.ug_tests.specs.declared.table.Rejecting.{Rejecting};

    ghost Meaning = { Rejecting };

    ghost meaning = { λ judge. judge };

    ghost answer = { λ judge dev controller present on ss. if controller then (Allow, Implicit) else
        (Reject, Implicit) };

    ghost later = { λ judge dev controller present on ss. judge };

    fn verdict(
        &mut self,
        _dev: &Judged,
        controller: bool,
        _present: bool,
        _on: bool,
        _allowed: &Table,
    ) -> (Target, Cause) {
        if controller {
            (Target::Allow, Cause::Implicit)
        } else {
            (Target::Reject, Cause::Implicit)
        }
    }
}

// A new table after a sweep, and what was noted.
fn swept(alloc: Global, kernel: &mut SimKernel) -> Option<(Table, Entries)> {
    let mut table = Table::new(alloc);
    let mut entries = Entries::new(alloc);
    entries.reserve(64).ok()?;
    let mut nobody = Panel::new(Vec::new(alloc));
    let mut journal = Journal::join(&mut nobody, &mut entries);
    table.sweep(alloc, kernel, &mut Rejecting {}, None, &mut journal);
    Some((table, entries))
}

// The standing of a number is settled again, if there is one, and that is noted alone.
fn again(
    alloc: Global,
    table: &mut Table,
    kernel: &mut SimKernel,
    number: u64,
    entries: &mut Entries,
) -> Option<Settled> {
    entries.clear();
    entries.reserve(8).ok()?;
    let _found = table.standing(number)?;
    let mut nobody = Panel::new(Vec::new(alloc));
    let mut journal = Journal::join(&mut nobody, entries);
    Some(table.resettle(alloc, kernel, number, None, &mut journal))
}

fn notes(entries: &Entries, lines: &[&[u8]]) -> bool {
    let entries = entries.as_slice();
    let same = entries
        .iter()
        .zip(lines.iter())
        .all(|(entry, line)| line_of(entry).bytes() == *line);
    same && entries.len() == lines.len()
}

// The standing of number 2 is settled, and its device is removed.
fn is_removed(table: &Table) -> bool {
    match table.standing(2) {
        Some(standing) => standing.settled && standing.removed,
        None => false,
    }
}

// The standing behind a number.
fn next_after(table: &Table, number: u64) -> Option<u64> {
    let standing = table.standing_after(number)?;
    Some(standing.number)
}

// Switching the device off fails at first.
#[test]
fn settles_a_standing_again(rt: HostRuntime) {
    let alloc = rt.alloc();
    let mut kernel = hub_and_key(alloc, true).expect(&rt, "memory");
    kernel.fail(15, false).expect(&rt, "memory");
    let (mut table, mut entries) = swept(alloc, &mut kernel).expect(&rt, "memory");
    let failed: [&[u8]; 5] = [
        b"judged 1 usb1 allow implicit",
        b"judged 2 1-1 reject implicit",
        b"intent 2 1-1 off",
        b"wrote 2 1-1 off failed",
        b"unsettled 1-1 fault 15 1",
    ];
    assert!(rt; notes(&entries, &failed));
    let settled = again(alloc, &mut table, &mut kernel, 2, &mut entries);
    assert!(rt; matches!(settled, Some(Settled::Stands)));
    let removed: [&[u8]; 4] = [
        b"intent 2 1-1 off",
        b"wrote 2 1-1 off done",
        b"intent 2 1-1 remove",
        b"wrote 2 1-1 remove done",
    ];
    assert!(rt; notes(&entries, &removed));
    assert!(rt; is_removed(&table));
    assert!(rt; table.listed() && table.next_number() == 3);
    assert!(rt; next_after(&table, 0) == Some(1));
    assert!(rt; next_after(&table, 2).is_none());
}

// The device of a standing is gone: nobody stands for it, and no number is left.
#[test]
fn drops_a_standing_whose_device_is_gone(rt: HostRuntime) {
    let alloc = rt.alloc();
    let mut kernel = hub_and_key(alloc, false).expect(&rt, "memory");
    let (mut table, mut entries) = swept(alloc, &mut kernel).expect(&rt, "memory");
    let name = NodeName::parse(b"1-1").ok().expect(&rt, "a name");
    kernel.unplug(&name);
    let settled = again(alloc, &mut table, &mut kernel, 2, &mut entries);
    assert!(rt; matches!(settled, Some(Settled::Nobody)));
    assert!(rt; notes(&entries, &[b"gone 2 1-1"]));
    assert!(rt; table.standing(1).is_some() && table.standing(2).is_none());
    assert!(rt; again(alloc, &mut table, &mut kernel, 3, &mut entries).is_none());
}
