// The sweep over all devices.
ghost use Rattle.std.specs.Prelude.{◌≡◌, ◌≤◌, ◌<◌, ◌+◌, ◌-◌, ◌*◌, ◌^◌, ◌++◌, ◌∷◌, [], min, length, vec_capacity, IfOk};
ghost use Rattle.std.specs.List.Sorted.{IsSorted};
ghost use Rattle.ug_types.specs.Names.{sweep_cmp};
ghost use Rattle.ug_table.specs.Slots.{filled};
ghost use Rattle.ug_types.specs.Sweep.{in_sweep_order};
ghost use Rattle.ug_kernel.specs.Tree.{Runs};
ghost use Rattle.ug_audit.specs.Journal.{Notes, SameEntries, noted_in};
ghost use Rattle.ug_table.specs.State.{state_of, kept_of, terms_of};
ghost use Rattle.ug_table.specs.Order.{KeepsOrder};
ghost use Rattle.ug_table.specs.Standings.{farewells};
ghost use Rattle.ug_table.specs.Sweep.{settling_all, resettling_all, closing_unlisted, parted, unlisted, sweeping, names_of};
ghost use Rattle.ug_table.specs.Laws.{Sweeps};
ghost use Rattle.ug_table.specs.Parts.{TellsFaults, NamesOnce};
ghost use Rattle.ug_table.specs.Several.{GoesInOrder, SettlesNames};

use crate::judge::Judge;
use crate::kept::Standings;
use crate::settle::settle_known;
use crate::slots::{Slots, has};
use crate::standing::Standing;
use crate::table::Table;
use std::alloc::Global;
use ug_audit::{Auditor, Entry, Fault, Journal};
use ug_kernel::{Listing, Sysfs, Write, failed_call};
use ug_types::{List, NoMemory, NodeName, sort_names};

// An entry for a standing whose name isn't listed.
fn bid_one(s: &Standing, names: &[NodeName], out: &mut Journal)
    requires sorted { IsSorted sweep_cmp names.now }
    requires room { 1 ≤ (noted_in out.old).spare }
    ensures entries { (noted_in out.new).entries
        ≡ (noted_in out.old).entries ++ farewells names.now (s.now ∷ []) }
    ensures journal { Notes (λ b. ⟦<dyn Auditor as Auditor>⟧ b.vtable) 1 out.old out.new }
{
    if !has(names, &s.name) {
        out.push(Entry::Gone {
            number: s.number,
            name: s.name,
        });
    }
}

/// An entry for each standing whose name isn't listed.
fn bid(slots: &Slots, names: &[NodeName], out: &mut Journal)
    requires sorted { IsSorted sweep_cmp names.now }
    requires room { length (filled slots.now.entries) ≤ (noted_in out.old).spare }
    ensures entries { (noted_in out.new).entries
        ≡ (noted_in out.old).entries ++ farewells names.now (filled slots.now.entries) }
    ensures journal { Notes (λ b. ⟦<dyn Auditor as Auditor>⟧ b.vtable)
        (length (filled slots.now.entries)) out.old out.new }
{
    for (_name, slot) in slots {
        if let Some(s) = slot {
            bid_one(s, names, out);
        }
    }
}

/// Closes the held file of each standing whose name isn't listed.
fn close_unlisted<Y: Sysfs>(slots: &Slots, sysfs: &mut Y, names: &[NodeName])
    requires { IsSorted sweep_cmp names.now }
    ensures { Runs Y.gives sysfs.old (closing_unlisted names.now (filled slots.now.entries)) tt
        sysfs.new }
{
    for (_name, slot) in slots {
        if let Some(s) = slot
            && !has(names, &s.name)
        {
            sysfs.close(s.held);
        }
    }
}

/// The names of the standings, for which there is room.
fn names_into(slots: &Slots, names: &mut Vec<NodeName>)
    requires empty { names.old.items ≡ [] }
    requires room { length (filled slots.now.entries) ≤ vec_capacity names.old }
    ensures names { names.new.items ≡ names_of (filled slots.now.entries) }
    ensures capacity { vec_capacity names.new ≡ vec_capacity names.old }
{
    for (_name, slot) in slots {
        if let Some(s) = slot {
            names.push_reserved(s.name);
        }
    }
}

impl Standings {
    /// An entry for each standing whose name isn't listed.
    fn bid(&self, names: &[NodeName], out: &mut Journal)
        requires sorted { IsSorted sweep_cmp names.now }
        requires room { length self.now.items ≤ (noted_in out.old).spare }
        ensures entries { (noted_in out.new).entries
            ≡ (noted_in out.old).entries ++ farewells names.now self.now.items }
        ensures journal { Notes (λ b. ⟦<dyn Auditor as Auditor>⟧ b.vtable) (length self.now.items)
            out.old out.new }
    {
        bid(&self.by_name, names, out);
    }

    /// Closes the held file of each standing whose name isn't listed.
    fn close_unlisted<Y: Sysfs>(&self, sysfs: &mut Y, names: &[NodeName])
        requires { IsSorted sweep_cmp names.now }
        ensures { Runs Y.gives sysfs.old (closing_unlisted names.now self.now.items) tt sysfs.new }
    {
        close_unlisted(&self.by_name, sysfs, names);
    }

    /// The names of the standings, for which there is room.
    fn names_into(&self, names: &mut Vec<NodeName>)
        requires empty { names.old.items ≡ [] }
        requires room { length self.now.items ≤ vec_capacity names.old }
        ensures names { names.new.items ≡ names_of self.now.items }
        ensures capacity { vec_capacity names.new ≡ vec_capacity names.old }
    {
        names_into(&self.by_name, names);
    }
}

/// Settles each known name in order.
#[tactic(auto, using(ug_kernel::proofs::Runs::runs_then))]
fn resettle_all<Y: Sysfs>(
    alloc: Global,
    standings: &mut Standings,
    sysfs: &mut Y,
    names: &[NodeName],
    hub_default: Option<Write>,
    out: &mut Journal,
)
    requires { 8 * length names.now ≤ (noted_in out.old).spare }
    ensures runs { Runs Y.gives sysfs.old
        (resettling_all hub_default names.now
        (kept_of standings.old.items (noted_in out.old).entries))
        (kept_of standings.new.items (noted_in out.new).entries) sysfs.new }
    ensures journal { Notes (λ b. ⟦<dyn Auditor as Auditor>⟧ b.vtable) (8 * length names.now)
        out.old out.new }
    ensures keeps { KeepsOrder standings.old.items standings.new.items }
    ensures len { length standings.new.items ≤ length standings.old.items }
{
    for name in names {
        let _settled = settle_known(alloc, standings, sysfs, name, hub_default, out);
    }
}

/// Settles each standing again, in order. There is room for their names.
fn resettle_each<Y: Sysfs>(
    alloc: Global,
    standings: &mut Standings,
    names: &mut Vec<NodeName>,
    sysfs: &mut Y,
    hub_default: Option<Write>,
    out: &mut Journal,
)
    requires spare { 8 * length standings.old.items ≤ (noted_in out.old).spare }
    requires room { length standings.old.items ≤ vec_capacity names.old }
    ensures runs { Runs Y.gives sysfs.old
        (resettling_all hub_default (names_of standings.old.items)
        (kept_of standings.old.items (noted_in out.old).entries))
        (kept_of standings.new.items (noted_in out.new).entries) sysfs.new }
    ensures journal { Notes (λ b. ⟦<dyn Auditor as Auditor>⟧ b.vtable)
        (8 * length standings.old.items) out.old out.new }
    ensures keeps { KeepsOrder standings.old.items standings.new.items }
    ensures len { length standings.new.items ≤ length standings.old.items }
    ensures capacity { vec_capacity names.new ≡ vec_capacity names.old }
{
    names.clear();
    standings.names_into(names);
    resettle_all(alloc, standings, sysfs, names, hub_default, out);
}

impl Table {
    /// Drops the standings of other names than these.
    fn part<A: Judge>(
        &mut self,
        names: &[NodeName],
        judge: &A,
        hub_default: Option<Write>,
        out: &mut Journal,
    )
        requires sorted { IsSorted sweep_cmp names.now }
        requires room { length self.old.standings ≤ (noted_in out.old).spare }
        ensures state { state_of hub_default self.new (A.meaning judge.now)
            (noted_in out.new).entries
            ≡ parted names.now
            (state_of hub_default self.old (A.meaning judge.now) (noted_in out.old).entries) }
        ensures journal { Notes (λ b. ⟦<dyn Auditor as Auditor>⟧ b.vtable)
            (length self.old.standings) out.old out.new }
        ensures next { self.new.next ≡ self.old.next }
        ensures len { length self.new.standings ≤ length self.old.standings }
    {
        let _ = hub_default;
        self.standings.bid(names, out);
        self.standings.retain_listed(names);
    }

    /// Settles each listed name in order.
    #[tactic(auto, using(ug_kernel::proofs::Runs::runs_then))]
    fn settle_all<Y: Sysfs, A: Judge>(
        &mut self,
        alloc: Global,
        sysfs: &mut Y,
        names: &[NodeName],
        present: bool,
        judge: &mut A,
        hub_default: Option<Write>,
        out: &mut Journal,
    )
        requires room { 10 * length names.now ≤ (noted_in out.old).spare }
        requires next { self.old.next + length names.now < 2 ^ 64 }
        ensures runs { Runs Y.gives sysfs.old
            (settling_all A.answer A.later names.now (terms_of present hub_default)
            (state_of hub_default self.old (A.meaning judge.old) (noted_in out.old).entries))
            (state_of hub_default self.new (A.meaning judge.new) (noted_in out.new).entries)
            sysfs.new }
        ensures next { self.new.next ≤ self.old.next + length names.now }
        ensures journal { Notes (λ b. ⟦<dyn Auditor as Auditor>⟧ b.vtable) (10 * length names.now)
            out.old out.new }
        ensures len { length self.new.standings ≤ length self.old.standings + length names.now }
    {
        for name in names {
            let _settled = self.settle(alloc, sysfs, name, present, judge, hub_default, out);
        }
    }

    /// How many entries are noted at most where each standing is settled, and so many names are. Where they are more than memory can
    /// hold there is none.
    pub fn places_for(&self, names: usize) -> Result<usize, NoMemory>
        ensures { IfOk result
            (λ places. 10 * (length self.now.standings + names) + 65 ≤ places) }
    {
        let places = room_for(self.standings.count(), names);
        if places == usize::MAX {
            Err(NoMemory)
        } else {
            Ok(places)
        }
    }

    /// Settles each of these names in order, without a listing: the standings of other names stay as they are, and no
    /// other name is told. A device was present at the start where that is said. It is what a sweep does behind its
    /// listing.
    pub fn settle_names<Y: Sysfs, A: Judge>(
        &mut self,
        alloc: Global,
        sysfs: &mut Y,
        names: &[NodeName],
        present: bool,
        judge: &mut A,
        hub_default: Option<Write>,
        out: &mut Journal,
    )
        requires room { 10 * length names.now ≤ (noted_in out.old).spare }
        requires next { self.old.next + length names.now < 2 ^ 64 }
        ensures runs { Runs Y.gives sysfs.old
            (settling_all A.answer A.later names.now (terms_of present hub_default)
            (state_of hub_default self.old (A.meaning judge.old) (noted_in out.old).entries))
            (state_of hub_default self.new (A.meaning judge.new) (noted_in out.new).entries)
            sysfs.new }
        ensures parts { GoesInOrder Y.gives Y.calls Y.faults (terms_of present hub_default)
            names.now sysfs.old
            (state_of hub_default self.old (A.meaning judge.old) (noted_in out.old).entries)
            sysfs.new
            (state_of hub_default self.new (A.meaning judge.new) (noted_in out.new).entries) }
        ensures law { SettlesNames Y.told A.answer A.later (terms_of present hub_default) names.now
            sysfs.old
            (state_of hub_default self.old (A.meaning judge.old) (noted_in out.old).entries)
            sysfs.new
            (state_of hub_default self.new (A.meaning judge.new) (noted_in out.new).entries) }
        ensures next { self.new.next ≤ self.old.next + length names.now }
        ensures journal { Notes (λ b. ⟦<dyn Auditor as Auditor>⟧ b.vtable) (10 * length names.now)
            out.old out.new }
        ensures len { length self.new.standings ≤ length self.old.standings + length names.now }
    {
        self.settle_all(alloc, sysfs, names, present, judge, hub_default, out);
    }

    // The known names are settled all the same.
    #[tactic(auto, using(ug_kernel::proofs::Runs::runs_then))]
    fn go_unlisted<Y: Sysfs, A: Judge>(
        &mut self,
        alloc: Global,
        sysfs: &mut Y,
        fault: Fault,
        judge: &A,
        hub_default: Option<Write>,
        out: &mut Journal,
    )
        requires { 8 * length self.old.standings + 2 ≤ (noted_in out.old).spare }
        ensures runs { Runs Y.gives sysfs.old
            (unlisted fault
            (state_of hub_default self.old (A.meaning judge.now) (noted_in out.old).entries))
            (state_of hub_default self.new (A.meaning judge.now) (noted_in out.new).entries)
            sysfs.new }
        ensures next { self.new.next ≡ self.old.next }
        ensures journal { Notes (λ b. ⟦<dyn Auditor as Auditor>⟧ b.vtable)
            (8 * length self.old.standings + 1) out.old out.new }
        ensures len { length self.new.standings ≤ length self.old.standings }
    {
        out.push(Entry::UnsettledAll { fault });
        resettle_each(
            alloc,
            &mut self.standings,
            &mut self.names,
            sysfs,
            hub_default,
            out,
        );
    }

    /// Lists the names, drops the standings of names that aren't listed, and settles each listed name in sweep order.
    /// Where the listing fails, or memory is short for it, the known names are settled all the same.
    pub fn sweep<Y: Sysfs, A: Judge>(
        &mut self,
        alloc: Global,
        sysfs: &mut Y,
        judge: &mut A,
        hub_default: Option<Write>,
        out: &mut Journal,
    )
        requires room { 10 * length self.old.standings + 2 ≤ (noted_in out.old).spare }
        requires next { self.old.next + 65536 < 2 ^ 64 }
        ensures runs { Runs Y.gives sysfs.old
            (sweeping A.answer A.later
            (state_of hub_default self.old (A.meaning judge.old) (noted_in out.old).entries))
            (state_of hub_default self.new (A.meaning judge.new) (noted_in out.new).entries)
            sysfs.new }
        ensures next { self.new.next ≤ self.old.next + 65536 }
        ensures spare { 0 < (noted_in out.new).spare }
        ensures room { 10 * length self.old.standings + 64 ≤ (noted_in out.old).room
            → 10 * length self.new.standings + 64 ≤ (noted_in out.new).room }
        ensures same { SameEntries (λ b. ⟦<dyn Auditor as Auditor>⟧ b.vtable) out.old out.new }
        ensures swept { Sweeps Y.told A.answer A.later sysfs.old
            (state_of hub_default self.old (A.meaning judge.old) (noted_in out.old).entries)
            sysfs.new
            (state_of hub_default self.new (A.meaning judge.new) (noted_in out.new).entries) }
        ensures once { NamesOnce Y.told sysfs.old
            (state_of hub_default self.old (A.meaning judge.old) (noted_in out.old).entries)
            sysfs.new
            (state_of hub_default self.new (A.meaning judge.new) (noted_in out.new).entries) }
        ensures faults { TellsFaults Y.gives Y.calls Y.faults sysfs.old
            (state_of hub_default self.old (A.meaning judge.old) (noted_in out.old).entries)
            sysfs.new
            (state_of hub_default self.new (A.meaning judge.new) (noted_in out.new).entries) }
    {
        self.standings.watch(alloc, judge.asked());
        self.sweep_names(alloc, sysfs, judge, hub_default, out);
    }

    #[tactic(auto, unfolding(crate::specs::Sweep::sweeping), using(ug_kernel::proofs::Runs::runs_then))]
    fn sweep_names<Y: Sysfs, A: Judge>(
        &mut self,
        alloc: Global,
        sysfs: &mut Y,
        judge: &mut A,
        hub_default: Option<Write>,
        out: &mut Journal,
    )
        requires room { 10 * length self.old.standings + 2 ≤ (noted_in out.old).spare }
        requires next { self.old.next + 65536 < 2 ^ 64 }
        ensures runs { Runs Y.gives sysfs.old
            (sweeping A.answer A.later
            (state_of hub_default self.old (A.meaning judge.old) (noted_in out.old).entries))
            (state_of hub_default self.new (A.meaning judge.new) (noted_in out.new).entries)
            sysfs.new }
        ensures next { self.new.next ≤ self.old.next + 65536 }
        ensures spare { 0 < (noted_in out.new).spare }
        ensures room { 10 * length self.old.standings + 64 ≤ (noted_in out.old).room
            → 10 * length self.new.standings + 64 ≤ (noted_in out.new).room }
        ensures same { SameEntries (λ b. ⟦<dyn Auditor as Auditor>⟧ b.vtable) out.old out.new }
    {
        let names = match sysfs.list(alloc) {
            Listing::Names(names) => sorted(names),
            Listing::Failed => {
                let fault = Fault::Call(failed_call(sysfs));
                self.go_unlisted(alloc, sysfs, fault, judge, hub_default, out);
                return;
            }
            Listing::Memory => {
                self.go_unlisted(alloc, sysfs, Fault::Memory, judge, hub_default, out);
                return;
            }
        };
        let room = room_for(self.standings.count(), names.len());
        if out.reserve(room).is_err() {
            self.go_unlisted(alloc, sysfs, Fault::Memory, judge, hub_default, out);
            return;
        }
        let present = !self.listed;
        self.standings.close_unlisted(sysfs, &names);
        self.part(&names, judge, hub_default, out);
        self.listed = true;
        self.settle_names(alloc, sysfs, &names, present, judge, hub_default, out);
    }
}

// Ten entries for each, and some for the event.
fn room_for(standings: usize, names: usize) -> usize
    ensures { min (2 ^ 64 - 1) (10 * (standings + names) + 65) ≤ result }
{
    let count = standings as u128 + names as u128;
    let room = 10 * count + 65;
    if room > usize::MAX as u128 {
        usize::MAX
    } else {
        room as usize
    }
}

fn sorted(names: List<NodeName>) -> Vec<NodeName>
    ensures items { result.items ≡ in_sweep_order names }
    ensures len { length result.items ≡ length names }
    ensures sorted { IsSorted sweep_cmp result.items }
{
    let mut names = names.into_vec();
    sort_names(&mut names);
    names
}
