// The settling of one name.
ghost use Rattle.std.specs.Prelude.{true, false, IfOk, ◌≡◌, ◌≤◌, ◌<◌, ◌+◌, ◌++◌, ◌∷◌, [], ◌-◌, ◌^◌, length, is_none, IsSome, Some, None, vec_capacity};
ghost use Rattle.ug_types.specs.Names.{parent_of};
ghost use Rattle.ug_kernel.specs.Tree.{Runs, Room};
ghost use Rattle.ug_table.specs.Slots.{place_of};
ghost use Rattle.ug_table.specs.Parent.{bound_hash, judged_bound};
ghost use Rattle.ug_audit.specs.Journal.{Notes, noted_in};
ghost use Rattle.ug_audit.specs.declared.entry.Entry.TheVariants.{Unsettled};
ghost use Rattle.ug_table.specs.State.{state_of, kept_of, terms_of};
ghost use Rattle.ug_table.specs.Order.{KeepsOrder};
ghost use Rattle.ug_table.specs.Standings.{named, numbered, standing_of, did_default};
ghost use Rattle.ug_table.specs.One.{resettling_numbered, GoesAsPart, SettlesOne, ResettlesOne, NeedsRoom};
ghost use Rattle.ug_table.specs.Marks.{LeavesMarks, has_name, has_number};
ghost use Rattle.ug_table.specs.declared.standing.Standing.{Standing};
ghost use Rattle.ug_table.specs.declared.standing.Settled.TheVariants.{Memory};
ghost use Rattle.ug_table.specs.Settle.{stopped_by, unsettled_by, kept_standings, tried_standings, no_room, if_place, admitting, entering, settling, resettling};

use crate::bring::{is_reject, is_stands, treat};
use crate::judge::Judge;
use crate::kept::Standings;
use crate::parent::{bind_name, facts_of, parent_standing};
use crate::standing::{Known, Settled, Standing};
use crate::table::{Table, known_of};
use std::alloc::Global;
use ug_audit::{Auditor, Entry, Fault, Journal};
use ug_kernel::{Binding, Bound, Held, Probe, Sysfs, Write, failed_call, reprobe};
use ug_types::{Judged, NoMemory, NodeName, Text};

// Whether the name is a root hub's.
fn is_controller(name: &NodeName) -> bool
    ensures { result ≡ is_none (parent_of name.now) }
{
    name.parent().is_none()
}

// Holds a place for a standing of that name and number, and room for one name more.
fn hold_place(
    standings: &mut Standings,
    names: &mut Vec<NodeName>,
    name: &NodeName,
    number: u64,
) -> bool
    requires unnamed { named name.now standings.old.items ≡ None }
    requires unnumbered { numbered number standings.old.items ≡ None }
    ensures items { standings.new.items ≡ standings.old.items }
    ensures place { result ≡ true → standings.new.place ≡ place_of name.now number }
    ensures room { result ≡ true → length standings.old.items < vec_capacity names.new }
    ensures kept { vec_capacity names.old ≤ vec_capacity names.new }
{
    names.reserve(standings.count() + 1).is_ok() && standings.reserve(name, number).is_ok()
}

/// Keeps a new standing, unless its device is gone.
fn keep(standings: &mut Standings, standing: Standing, wrote: bool, settled: Settled)
    requires { standings.old.place ≡ place_of standing.name standing.number }
    ensures place { standings.new.place ≡ None }
    ensures standings { standings.new.items
        ≡ kept_standings standings.old.items (record standing { defaulted = wrote }) settled }
    ensures len { length standings.new.items ≤ length standings.old.items + 1 }
{
    let mut standing = standing;
    standing.defaulted = wrote;
    match settled {
        Settled::Nobody => {
            drop(standing);
            standings.release();
        }
        Settled::Stands => {
            standing.settled = true;
            standing.removed = standing.removed || is_reject(standing.verdict);
            standings.put(standing);
        }
        _ => standings.put(standing),
    }
}

fn entry_of(s: &Standing) -> Entry
    ensures { result ≡ Entry.Judged s.now.number s.now.name s.now.held s.now.verdict s.now.cause }
{
    Entry::Judged {
        number: s.number,
        name: s.name,
        held: s.held,
        verdict: s.verdict,
        cause: s.cause,
    }
}

/// Notes how a standing was settled.
pub fn remember(standings: &mut Standings, name: &NodeName, wrote: bool, settled: Settled)
    ensures standings { standings.new.items
        ≡ tried_standings (did_default name.now wrote standings.old.items) name.now settled }
    ensures len { length standings.new.items ≤ length standings.old.items }
{
    standings.mark_default(name, wrote);
    match settled {
        Settled::Nobody => standings.forget(name),
        _ => standings.mark(name, is_stands(settled)),
    }
}

/// Notes what stopped the settling of a name, which ends so.
pub fn note_fault(out: &mut Journal, name: &NodeName, fault: Fault) -> Settled
    requires { 1 ≤ (noted_in out.old).spare }
    ensures settled { result ≡ stopped_by fault }
    ensures entries { (noted_in out.new).entries
        ≡ (noted_in out.old).entries ++ Unsettled name.now fault ∷ [] }
    ensures journal { Notes (λ b. ⟦<dyn Auditor as Auditor>⟧ b.vtable) 1 out.old out.new }
{
    out.push(Entry::Unsettled { name: *name, fault });
    fault.into()
}

// Tells a name as unsettled where its part ended so.
fn note_unsettled(out: &mut Journal, name: &NodeName, settled: Settled)
    requires { 1 ≤ (noted_in out.old).spare }
    ensures entries { (noted_in out.new).entries
        ≡ (noted_in out.old).entries ++ unsettled_by name.now settled }
    ensures journal { Notes (λ b. ⟦<dyn Auditor as Auditor>⟧ b.vtable) 1 out.old out.new }
{
    let fault = match settled {
        Settled::Stands => return,
        Settled::Nobody => return,
        Settled::Fault(failed) => Fault::Call(failed),
        Settled::Memory => Fault::Memory,
    };
    out.push(Entry::Unsettled { name: *name, fault });
}

impl Table {
    // There is no memory for a new standing: the file is closed.
    fn lack_memory<Y: Sysfs, A: Judge>(
        &self,
        sysfs: &mut Y,
        name: &NodeName,
        held: Held,
        judge: &A,
        hub_default: Option<Write>,
        out: &mut Journal,
    ) -> Settled
        requires { 1 ≤ (noted_in out.old).spare }
        ensures runs { Runs Y.gives sysfs.old
            (no_room
            (state_of hub_default self.now (A.meaning judge.now) (noted_in out.old).entries)
            name.now held.0)
            (result, state_of hub_default self.now (A.meaning judge.now) (noted_in out.new).entries)
            sysfs.new }
        ensures journal { Notes (λ b. ⟦<dyn Auditor as Auditor>⟧ b.vtable) 1 out.old out.new }
    {
        sysfs.close(held);
        note_fault(out, name, Fault::Memory)
    }

    // A device that has a record gets a place, the next number and a verdict, and the writes are made.
    #[tactic(auto, using(ug_kernel::proofs::Runs::runs_then))]
    fn judge_bound<Y: Sysfs, A: Judge>(
        &mut self,
        alloc: Global,
        sysfs: &mut Y,
        name: &NodeName,
        present: bool,
        judge: &mut A,
        bound: &Bound,
        judged: Judged,
        hash: Text,
        hub_default: Option<Write>,
        out: &mut Journal,
    ) -> Settled
        requires room { 9 ≤ (noted_in out.old).spare }
        requires next { self.old.next < 2 ^ 64 - 1 }
        requires absent { standing_of name.now self.old.standings ≡ None }
        ensures runs { Runs Y.gives sysfs.old
            (Room (if_place A.answer A.later name.now (terms_of present hub_default)
            (state_of hub_default self.old (A.meaning judge.old) (noted_in out.old).entries)
            bound.now judged hash))
            (result, state_of hub_default self.new (A.meaning judge.new) (noted_in out.new).entries)
            sysfs.new }
        ensures journal { Notes (λ b. ⟦<dyn Auditor as Auditor>⟧ b.vtable) 9 out.old out.new }
        ensures len { length self.new.standings ≤ length self.old.standings + 1 }
        ensures next { self.new.next ≤ self.old.next + 1 }
    {
        let number = self.next;
        let held = bound.held;
        if !hold_place(&mut self.standings, &mut self.names, name, number) {
            drop(judged);
            drop(hash);
            return self.lack_memory(sysfs, name, held, judge, hub_default, out);
        }
        let (verdict, cause) = judge.verdict(&judged, is_controller(name), present, bound.on, self);
        self.next += 1;
        let standing = Standing {
            number,
            name: *name,
            held,
            judged,
            hash,
            verdict,
            cause,
            settled: false,
            removed: false,
            defaulted: false,
        };
        out.push(entry_of(&standing));
        let known = known_of(&standing);
        let (settled, wrote) = treat(alloc, sysfs, name, known, bound.on, hub_default, out);
        note_unsettled(out, name, settled);
        keep(&mut self.standings, standing, wrote, settled);
        settled
    }

    /// Gives a bound device its number and verdict, and makes the writes.
    #[tactic(auto, unfolding(crate::specs::Settle::admitting))]
    fn admit<Y: Sysfs, A: Judge>(
        &mut self,
        alloc: Global,
        sysfs: &mut Y,
        name: &NodeName,
        present: bool,
        judge: &mut A,
        bound: Bound,
        facts: Result<(Judged, Text), NoMemory>,
        hub_default: Option<Write>,
        out: &mut Journal,
    ) -> Settled
        requires room { 9 ≤ (noted_in out.old).spare }
        requires next { self.old.next < 2 ^ 64 - 1 }
        requires absent { standing_of name.now self.old.standings ≡ None }
        requires judged { IfOk facts
            (λ facts. facts.0 ≡ judged_bound name.now self.old.standings bound) }
        requires hash { IfOk facts (λ facts. facts.1 ≡ bound_hash bound) }
        ensures runs { Runs Y.gives sysfs.old
            (admitting A.answer A.later name.now (terms_of present hub_default)
            (state_of hub_default self.old (A.meaning judge.old) (noted_in out.old).entries) bound)
            (result, state_of hub_default self.new (A.meaning judge.new) (noted_in out.new).entries)
            sysfs.new }
        ensures journal { Notes (λ b. ⟦<dyn Auditor as Auditor>⟧ b.vtable) 9 out.old out.new }
        ensures len { length self.new.standings ≤ length self.old.standings + 1 }
        ensures next { self.new.next ≤ self.old.next + 1 }
    {
        let (judged, hash) = match facts {
            Ok(facts) => facts,
            Err(_) => {
                let held = bound.held;
                drop(bound);
                drop(facts);
                return self.lack_memory(sysfs, name, held, judge, hub_default, out);
            }
        };
        let settled = self.judge_bound(
            alloc,
            sysfs,
            name,
            present,
            judge,
            &bound,
            judged,
            hash,
            hub_default,
            out,
        );
        drop(bound);
        settled
    }

    /// Binds a name that has no standing, and judges its device.
    #[tactic(auto, unfolding(crate::specs::Settle::entering), using(ug_kernel::proofs::Runs::runs_then))]
    fn enter<Y: Sysfs, A: Judge>(
        &mut self,
        alloc: Global,
        sysfs: &mut Y,
        name: &NodeName,
        present: bool,
        judge: &mut A,
        hub_default: Option<Write>,
        out: &mut Journal,
    ) -> Settled
        requires room { 9 ≤ (noted_in out.old).spare }
        requires next { self.old.next < 2 ^ 64 - 1 }
        requires absent { standing_of name.now self.old.standings ≡ None }
        ensures runs { Runs Y.gives sysfs.old
            (entering A.answer A.later name.now (terms_of present hub_default)
            (state_of hub_default self.old (A.meaning judge.old) (noted_in out.old).entries))
            (result, state_of hub_default self.new (A.meaning judge.new) (noted_in out.new).entries)
            sysfs.new }
        ensures journal { Notes (λ b. ⟦<dyn Auditor as Auditor>⟧ b.vtable) 9 out.old out.new }
        ensures len { length self.new.standings ≤ length self.old.standings + 1 }
        ensures next { self.new.next ≤ self.old.next + 1 }
    {
        let parent = parent_standing(&self.standings, name);
        let binding = bind_name(alloc, sysfs, name, parent);
        match binding {
            Binding::Bound(bound) => {
                let facts = facts_of(alloc, name, &bound, parent);
                self.admit(
                    alloc,
                    sysfs,
                    name,
                    present,
                    judge,
                    bound,
                    facts,
                    hub_default,
                    out,
                )
            }
            Binding::Absent => {
                drop(binding);
                Settled::Nobody
            }
            Binding::Vanished => {
                drop(binding);
                Settled::Nobody
            }
            Binding::Failed(failed) => {
                drop(binding);
                note_fault(out, name, Fault::Call(failed))
            }
            Binding::Memory => {
                drop(binding);
                note_fault(out, name, Fault::Memory)
            }
        }
    }

    /// Settles one listed name: a known one is probed and written, another is bound, judged and written. It answers
    /// `Fault` only where a call about the name failed, and `Nobody` only where no device of the name lived through.
    pub fn settle<Y: Sysfs, A: Judge>(
        &mut self,
        alloc: Global,
        sysfs: &mut Y,
        name: &NodeName,
        present: bool,
        judge: &mut A,
        hub_default: Option<Write>,
        out: &mut Journal,
    ) -> Settled
        requires room { 10 ≤ (noted_in out.old).spare }
        requires next { self.old.next < 2 ^ 64 - 1 }
        ensures runs { Runs Y.gives sysfs.old
            (settling A.answer A.later name.now (terms_of present hub_default)
            (state_of hub_default self.old (A.meaning judge.old) (noted_in out.old).entries))
            (result, state_of hub_default self.new (A.meaning judge.new) (noted_in out.new).entries)
            sysfs.new }
        ensures part { GoesAsPart hub_default true Y.gives Y.calls Y.faults name.now
            sysfs.old self.old.standings (noted_in out.old).entries
            sysfs.new self.new.standings (noted_in out.new).entries result }
        ensures law { SettlesOne Y.told A.answer A.later (terms_of present hub_default) name.now
            sysfs.old
            (state_of hub_default self.old (A.meaning judge.old) (noted_in out.old).entries)
            sysfs.new
            (state_of hub_default self.new (A.meaning judge.new) (noted_in out.new).entries)
            result }
        ensures marks { LeavesMarks hub_default (has_name name.now) self.old.standings
            self.new.standings result }
        ensures journal { Notes (λ b. ⟦<dyn Auditor as Auditor>⟧ b.vtable) 10 out.old out.new }
        ensures len { length self.new.standings ≤ length self.old.standings + 1 }
        ensures next { self.new.next ≤ self.old.next + 1 }
    {
        // Its standings are in order.
        let _ = &self.next;
        self.settle_name(alloc, sysfs, name, present, judge, hub_default, out)
    }

    /// Settles the standing of that number again, where the listing didn't succeed. It takes memory only to open the `remove`
    /// file of a device that is still to be removed, and answers `Nobody` only where the device is gone.
    pub fn resettle<Y: Sysfs>(
        &mut self,
        alloc: Global,
        sysfs: &mut Y,
        number: u64,
        hub_default: Option<Write>,
        out: &mut Journal,
    ) -> Settled
        requires stands { IsSome (numbered number self.old.standings) }
        requires room { 8 ≤ (noted_in out.old).spare }
        ensures runs { Runs Y.gives sysfs.old
            (resettling_numbered hub_default number
            (kept_of self.old.standings (noted_in out.old).entries))
            (result, kept_of self.new.standings (noted_in out.new).entries) sysfs.new }
        ensures part { (s : Standing) → numbered number self.old.standings ≡ Some s
            → GoesAsPart hub_default false Y.gives Y.calls Y.faults s.name
            sysfs.old self.old.standings (noted_in out.old).entries
            sysfs.new self.new.standings (noted_in out.new).entries result }
        ensures law { ResettlesOne hub_default Y.told number sysfs.old
            (state_of hub_default self.old tt (noted_in out.old).entries) sysfs.new
            (state_of hub_default self.new tt (noted_in out.new).entries) result }
        ensures marks { LeavesMarks hub_default (has_number number) self.old.standings
            self.new.standings result }
        ensures memory { result ≡ Memory → NeedsRoom hub_default number self.old.standings }
        ensures journal { Notes (λ b. ⟦<dyn Auditor as Auditor>⟧ b.vtable) 8 out.old out.new }
        ensures len { length self.new.standings ≤ length self.old.standings }
        ensures next { self.new.next ≡ self.old.next }
        ensures listed { self.new.listed ≡ self.old.listed }
    {
        // Its standings are in order.
        let _ = &self.next;
        self.settle_numbered(alloc, sysfs, number, hub_default, out)
    }

    #[tactic(auto, unfolding(crate::specs::One::resettling_numbered))]
    fn settle_numbered<Y: Sysfs>(
        &mut self,
        alloc: Global,
        sysfs: &mut Y,
        number: u64,
        hub_default: Option<Write>,
        out: &mut Journal,
    ) -> Settled
        requires { 8 ≤ (noted_in out.old).spare }
        ensures runs { Runs Y.gives sysfs.old
            (resettling_numbered hub_default number
            (kept_of self.old.standings (noted_in out.old).entries))
            (result, kept_of self.new.standings (noted_in out.new).entries) sysfs.new }
        ensures journal { Notes (λ b. ⟦<dyn Auditor as Auditor>⟧ b.vtable) 8 out.old out.new }
        ensures len { length self.new.standings ≤ length self.old.standings }
        ensures next { self.new.next ≡ self.old.next }
        ensures listed { self.new.listed ≡ self.old.listed }
    {
        let name = match self.standing(number) {
            Some(s) => s.name,
            None => return Settled::Nobody,
        };
        settle_known(alloc, &mut self.standings, sysfs, &name, hub_default, out)
    }

    #[tactic(auto, unfolding(crate::specs::Settle::settling), using(ug_kernel::proofs::Runs::runs_then))]
    fn settle_name<Y: Sysfs, A: Judge>(
        &mut self,
        alloc: Global,
        sysfs: &mut Y,
        name: &NodeName,
        present: bool,
        judge: &mut A,
        hub_default: Option<Write>,
        out: &mut Journal,
    ) -> Settled
        requires room { 10 ≤ (noted_in out.old).spare }
        requires next { self.old.next < 2 ^ 64 - 1 }
        ensures runs { Runs Y.gives sysfs.old
            (settling A.answer A.later name.now (terms_of present hub_default)
            (state_of hub_default self.old (A.meaning judge.old) (noted_in out.old).entries))
            (result, state_of hub_default self.new (A.meaning judge.new) (noted_in out.new).entries)
            sysfs.new }
        ensures journal { Notes (λ b. ⟦<dyn Auditor as Auditor>⟧ b.vtable) 10 out.old out.new }
        ensures len { length self.new.standings ≤ length self.old.standings + 1 }
        ensures next { self.new.next ≤ self.old.next + 1 }
    {
        let known = match self.standings.find(name) {
            Some(known) => known,
            None => return self.enter(alloc, sysfs, name, present, judge, hub_default, out),
        };
        let (settled, wrote) = match reprobe(sysfs, known.held) {
            Probe::Alive(on) => {
                let (settled, wrote) = treat(alloc, sysfs, name, known, on, hub_default, out);
                note_unsettled(out, name, settled);
                (settled, wrote)
            }
            Probe::Failed => {
                let fault = Fault::Call(failed_call(sysfs));
                (note_fault(out, name, fault), false)
            }
            Probe::Gone => {
                out.push(Entry::Gone {
                    number: known.number,
                    name: *name,
                });
                sysfs.close(known.held);
                self.standings.forget(name);
                return self.enter(alloc, sysfs, name, present, judge, hub_default, out);
            }
        };
        remember(&mut self.standings, name, wrote, settled);
        settled
    }
}

/// Settles one known name where the listing didn't succeed. It takes memory only to open a `remove` file.
#[tactic(auto, unfolding(crate::specs::Settle::resettling), using(ug_kernel::proofs::Runs::runs_then))]
pub fn settle_known<Y: Sysfs>(
    alloc: Global,
    standings: &mut Standings,
    sysfs: &mut Y,
    name: &NodeName,
    hub_default: Option<Write>,
    out: &mut Journal,
) -> Settled
    requires { 8 ≤ (noted_in out.old).spare }
    ensures runs { Runs Y.gives sysfs.old
        (resettling hub_default name.now (kept_of standings.old.items (noted_in out.old).entries))
        (result, kept_of standings.new.items (noted_in out.new).entries) sysfs.new }
    ensures journal { Notes (λ b. ⟦<dyn Auditor as Auditor>⟧ b.vtable) 8 out.old out.new }
    ensures keeps { KeepsOrder standings.old.items standings.new.items }
    ensures len { length standings.new.items ≤ length standings.old.items }
{
    let known = match standings.find(name) {
        Some(known) => known,
        None => return Settled::Nobody,
    };
    let (settled, wrote) = match reprobe(sysfs, known.held) {
        Probe::Alive(on) => {
            let (settled, wrote) = treat(alloc, sysfs, name, known, on, hub_default, out);
            note_unsettled(out, name, settled);
            (settled, wrote)
        }
        Probe::Failed => {
            let fault = Fault::Call(failed_call(sysfs));
            (note_fault(out, name, fault), false)
        }
        Probe::Gone => {
            out.push(Entry::Gone {
                number: known.number,
                name: *name,
            });
            sysfs.close(known.held);
            (Settled::Nobody, false)
        }
    };
    remember(standings, name, wrote, settled);
    settled
}
