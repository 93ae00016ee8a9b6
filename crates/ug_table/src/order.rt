// Orders on the device of one standing.
ghost use Rattle.std.specs.Prelude.{◌≡◌, ◌≤◌, length, IsSome, Some, None};
ghost use Rattle.ug_kernel.specs.Calls.{Ask_alive};
ghost use Rattle.ug_kernel.specs.Tree.{Runs};
ghost use Rattle.ug_audit.specs.Journal.{Notes, noted_in};
ghost use Rattle.ug_table.specs.State.{state_of, kept_of};
ghost use Rattle.ug_table.specs.Order.{KeepsOrder};
ghost use Rattle.ug_table.specs.Standings.{numbered};
ghost use Rattle.ug_table.specs.One.{NeedsRoom};
ghost use Rattle.ug_table.specs.Marks.{LeavesMarks, has_number};
ghost use Rattle.ug_table.specs.Orders.{probing, ProbesOne, ordering, with_order, with_verdict, GoesAsOrder, HasOrdered, OrdersOne};
ghost use Rattle.ug_table.specs.declared.standing.Standing.{Standing};
ghost use Rattle.ug_table.specs.declared.standing.Settled.TheVariants.{Memory};

use crate::bring::bring;
use crate::kept::Standings;
use crate::settle::remember;
use crate::standing::{Known, Settled};
use crate::table::Table;
use std::alloc::Global;
use ug_audit::{Auditor, Entry, Journal};
use ug_kernel::{Probe, Sysfs, reprobe};
use ug_types::{Cause, Principal, Target};

impl Table {
    /// Probes the device of the standing with that number, by its held file. It takes no memory, and notes nothing.
    pub fn probe<Y: Sysfs>(&self, sysfs: &mut Y, number: u64) -> Probe
        requires stands { IsSome (numbered number self.now.standings) }
        ensures runs { Runs Y.gives sysfs.old (probing number self.now.standings) result sysfs.new }
        ensures call { (s : Standing) → numbered number self.now.standings ≡ Some s
            → Y.gives sysfs.old (Ask_alive s.held.0)
            (record { answer = result; number = Y.calls sysfs.new; count = Y.faults sysfs.new })
            sysfs.new }
        ensures law { ProbesOne Y.told number self.now.standings sysfs.old sysfs.new result }
    {
        probe_numbered(&self.standings, sysfs, number)
    }

    /// Gives the standing of that number the verdict that a user or group ordered, and brings its device to it from the value that
    /// was probed. It takes memory only to open the `remove` file of a device that is rejected and is still to be removed. It tells
    /// no name as unsettled: what stopped it is in the answer alone.
    pub fn order<Y: Sysfs>(
        &mut self,
        alloc: Global,
        sysfs: &mut Y,
        number: u64,
        verdict: Target,
        who: Principal,
        on: bool,
        out: &mut Journal,
    ) -> Settled
        requires stands { IsSome (numbered number self.old.standings) }
        requires room { 6 ≤ (noted_in out.old).spare }
        ensures runs { Runs Y.gives sysfs.old
            (ordering number verdict who on (kept_of self.old.standings (noted_in out.old).entries))
            (result, kept_of self.new.standings (noted_in out.new).entries) sysfs.new }
        ensures part { (s : Standing) → numbered number self.old.standings ≡ Some s
            → GoesAsOrder Y.gives Y.calls Y.faults (with_verdict verdict who s) on
            sysfs.old (noted_in out.old).entries
            sysfs.new self.new.standings (noted_in out.new).entries result }
        ensures law { OrdersOne {J = Unit {0}} Y.told number verdict who on
            sysfs.old (state_of None self.old tt (noted_in out.old).entries)
            sysfs.new (state_of None self.new tt (noted_in out.new).entries) result }
        ensures verdict { HasOrdered number verdict who self.old.standings self.new.standings }
        ensures marks { LeavesMarks None (has_number number) self.old.standings self.new.standings
            result }
        ensures memory { result ≡ Memory
            → NeedsRoom None number (with_order number verdict who self.old.standings) }
        ensures journal { Notes (λ b. ⟦<dyn Auditor as Auditor>⟧ b.vtable) 6 out.old out.new }
        ensures len { length self.new.standings ≤ length self.old.standings }
        ensures next { self.new.next ≡ self.old.next }
        ensures listed { self.new.listed ≡ self.old.listed }
    {
        // Its standings are in order.
        let _ = &self.next;
        self.order_numbered(alloc, sysfs, number, verdict, who, on, out)
    }

    fn order_numbered<Y: Sysfs>(
        &mut self,
        alloc: Global,
        sysfs: &mut Y,
        number: u64,
        verdict: Target,
        who: Principal,
        on: bool,
        out: &mut Journal,
    ) -> Settled
        requires { 6 ≤ (noted_in out.old).spare }
        ensures runs { Runs Y.gives sysfs.old
            (ordering number verdict who on (kept_of self.old.standings (noted_in out.old).entries))
            (result, kept_of self.new.standings (noted_in out.new).entries) sysfs.new }
        ensures journal { Notes (λ b. ⟦<dyn Auditor as Auditor>⟧ b.vtable) 6 out.old out.new }
        ensures len { length self.new.standings ≤ length self.old.standings }
        ensures next { self.new.next ≡ self.old.next }
        ensures listed { self.new.listed ≡ self.old.listed }
    {
        order_standing(
            alloc,
            &mut self.standings,
            sysfs,
            number,
            verdict,
            who,
            on,
            out,
        )
    }
}

#[tactic(auto, unfolding(crate::specs::Orders::probing))]
fn probe_numbered<Y: Sysfs>(standings: &Standings, sysfs: &mut Y, number: u64) -> Probe
    ensures runs { Runs Y.gives sysfs.old (probing number standings.now.items) result sysfs.new }
    ensures call { (s : Standing) → numbered number standings.now.items ≡ Some s
        → Y.gives sysfs.old (Ask_alive s.held.0)
        (record { answer = result; number = Y.calls sysfs.new; count = Y.faults sysfs.new })
        sysfs.new }
{
    match standings.numbered(number) {
        Some(s) => reprobe(sysfs, s.held),
        None => Probe::Gone,
    }
}

#[tactic(auto, unfolding(crate::specs::Orders::ordering))]
fn order_standing<Y: Sysfs>(
    alloc: Global,
    standings: &mut Standings,
    sysfs: &mut Y,
    number: u64,
    verdict: Target,
    who: Principal,
    on: bool,
    out: &mut Journal,
) -> Settled
    requires { 6 ≤ (noted_in out.old).spare }
    ensures runs { Runs Y.gives sysfs.old
        (ordering number verdict who on (kept_of standings.old.items (noted_in out.old).entries))
        (result, kept_of standings.new.items (noted_in out.new).entries) sysfs.new }
    ensures journal { Notes (λ b. ⟦<dyn Auditor as Auditor>⟧ b.vtable) 6 out.old out.new }
    ensures keeps { KeepsOrder standings.old.items standings.new.items }
    ensures len { length standings.new.items ≤ length standings.old.items }
{
    let (name, known) = match standings.numbered(number) {
        Some(s) => (
            s.name,
            Known {
                number: s.number,
                held: s.held,
                verdict,
                removed: s.removed,
                defaulted: s.defaulted,
            },
        ),
        None => return Settled::Nobody,
    };
    out.push(Entry::Judged {
        number: known.number,
        name,
        held: known.held,
        verdict,
        cause: Cause::Order(who),
    });
    standings.set_verdict(number, verdict, who);
    let settled = bring(alloc, sysfs, &name, known, on, out);
    remember(standings, &name, false, settled);
    settled
}
