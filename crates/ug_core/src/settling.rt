// The last stage of an event: all devices are settled, or those of the names that are due.
ghost use Rattle.std.specs.Prelude.{◌≡◌, ◌≤◌, ◌<◌, ◌+◌, ◌*◌, ◌^◌, [], length};
ghost use Rattle.ug_kernel.specs.Tree.{Runs};
ghost use Rattle.ug_audit.specs.Journal.{live_in, members, noted_in, SameEntries};
ghost use Rattle.ug_table.specs.Parts.{NamesOnce, unsettled_names};
ghost use Rattle.ug_table.specs.State.{state_of};
ghost use Rattle.ug_core.specs.Due.{AreDueInOrder, FitsDue, SettlesDueIn, TellsDue, entries_due, standings_due};
ghost use Rattle.ug_core.specs.Event.{daemon_of, handling, NotesMore, settling_due};
ghost use Rattle.ug_core.specs.Laws.{Handles, NamesOnceIn, TellsSweep};
ghost use Rattle.ug_core.specs.Policy.{judging_of};

use crate::daemon::Daemon;
use crate::policy::Policy;
use rand_core::Rng;
use std::alloc::Global;
use ug_audit::{Auditor, Entry, Journal, Panel};
use ug_cond::Zone;
use ug_kernel::{Sysfs, Write};
use ug_table::Table;
use ug_types::{List, NodeName};

// Settles all devices, or those of the names that are due.
fn settle_due<Z: Zone, R: Rng, Y: Sysfs>(
    alloc: Global,
    table: &mut Table,
    policy: &mut Policy<Z, R>,
    due: Option<List<NodeName>>,
    sysfs: &mut Y,
    hub_default: Option<Write>,
    out: &mut Journal,
)
    requires order { AreDueInOrder due }
    requires few { standings_due due ≤ 1048576 }
    requires spare { entries_due due (length table.old.standings) ≤ (noted_in out.old).spare }
    requires next { table.old.next + 1048576 < 2 ^ 64 }
    ensures runs { Runs Y.gives sysfs.old
        (settling_due due
        (state_of hub_default table.old (judging_of Z.clock R.stream policy.old)
        (noted_in out.old).entries))
        (state_of hub_default table.new (judging_of Z.clock R.stream policy.new)
        (noted_in out.new).entries)
        sysfs.new }
    ensures law { SettlesDueIn Y.told due sysfs.old
        (state_of hub_default table.old (judging_of Z.clock R.stream policy.old)
        (noted_in out.old).entries)
        sysfs.new
        (state_of hub_default table.new (judging_of Z.clock R.stream policy.new)
        (noted_in out.new).entries) }
    ensures tells { TellsDue Y.gives Y.calls Y.faults due sysfs.old
        (state_of hub_default table.old (judging_of Z.clock R.stream policy.old)
        (noted_in out.old).entries)
        sysfs.new
        (state_of hub_default table.new (judging_of Z.clock R.stream policy.new)
        (noted_in out.new).entries) }
    ensures once { NamesOnce Y.told sysfs.old
        (state_of hub_default table.old (judging_of Z.clock R.stream policy.old)
        (noted_in out.old).entries)
        sysfs.new
        (state_of hub_default table.new (judging_of Z.clock R.stream policy.new)
        (noted_in out.new).entries) }
    ensures spare { 0 < (noted_in out.new).spare }
    ensures room { 10 * (length table.old.standings + standings_due due) + 64
        ≤ (noted_in out.old).room → 10 * length table.new.standings + 64 ≤ (noted_in out.new).room }
    ensures same { SameEntries (λ b. ⟦<dyn Auditor as Auditor>⟧ b.vtable) out.old out.new }
{
    match due {
        None => table.sweep(alloc, sysfs, policy, hub_default, out),
        Some(names) => {
            let present = !table.listed();
            table.settle_names(
                alloc,
                sysfs,
                names.as_slice(),
                present,
                policy,
                hub_default,
                out,
            );
        }
    }
}

impl<Z: Zone, R: Rng> Daemon<Z, R> {
    // The last stage, and the last entry.
    #[tactic(auto, unfolding(crate::specs::Event::handling), using(ug_kernel::proofs::Runs::runs_then))]
    pub(crate) fn settle<Y: Sysfs>(&mut self, alloc: Global, sysfs: &mut Y, panel: &mut Panel)
        requires next { (daemon_of self.old).sweep.next + 1048576 < 2 ^ 64 }
        requires event { (daemon_of self.old).event + 1 < 2 ^ 64 }
        requires fits { FitsDue self.old.due (length self.old.table.standings)
            (live_in panel.old) self.old.report.entries.spare self.old.report.entries.room }
        requires nameless { unsettled_names (daemon_of self.old).sweep.entries ≡ [] }
        ensures runs { Runs Y.gives sysfs.old (handling (daemon_of self.old))
            (daemon_of self.new) sysfs.new }
        ensures law { Handles Y.told sysfs.old (daemon_of self.old) sysfs.new (daemon_of self.new) }
        ensures tells { TellsSweep Y.gives Y.calls Y.faults sysfs.old (daemon_of self.old)
            sysfs.new (daemon_of self.new) }
        ensures once { NamesOnceIn Y.told sysfs.old (daemon_of self.old)
            sysfs.new (daemon_of self.new) }
        ensures number { self.new.report.event ≡ self.old.report.event }
        ensures reply { self.new.report.reply ≡ self.old.report.reply }
        ensures watch { self.new.report.watch ≡ self.old.report.watch }
        ensures noted { NotesMore self.old.report.entries.entries self.new.report.entries.entries
            (members (λ b. ⟦<dyn Auditor as Auditor>⟧ b.vtable) panel.old)
            (members (λ b. ⟦<dyn Auditor as Auditor>⟧ b.vtable) panel.new) }
    {
        let number = self.next_event;
        let hub_default = self.hub_default;
        let due = self.due.take();
        let mut journal = Journal::join(panel, &mut self.report.entries);
        settle_due(
            alloc,
            &mut self.table,
            &mut self.policy,
            due,
            sysfs,
            hub_default,
            &mut journal,
        );
        journal.push(Entry::End { number });
        self.next_event += 1;
    }
}
