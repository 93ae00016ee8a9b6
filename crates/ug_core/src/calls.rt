// The daemon's calls.
ghost use Rattle.std.specs.Prelude.{◌≡◌, ◌≤◌, ◌<◌, ◌+◌, ◌*◌, false, IfSome, IsTrue, None, Some, length};
ghost use Rattle.ug_audit.specs.Journal.{live_in, members};
ghost use Rattle.ug_audit.specs.Noting.{NotesEntries, tells_drop, without_drops};
ghost use Rattle.ug_store.specs.Store.{RunsDisk, pending_after};
ghost use Rattle.ug_core.specs.Answering.{HasWholeLines};
ghost use Rattle.ug_core.specs.Event.{begun, daemon_of, has_numbers, is_low, noting, NotesAtMost, saving_rules, tried_with, trying};
ghost use Rattle.ug_types.specs.Events.{FitsEvent, longest_piece};
ghost use Rattle.ug_core.specs.Lent.{event_lent};
ghost use Rattle.ug_core.specs.Laws.{HandlesEvent, PassesEvent, TellsTried};
ghost use Rattle.ug_types.specs.declared.event.Event.TheVariants.{Hint};

use crate::between::Between;
use crate::daemon::Daemon;
use crate::lent::{LentEvent, lend};
use crate::report::Report;
use rand_core::Rng;
use std::alloc::Global;
use ug_acl::Acl;
use ug_audit::{Auditor, Entry, Journal, Panel};
use ug_cond::Zone;
use ug_kernel::Sysfs;
use ug_store::{RuleDisk, Saved};
use ug_types::{Event, Moment};

const LOW: u64 = u64::MAX - 4194304;

const MOST_STANDINGS: usize = 2097152;

fn low(n: u64) -> bool
    ensures { result ≡ is_low n }
{
    n <= LOW
}

impl<Z: Zone, R: Rng> Daemon<Z, R> {
    /// Whether the next device number, the counts of faults, the event's number and the standings leave room for an event, and an id
    /// is left for one rule more.
    pub fn has_numbers(&self, sysfs_faults: u64, disk_faults: u64) -> bool
        ensures { result ≡ has_numbers (daemon_of self.now) sysfs_faults disk_faults }
    {
        low(self.table.next_number())
            && low(self.next_event)
            && low(sysfs_faults)
            && low(disk_faults)
            && self.table.count() <= MOST_STANDINGS
            && self.policy.has_id()
    }

    /// The number of the next event.
    pub fn next_event(&self) -> u64
        ensures { result ≡ (daemon_of self.now).event }
    {
        self.next_event
    }

    /// Who may do what.
    pub fn acl(&self) -> &Acl
        ensures { result.now ≡ (daemon_of self.now).access }
    {
        &self.acl
    }

    /// What was noted of the last event.
    pub fn report(&self) -> &Report
        ensures { result.now ≡ self.now.report }
    {
        &self.report
    }

    /// Handles an event, whose entries are then the report's. Each entry's line is given to the panel before what comes behind it
    /// is done; an entry tells of each member that fails.
    pub fn handle<Y: Sysfs, D: RuleDisk>(
        &mut self,
        alloc: Global,
        event: &Event,
        sysfs: &mut Y,
        disk: &mut D,
        panel: &mut Panel,
    )
        requires numbers { IsTrue
            (has_numbers (daemon_of self.old) (Y.faults sysfs.old) (D.faults disk.old)) }
        requires piece { FitsEvent event.now }
        ensures handles { HandlesEvent Y.Sysfs D.RuleDisk
            event.now sysfs.old disk.old (daemon_of self.old)
            sysfs.new disk.new (daemon_of self.new) }
        ensures whole { IfSome self.new.report.reply (λ r. HasWholeLines r) }
        ensures number { self.new.report.event ≡ self.old.next_event }
        ensures noted { NotesEntries self.new.report.entries.entries
            (members (λ b. ⟦<dyn Auditor as Auditor>⟧ b.vtable) panel.old)
            (members (λ b. ⟦<dyn Auditor as Auditor>⟧ b.vtable) panel.new) }
        ensures alone { live_in panel.old ≡ 0
            → without_drops self.new.report.entries.entries ≡ self.new.report.entries.entries }
    {
        self.handle_lent(alloc, &lend(event), sysfs, disk, panel);
    }

    /// The same for an event with a piece of recorded uevents, which is lent.
    pub fn handle_hint<Y: Sysfs, D: RuleDisk>(
        &mut self,
        alloc: Global,
        moment: Moment,
        piece: &[u8],
        sysfs: &mut Y,
        disk: &mut D,
        panel: &mut Panel,
    )
        requires numbers { IsTrue
            (has_numbers (daemon_of self.old) (Y.faults sysfs.old) (D.faults disk.old)) }
        requires piece { length piece.now ≤ longest_piece }
        ensures handles { HandlesEvent Y.Sysfs D.RuleDisk
            (Hint moment piece.now) sysfs.old disk.old (daemon_of self.old)
            sysfs.new disk.new (daemon_of self.new) }
        ensures whole { IfSome self.new.report.reply (λ r. HasWholeLines r) }
        ensures number { self.new.report.event ≡ self.old.next_event }
        ensures noted { NotesEntries self.new.report.entries.entries
            (members (λ b. ⟦<dyn Auditor as Auditor>⟧ b.vtable) panel.old)
            (members (λ b. ⟦<dyn Auditor as Auditor>⟧ b.vtable) panel.new) }
        ensures alone { live_in panel.old ≡ 0
            → without_drops self.new.report.entries.entries ≡ self.new.report.entries.entries }
    {
        self.handle_lent(alloc, &LentEvent::Hint(moment, piece), sysfs, disk, panel);
    }

    fn handle_lent<Y: Sysfs, D: RuleDisk>(
        &mut self,
        alloc: Global,
        event: &LentEvent,
        sysfs: &mut Y,
        disk: &mut D,
        panel: &mut Panel,
    )
        requires numbers { IsTrue
            (has_numbers (daemon_of self.old) (Y.faults sysfs.old) (D.faults disk.old)) }
        requires piece { FitsEvent (event_lent event.now) }
        ensures handles { HandlesEvent Y.Sysfs D.RuleDisk
            (event_lent event.now) sysfs.old disk.old (daemon_of self.old)
            sysfs.new disk.new (daemon_of self.new) }
        ensures whole { IfSome self.new.report.reply (λ r. HasWholeLines r) }
        ensures number { self.new.report.event ≡ self.old.next_event }
        ensures noted { NotesEntries self.new.report.entries.entries
            (members (λ b. ⟦<dyn Auditor as Auditor>⟧ b.vtable) panel.old)
            (members (λ b. ⟦<dyn Auditor as Auditor>⟧ b.vtable) panel.new) }
        ensures alone { live_in panel.old ≡ 0
            → without_drops self.new.report.entries.entries ≡ self.new.report.entries.entries }
    {
        // The standings are in order, and the permanent rules can be saved.
        let _next = self.table.next_number();
        self.policy.stay_saveable();
        self.begin(event, panel);
        let _tried = self.save_pending(alloc, disk, panel);
        sysfs.begin();
        let _stored = self.answer(alloc, event, sysfs, disk, panel);
        self.settle(alloc, sysfs, panel);
        self.policy.stay_saveable();
    }

    /// Handles an event, with something between its stages.
    pub fn handle_between<Y: Sysfs, D: RuleDisk, B: Between<Y, D>>(
        &mut self,
        alloc: Global,
        event: &Event,
        sysfs: &mut Y,
        disk: &mut D,
        panel: &mut Panel,
        between: &mut B,
    )
        requires numbers { IsTrue
            (has_numbers (daemon_of self.old) (Y.faults sysfs.old) (D.faults disk.old)) }
        requires piece { FitsEvent event.now }
        ensures passes { PassesEvent Y.Sysfs D.RuleDisk B.goes
            event.now sysfs.old disk.old (daemon_of self.old)
            sysfs.new disk.new (daemon_of self.new) }
        ensures whole { IfSome self.new.report.reply (λ r. HasWholeLines r) }
        ensures number { self.new.report.event ≡ self.old.next_event }
        ensures noted { NotesEntries self.new.report.entries.entries
            (members (λ b. ⟦<dyn Auditor as Auditor>⟧ b.vtable) panel.old)
            (members (λ b. ⟦<dyn Auditor as Auditor>⟧ b.vtable) panel.new) }
        ensures alone { live_in panel.old ≡ 0
            → without_drops self.new.report.entries.entries ≡ self.new.report.entries.entries }
    {
        // The standings are in order, and the permanent rules can be saved.
        let _next = self.table.next_number();
        self.policy.stay_saveable();
        let lent = lend(event);
        self.begin(&lent, panel);
        let _tried = self.save_pending(alloc, disk, panel);
        sysfs.begin();
        between.pass(sysfs, disk);
        let _stored = self.answer(alloc, &lent, sysfs, disk, panel);
        between.pass(sysfs, disk);
        self.settle(alloc, sysfs, panel);
        self.policy.stay_saveable();
    }

    // The first entry.
    fn begin(&mut self, event: &LentEvent, panel: &mut Panel)
        ensures daemon { daemon_of self.new ≡ begun (event_lent event.now) (daemon_of self.old) }
        ensures spare { 10 * length self.new.table.standings + 63 + live_in panel.new
            ≤ self.new.report.entries.spare }
        ensures reply { self.new.report.reply ≡ None }
        ensures watch { self.new.report.watch ≡ false }
        ensures number { self.new.report.event ≡ self.old.next_event }
        ensures noted { NotesEntries self.new.report.entries.entries
            (members (λ b. ⟦<dyn Auditor as Auditor>⟧ b.vtable) panel.old)
            (members (λ b. ⟦<dyn Auditor as Auditor>⟧ b.vtable) panel.new) }
    {
        let number = self.next_event;
        self.policy.set_moment(event.moment());
        self.report.event = number;
        self.report.entries.clear();
        if let Some(reply) = self.report.reply.take() {
            reply.discard();
        }
        self.report.watch = false;
        drop(self.due.take());
        self.note(event.first_entry(number), panel);
    }

    // Notes an entry, for which there is room.
    pub(crate) fn note(&mut self, entry: Entry, panel: &mut Panel)
        requires place { live_in panel.old < self.old.report.entries.spare }
        requires kind { tells_drop entry ≡ false }
        ensures daemon { daemon_of self.new ≡ noting entry (daemon_of self.old) }
        ensures policy { self.new.policy ≡ self.old.policy }
        ensures spare { self.new.report.entries.spare + 1 + live_in panel.old
            ≡ self.old.report.entries.spare + live_in panel.new }
        ensures reply { self.new.report.reply ≡ self.old.report.reply }
        ensures watch { self.new.report.watch ≡ self.old.report.watch }
        ensures notes { NotesAtMost 1 (λ b. ⟦<dyn Auditor as Auditor>⟧ b.vtable)
            self.old panel.old self.new panel.new }
    {
        let mut journal = Journal::join(panel, &mut self.report.entries);
        journal.push(entry);
    }

    // A pending save is tried.
    #[tactic(auto, unfolding(crate::specs::Event::trying))]
    fn save_pending<D: RuleDisk>(
        &mut self,
        alloc: Global,
        disk: &mut D,
        panel: &mut Panel,
    ) -> Option<Saved>
        requires { live_in panel.old < self.old.report.entries.spare }
        ensures runs { RunsDisk D.keeps disk.old (trying (daemon_of self.old)) result disk.new }
        ensures counted { TellsTried result (D.faults disk.old) (D.faults disk.new) }
        ensures daemon { daemon_of self.new ≡ tried_with result (daemon_of self.old) }
        ensures reply { self.new.report.reply ≡ self.old.report.reply }
        ensures watch { self.new.report.watch ≡ self.old.report.watch }
        ensures notes { NotesAtMost 1 (λ b. ⟦<dyn Auditor as Auditor>⟧ b.vtable)
            self.old panel.old self.new panel.new }
    {
        if !self.store.pending() {
            return None;
        }
        let saved = self.save(alloc, disk);
        self.note(Entry::Save(saved), panel);
        Some(saved)
    }

    // Saves the permanent rules.
    #[tactic(auto, using(ug_store::proofs::DiskRuns::runs_then_disk))]
    fn save<D: RuleDisk>(&mut self, alloc: Global, disk: &mut D) -> Saved
        ensures runs { RunsDisk D.keeps disk.old
            (saving_rules (daemon_of self.old).sweep.judge.rules) (Some result) disk.new }
        ensures counted { TellsTried (Some result) (D.faults disk.old) (D.faults disk.new) }
        ensures daemon { daemon_of self.new ≡ record (daemon_of self.old)
            { pending = pending_after result (daemon_of self.old).pending } }
        ensures report { self.new.report ≡ self.old.report }
    {
        match self.policy.rules_text(alloc) {
            Ok(text) => {
                let saved = self.store.save(alloc, disk, text.bytes());
                drop(text);
                saved
            }
            Err(_) => Saved::Memory,
        }
    }
}
