// Orders of administrators: usbguard(1).
ghost use Rattle.std.specs.Prelude.{◌≡◌, ◌≤◌, ◌<◌, ◌+◌, ◌-◌, ◌*◌, ◌^◌, IfSome, IsSome, None, Some, length, true};
ghost use Rattle.ug_kernel.specs.Tree.{Runs};
ghost use Rattle.ug_audit.specs.Journal.{live_in, members};
ghost use Rattle.ug_lines.specs.Splitting.{AreLines};
ghost use Rattle.ug_store.specs.Store.{DiskRoom, RunsDisk};
ghost use Rattle.ug_table.specs.Orders.{ordering};
ghost use Rattle.ug_table.specs.Standings.{numbered};
ghost use Rattle.ug_table.specs.State.{kept_of};
ghost use Rattle.ug_core.specs.Answering.{acting, answer_of, CanDo, CanMake, deed_after, HasReplyLines, HasWholeLines, keeping, reply_to, replying};
ghost use Rattle.ug_core.specs.Changes.{CanChange, ChangeReads, ChangeSaves, HasRoom};
ghost use Rattle.ug_core.specs.Durable.{WritesEvent, change_ordered};
ghost use Rattle.ug_core.specs.Due.{FitsDue};
ghost use Rattle.ug_core.specs.Event.{daemon_of, NotesAtMost, NotesMore};
ghost use Rattle.ug_types.specs.Events.{FitsEvent};
ghost use Rattle.ug_core.specs.Lent.{event_lent};
ghost use Rattle.ug_proto.specs.Requests.{request_read};
ghost use Rattle.ug_core.specs.Laws.{RunsAnswer, RunsOrder};
ghost use Rattle.ug_core.specs.Storing.{TellsStored, WritesRules, has_written, if_kept, noted_save, pending_stored, refused_by, stored_with, storing, with_change};

use crate::changes::Change;
use crate::choosing::{Choice, Deed};
use crate::daemon::Daemon;
use crate::lent::LentEvent;
use crate::storing::Stored;
use rand_core::Rng;
use std::alloc::Global;
use std::mem::replace;
use ug_audit::{Auditor, Entry, Journal, Panel};
use ug_cond::Zone;
use ug_kernel::Sysfs;
use ug_print::RulesTextFault;
use ug_proto::Reply;
use ug_store::{RuleDisk, Saved};
use ug_table::Settled;
use ug_types::{List, Principal, Refusal, Target, Text};

// The reply behind the writes. Where the device has left since, the order is done.
fn reply_to(lines: List<Text>, settled: Settled) -> Reply
    ensures reply { result ≡ reply_to lines settled }
    ensures whole { AreLines lines → HasWholeLines result }
{
    match settled {
        Settled::Stands => Reply::Lines(lines),
        Settled::Nobody => Reply::Lines(lines),
        Settled::Fault(failed) => Reply::Refused(Refusal::DeviceFault {
            call: failed.call,
            count: failed.count,
        }),
        Settled::Memory => Reply::Refused(Refusal::Memory { stands: true }),
    }
}

// What isn't in force is refused.
fn deed_after(stored: Stored, deed: Deed) -> Deed
    ensures deed { result ≡ deed_after stored deed }
    ensures lines { HasReplyLines deed → HasReplyLines result }
{
    match stored.refusal() {
        Some(refusal) => Deed::Refuse(refusal),
        None => deed,
    }
}

// What the journal tells of a reply.
fn answer_of(reply: &Reply) -> Result<(), Refusal>
    ensures { result ≡ answer_of reply.now }
{
    match reply {
        Reply::Lines(_) => Ok(()),
        Reply::Refused(refusal) => Err(*refusal),
    }
}

impl<Z: Zone, R: Rng> Daemon<Z, R> {
    // The device of that number gets the verdict.
    fn set_verdict<Y: Sysfs>(
        &mut self,
        alloc: Global,
        sysfs: &mut Y,
        number: u64,
        verdict: Target,
        who: &Principal,
        on: bool,
        panel: &mut Panel,
    ) -> Settled
        requires stands { IsSome (numbered number self.old.table.standings) }
        requires spare { 7 + live_in panel.old ≤ self.old.report.entries.spare }
        ensures runs { Runs Y.gives sysfs.old
            (ordering number verdict who.now on
            (kept_of (daemon_of self.old).sweep.standings (daemon_of self.old).sweep.entries)) (
              result,
              kept_of (daemon_of self.new).sweep.standings (daemon_of self.new).sweep.entries,
            )
            sysfs.new }
        ensures daemon { daemon_of self.new ≡ keeping
            (kept_of (daemon_of self.new).sweep.standings (daemon_of self.new).sweep.entries)
            (daemon_of self.old) }
        ensures notes { NotesAtMost 6 (λ b. ⟦<dyn Auditor as Auditor>⟧ b.vtable)
            self.old panel.old self.new panel.new }
    {
        let mut journal = Journal::join(panel, &mut self.report.entries);
        self.table
            .order(alloc, sysfs, number, verdict, *who, on, &mut journal)
    }

    // Saves the permanent rules with the change, where it concerns them, and makes room for it.
    #[tactic(auto, using(ug_store::proofs::DiskRuns::runs_then_disk))]
    fn save_change<D: RuleDisk>(&mut self, alloc: Global, disk: &mut D, change: &Change) -> Stored
        requires can { CanChange change.now (daemon_of self.old).sweep.judge.rules }
        requires reads { ChangeReads change.now (daemon_of self.old).sweep.judge.rules }
        ensures runs { RunsDisk D.keeps disk.old
            (DiskRoom (if_kept (daemon_of self.old).sweep.judge change.now)) result disk.new }
        ensures counted { TellsStored result (D.faults disk.old) (D.faults disk.new) }
        ensures daemon { daemon_of self.new ≡ record (daemon_of self.old)
            { pending = pending_stored result (daemon_of self.old).pending } }
        ensures report { self.new.report ≡ self.old.report }
        ensures room { refused_by result ≡ None → HasRoom change.now self.new.policy.rules.spare }
        ensures saves { refused_by result ≡ None
            → ChangeSaves change.now (daemon_of self.old).sweep.judge }
        ensures written { has_written result ≡ true
            → ChangeSaves change.now (daemon_of self.old).sweep.judge }
    {
        match self.policy.reserve_for(change) {
            Ok(()) => {}
            Err(_) => return Stored::Memory,
        }
        match self.policy.text_after(alloc, change) {
            Ok(Some(text)) => {
                let saved = self.store.save(alloc, disk, text.bytes());
                drop(text);
                Stored::of(saved)
            }
            Ok(None) => Stored::NotNeeded,
            Err(RulesTextFault::TooLong) => Stored::TooLong,
            Err(RulesTextFault::Memory) => Stored::Memory,
        }
    }

    // Notes the save, if there was one.
    fn note_stored(&mut self, stored: Stored, panel: &mut Panel)
        requires { live_in panel.old < self.old.report.entries.spare }
        ensures daemon { daemon_of self.new ≡ noted_save stored (daemon_of self.old) }
        ensures policy { self.new.policy ≡ self.old.policy }
        ensures standings { self.new.table.standings ≡ self.old.table.standings }
        ensures notes { NotesAtMost 1 (λ b. ⟦<dyn Auditor as Auditor>⟧ b.vtable)
            self.old panel.old self.new panel.new }
    {
        match stored {
            Stored::Done => self.note(Entry::Save(Saved::Done), panel),
            Stored::Failed { count } => self.note(Entry::Save(Saved::Failed(count)), panel),
            _ => {}
        }
    }

    // Does the change, and notes it.
    fn put_in_force(&mut self, change: Change, panel: &mut Panel)
        requires can { CanChange change (daemon_of self.old).sweep.judge.rules }
        requires reads { ChangeReads change (daemon_of self.old).sweep.judge.rules }
        requires room { HasRoom change self.old.policy.rules.spare }
        requires saves { ChangeSaves change (daemon_of self.old).sweep.judge }
        requires id { (daemon_of self.old).sweep.judge.next < 2 ^ 64 - 1 }
        requires spare { live_in panel.old < self.old.report.entries.spare }
        ensures daemon { daemon_of self.new ≡ with_change change (daemon_of self.old) }
        ensures standings { self.new.table.standings ≡ self.old.table.standings }
        ensures notes { NotesAtMost 1 (λ b. ⟦<dyn Auditor as Auditor>⟧ b.vtable)
            self.old panel.old self.new panel.new }
    {
        let entry = change.entry(self.policy.next_id());
        self.policy.change(change);
        self.note(entry, panel);
    }

    fn store_change<D: RuleDisk>(
        &mut self,
        alloc: Global,
        disk: &mut D,
        change: Change,
        panel: &mut Panel,
    ) -> Stored
        requires can { CanChange change (daemon_of self.old).sweep.judge.rules }
        requires reads { ChangeReads change (daemon_of self.old).sweep.judge.rules }
        requires id { (daemon_of self.old).sweep.judge.next < 2 ^ 64 - 1 }
        requires spare { 1 + live_in panel.old < self.old.report.entries.spare }
        ensures runs { RunsDisk D.keeps disk.old
            (DiskRoom (if_kept (daemon_of self.old).sweep.judge change)) result disk.new }
        ensures counted { TellsStored result (D.faults disk.old) (D.faults disk.new) }
        ensures written { WritesRules result (Some change) (daemon_of self.old).sweep.judge }
        ensures daemon { daemon_of self.new
            ≡ stored_with result (Some change) (daemon_of self.old) }
        ensures standings { self.new.table.standings ≡ self.old.table.standings }
        ensures notes { NotesAtMost 2 (λ b. ⟦<dyn Auditor as Auditor>⟧ b.vtable)
            self.old panel.old self.new panel.new }
    {
        let stored = self.save_change(alloc, disk, &change);
        self.note_stored(stored, panel);
        match stored.refusal() {
            Some(_) => change.discard(),
            None => self.put_in_force(change, panel),
        }
        stored
    }

    // What the order changes is saved, where it concerns permanent rules, and is then in force.
    #[tactic(auto, unfolding(crate::specs::Storing::storing))]
    fn store<D: RuleDisk>(
        &mut self,
        alloc: Global,
        disk: &mut D,
        change: Option<Change>,
        panel: &mut Panel,
    ) -> Stored
        requires can { CanMake (daemon_of self.old).sweep.judge.rules change }
        requires id { (daemon_of self.old).sweep.judge.next < 2 ^ 64 - 1 }
        requires spare { 1 + live_in panel.old < self.old.report.entries.spare }
        ensures runs { RunsDisk D.keeps disk.old (storing (daemon_of self.old) change)
            result disk.new }
        ensures counted { TellsStored result (D.faults disk.old) (D.faults disk.new) }
        ensures written { WritesRules result change (daemon_of self.old).sweep.judge }
        ensures daemon { daemon_of self.new ≡ stored_with result change (daemon_of self.old) }
        ensures standings { self.new.table.standings ≡ self.old.table.standings }
        ensures notes { NotesAtMost 2 (λ b. ⟦<dyn Auditor as Auditor>⟧ b.vtable)
            self.old panel.old self.new panel.new }
    {
        match change {
            Some(change) => self.store_change(alloc, disk, change, panel),
            None => Stored::NotNeeded,
        }
    }

    // What is answered to the order, once it is done.
    #[tactic(auto, using(ug_kernel::proofs::Runs::runs_then))]
    fn carry_out<Y: Sysfs>(
        &mut self,
        alloc: Global,
        sysfs: &mut Y,
        who: &Principal,
        deed: Deed,
        panel: &mut Panel,
    ) -> Reply
        requires can { CanDo (daemon_of self.old) deed }
        requires lines { HasReplyLines deed }
        requires spare { 7 + live_in panel.old ≤ self.old.report.entries.spare }
        ensures whole { HasWholeLines result }
        ensures runs { Runs Y.gives sysfs.old (acting who.now (daemon_of self.old) deed)
            (replying result (daemon_of self.new)) sysfs.new }
        ensures notes { NotesAtMost 6 (λ b. ⟦<dyn Auditor as Auditor>⟧ b.vtable)
            self.old panel.old self.new panel.new }
    {
        match deed {
            Deed::Refuse(refusal) => Reply::Refused(refusal),
            Deed::Tell(rows) => Reply::Lines(rows),
            Deed::Watch => {
                self.report.watch = true;
                Reply::Lines(List::new(alloc))
            }
            Deed::SetVerdict {
                number,
                verdict,
                on,
                lines,
            } => {
                let settled = self.set_verdict(alloc, sysfs, number, verdict, who, on, panel);
                reply_to(lines, settled)
            }
        }
    }

    // Notes the reply, and reports it as the event's.
    fn reply(&mut self, reply: Reply, panel: &mut Panel)
        requires { live_in panel.old < self.old.report.entries.spare }
        ensures daemon { daemon_of self.new ≡ replying reply (daemon_of self.old) }
        ensures reply { self.new.report.reply ≡ Some reply }
        ensures spare { self.new.report.entries.spare + 1 + live_in panel.old
            ≡ self.old.report.entries.spare + live_in panel.new }
        ensures notes { NotesAtMost 1 (λ b. ⟦<dyn Auditor as Auditor>⟧ b.vtable)
            self.old panel.old self.new panel.new }
    {
        self.note(Entry::Reply(answer_of(&reply)), panel);
        if let Some(earlier) = replace(&mut self.report.reply, Some(reply)) {
            earlier.discard();
        }
    }

    // An order is answered, stage by stage.
    fn answer_order<Y: Sysfs, D: RuleDisk>(
        &mut self,
        alloc: Global,
        who: &Principal,
        line: &[u8],
        sysfs: &mut Y,
        disk: &mut D,
        panel: &mut Panel,
    ) -> Stored
        requires id { (daemon_of self.old).sweep.judge.next < 2 ^ 64 - 1 }
        requires spare { 9 + live_in panel.old ≤ self.old.report.entries.spare }
        ensures runs { RunsOrder Y.gives D.keeps who.now line.now
            sysfs.old disk.old (daemon_of self.old)
            result sysfs.new disk.new (daemon_of self.new) }
        ensures written { WritesRules result
            (change_ordered who.now (daemon_of self.old) (request_read line.now))
            (daemon_of self.old).sweep.judge }
        ensures whole { IfSome self.new.report.reply (λ r. HasWholeLines r) }
        ensures counted { TellsStored result (D.faults disk.old) (D.faults disk.new) }
        ensures notes { NotesAtMost 9 (λ b. ⟦<dyn Auditor as Auditor>⟧ b.vtable)
            self.old panel.old self.new panel.new }
    {
        let Choice { change, deed } = self.choose(alloc, sysfs, who, line);
        let stored = self.store(alloc, disk, change, panel);
        let deed = deed_after(stored, deed);
        let reply = self.carry_out(alloc, sysfs, who, deed, panel);
        self.reply(reply, panel);
        stored
    }

    // The order of an event is answered, or its piece of uevents is met. A sweep has neither.
    pub(crate) fn answer<Y: Sysfs, D: RuleDisk>(
        &mut self,
        alloc: Global,
        event: &LentEvent,
        sysfs: &mut Y,
        disk: &mut D,
        panel: &mut Panel,
    ) -> Stored
        requires piece { FitsEvent (event_lent event.now) }
        requires id { (daemon_of self.old).sweep.judge.next < 2 ^ 64 - 1 }
        requires spare { 10 * length self.old.table.standings + 11 + live_in panel.old
            ≤ self.old.report.entries.spare }
        requires undue { self.old.due ≡ None }
        requires silent { self.old.report.reply ≡ None }
        ensures runs { RunsAnswer Y.gives D.keeps (event_lent event.now)
            sysfs.old disk.old (daemon_of self.old)
            result sysfs.new disk.new (daemon_of self.new) }
        ensures written { WritesEvent (event_lent event.now) (daemon_of self.old) result }
        ensures whole { IfSome self.new.report.reply (λ r. HasWholeLines r) }
        ensures counted { TellsStored result (D.faults disk.old) (D.faults disk.new) }
        ensures fits { FitsDue self.new.due (length self.new.table.standings)
            (live_in panel.new) self.new.report.entries.spare self.new.report.entries.room }
        ensures next { self.new.table.next ≡ self.old.table.next }
        ensures next_event { self.new.next_event ≡ self.old.next_event }
        ensures number { self.new.report.event ≡ self.old.report.event }
        ensures noted { NotesMore self.old.report.entries.entries self.new.report.entries.entries
            (members (λ b. ⟦<dyn Auditor as Auditor>⟧ b.vtable) panel.old)
            (members (λ b. ⟦<dyn Auditor as Auditor>⟧ b.vtable) panel.new) }
    {
        match event {
            LentEvent::Sweep(_) => Stored::NotNeeded,
            LentEvent::Order(_, who, line) => {
                self.answer_order(alloc, who, line, sysfs, disk, panel)
            }
            LentEvent::Hint(_, piece) => {
                self.meet_piece(alloc, piece, panel);
                Stored::NotNeeded
            }
        }
    }
}
