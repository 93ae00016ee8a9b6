// The saving of the rule file, and its reading at a start.
ghost use Rattle.std.specs.Prelude.{◌≡◌, ◌≤◌, false, IfOk, length};
ghost use Rattle.ug_types.specs.Ends.{IsCounted};
ghost use Rattle.ug_types.specs.Limits.{text_limit};
ghost use Rattle.ug_store.specs.Store.{RunsDisk, saving, Saves, TellsSaveFault, pending_after, recovering, Recovers, TellsRecoverFault, seen_by};

use crate::disk::{DiskAnswer, Loaded, RuleDisk};
use std::alloc::Global;
use std::marker::Model;
use ug_types::{Saved, Text};

/// Why the rule file wasn't read.
#[derive(Clone, Copy)]
pub enum RecoverFault {
    /// The call failed; the disk's count of faults after it.
    Failed(u64),
    /// More than 67,108,864 bytes.
    TooLong,
    Memory,
}

/// Keeps the rule file, and knows whether its last save failed. Contracts see it as that answer.
#[derive(Drop)]
pub struct Store {
    pending: bool,
}

impl Model for Store {
    ghost use Rattle.std.specs.Prelude.{Bool};

    ghost Value = { Bool };

    ghost view = { λ s. s.pending };
}

impl Store {
    /// Reads the rule file at a start. An absent file is the empty text, and nothing is pending.
    pub fn recover<D: RuleDisk>(
        alloc: Global,
        disk: &mut D,
    ) -> Result<(Store, Vec<u8>), RecoverFault>
        ensures runs { RunsDisk D.keeps disk.old recovering
            (seen_by (λ r. r.1.items) result) disk.new }
        ensures law { Recovers D.told disk.old (seen_by (λ r. r.1.items) result) disk.new }
        ensures fits { IfOk result (λ r. length r.1.items ≤ text_limit) }
        ensures pending { IfOk result (λ r. r.0 ≡ false) }
        ensures fault { TellsRecoverFault (seen_by (λ r. r.1.items) result) (D.faults disk.old)
            (D.faults disk.new) }
    {
        match read_soundly(alloc, disk) {
            Ok(text) => Ok((Store { pending: false }, text.into_vec())),
            Err(fault) => Err(fault),
        }
    }

    /// Saves a text: the new file is written and synced, and takes the place of the old one. The first call that
    /// isn't done ends it. What a crash leaves of the rule file is the old text or the new one, never a mixture.
    pub fn save<D: RuleDisk>(&mut self, alloc: Global, disk: &mut D, text: &[u8]) -> Saved
        ensures runs { RunsDisk D.keeps disk.old (saving text.now) result disk.new }
        ensures law { Saves D.told text.now disk.old result disk.new }
        ensures pending { self.new ≡ pending_after result self.old }
        ensures never_falls { D.faults disk.old ≤ D.faults disk.new }
        ensures fault { TellsSaveFault result (D.faults disk.old) (D.faults disk.new) }
    {
        let saved = write_soundly(alloc, disk, text);
        self.pending = pending_after(saved, self.pending);
        saved
    }

    /// Whether the last save that didn't answer Memory failed.
    pub fn pending(&self) -> bool
        ensures { result ≡ self.now }
    {
        self.pending
    }
}

fn pending_after(saved: Saved, was: bool) -> bool
    ensures { result ≡ pending_after saved was }
{
    match saved {
        Saved::Done => false,
        Saved::Failed(_) => true,
        Saved::Memory => was,
    }
}

#[tactic(auto, unfolding(crate::specs::Store::recovering))]
fn read<D: RuleDisk>(alloc: Global, disk: &mut D) -> Result<Text, RecoverFault>
    ensures runs { RunsDisk D.keeps disk.old recovering result disk.new }
    ensures fits { IfOk result (λ text. length text ≤ text_limit) }
{
    match disk.load(alloc) {
        Loaded::Bytes(text) => Ok(text),
        Loaded::Absent => Ok(Text::new(alloc)),
        Loaded::TooLong => Err(RecoverFault::TooLong),
        Loaded::Failed => Err(RecoverFault::Failed(disk.faults())),
        Loaded::Memory => Err(RecoverFault::Memory),
    }
}

// What the reading means where the disk is told.
fn read_soundly<D: RuleDisk>(alloc: Global, disk: &mut D) -> Result<Text, RecoverFault>
    ensures runs { RunsDisk D.keeps disk.old recovering result disk.new }
    ensures law { Recovers D.told disk.old result disk.new }
    ensures fits { IfOk result (λ text. length text ≤ text_limit) }
    ensures counted { IsCounted (D.faults disk.old) (D.faults disk.new) }
    ensures fault { TellsRecoverFault result (D.faults disk.old) (D.faults disk.new) }
{
    read(alloc, disk)
}

#[tactic(auto, unfolding(crate::specs::Store::saving))]
fn write<D: RuleDisk>(alloc: Global, disk: &mut D, text: &[u8]) -> Saved
    ensures { RunsDisk D.keeps disk.old (saving text.now) result disk.new }
{
    match disk.write_new(alloc, text) {
        DiskAnswer::Done => {}
        DiskAnswer::Failed => return Saved::Failed(disk.faults()),
        DiskAnswer::Memory => return Saved::Memory,
    }
    match disk.sync_new() {
        DiskAnswer::Done => {}
        DiskAnswer::Failed => return Saved::Failed(disk.faults()),
        DiskAnswer::Memory => return Saved::Memory,
    }
    match disk.swap() {
        DiskAnswer::Done => Saved::Done,
        DiskAnswer::Failed => Saved::Failed(disk.faults()),
        DiskAnswer::Memory => Saved::Memory,
    }
}

// What the saving means where the disk is told.
fn write_soundly<D: RuleDisk>(alloc: Global, disk: &mut D, text: &[u8]) -> Saved
    ensures runs { RunsDisk D.keeps disk.old (saving text.now) result disk.new }
    ensures law { Saves D.told text.now disk.old result disk.new }
    ensures never_falls { D.faults disk.old ≤ D.faults disk.new }
    ensures fault { TellsSaveFault result (D.faults disk.old) (D.faults disk.new) }
{
    write(alloc, disk, text)
}
