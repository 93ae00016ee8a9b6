// The trait of the outside: the disk that holds the rule file.
ghost use Rattle.std.specs.Prelude.{◌≡◌, ℕ, List, Option, Some, OnOk};
ghost use Rattle.ug_store.specs.DiskCalls.{DiskCall, Load, Write_new, Sync_new, Swap, DiskTold, FitsLoaded, NeedsNoMemory, CountsOnDisk};
ghost use Rattle.ug_store.specs.Disk.{Disk, FollowsOnDisk};

use std::alloc::Global;
use ug_types::{NoMemory, Text};

/// The answer to a reading of the rule file.
#[derive(Drop)]
pub enum Loaded {
    Bytes(Text),
    /// There is no such file, or it is empty.
    Absent,
    /// More than 67,108,864 bytes.
    TooLong,
    Failed,
    Memory,
}

/// The answer to a call on the new file.
#[derive(Clone, Copy)]
pub enum DiskAnswer {
    Done,
    /// It may have had its effect.
    Failed,
    /// Nothing was written.
    Memory,
}

/// The rule file, and a new file beside it that is to take its place. Each call can fail, and the machine can
/// stop at any moment: what a rename leaves then is rename(2)'s, what a sync makes durable is fsync(2)'s.
pub trait RuleDisk {
    /// What a call may answer, and what it leaves.
    ghost keeps: { Self → (call : DiskCall) → DiskTold call → Self → Type 0 };

    /// The disk, where it is told.
    ghost told: { Self → Option Disk };

    /// How many calls have failed.
    ghost faults: { Self → ℕ };

    /// Whether the calls are on the rule file at that path. A disk that has one rule file alone is aimed at each path.
    ghost aimed: { Self → (path : List ℕ) → Type 0 };

    /// Names the rule file that the later calls are on. A disk that is told has one rule file, and keeps it.
    fn aim(&mut self, alloc: Global, path: &[u8]) -> Result<(), NoMemory>
        ensures told { told self.new ≡ told self.old }
        ensures faults { faults self.new ≡ faults self.old }
        ensures aimed { OnOk result (aimed self.new path.now) };

    /// The rule file's text.
    fn load(&mut self, alloc: Global) -> Loaded
        ensures keeps { keeps self.old Load
            (record { answer = result; count = faults self.new }) self.new }
        ensures fits { FitsLoaded result };

    /// Writes a text into the new file.
    fn write_new(&mut self, alloc: Global, text: &[u8]) -> DiskAnswer
        ensures { keeps self.old (Write_new text.now)
            (record { answer = result; count = faults self.new }) self.new };

    /// Makes the new file's text durable.
    fn sync_new(&mut self) -> DiskAnswer
        ensures keeps { keeps self.old Sync_new
            (record { answer = result; count = faults self.new }) self.new }
        ensures memory { NeedsNoMemory result };

    /// Puts the new file in the rule file's place.
    fn swap(&mut self) -> DiskAnswer
        ensures keeps { keeps self.old Swap
            (record { answer = result; count = faults self.new }) self.new }
        ensures memory { NeedsNoMemory result };

    /// How many calls have failed.
    fn faults(&self) -> u64
        ensures { result ≡ faults self.now };

    /// Where a disk is told after a call, one was told before it, and the call did what it may.
    ghost did: { (s : Self) (call : DiskCall) (answer : DiskTold call) (t : Self) (n : Disk)
        → keeps s call answer t → told t ≡ Some n → FollowsOnDisk call answer (told s) n };

    /// Each failure is counted.
    ghost counted: { (s : Self) (call : DiskCall) (answer : DiskTold call) (t : Self)
        → keeps s call answer t → CountsOnDisk call answer (faults s) (faults t) };

    /// A call leaves the disk aimed at the same file.
    ghost stays: { (s : Self) (call : DiskCall) (answer : DiskTold call) (t : Self) (path : List ℕ)
        → keeps s call answer t → aimed s path → aimed t path };
}
