// What the definitions of the rule file mean.
ghost use Rattle.std.specs.Prelude.{◌≡◌, ℕ, ◌++◌, ◌∷◌, [], true, None, Some, List};
ghost use Rattle.ug_store.specs.declared.mishap.Planned.{Planned};
ghost use Rattle.ug_store.specs.DiskCalls.{DiskCall, DiskTold};
ghost use Rattle.ug_store.specs.Scripted.{DiskWorld, MemKeeps, plan_at};
ghost use Rattle.ug_store.specs.PlayDisk.{SavesAsPlayed, ReadsAsPlayed};
ghost use Rattle.ug_store.specs.History.{StandsAfter, StandsWithin, ReadsStanding, CoversEnds, LeavesInside, StaysPossible};

/// From a rule file that a crash leaves as it is: whatever was saved and read since, and whatever the disk answered,
/// a crash at any moment leaves the text of the last save that was done (the first text, where none was), or of one
/// since then that failed or was going on. A reading gives such a text too.
pub fn history_law()
    ensures after { StandsAfter }
    ensures within { StandsWithin }
    ensures reading { ReadsStanding }
{}

/// The moments within a disk's calls are all moments: what a crash leaves between two calls, it may leave within each of
/// the two. And a crash may always leave the rule file as it is.
pub fn moment_law()
    ensures ends { CoversEnds }
    ensures stays { StaysPossible }
    ensures inside { LeavesInside }
{}

/// A call of a disk in memory fails where it is planned to. The last plan for it counts.
pub fn mishap_law()
    ensures none { (n : ℕ) → plan_at n None [] ≡ None }
    ensures last { (n : ℕ) (ps : List Planned) (p : Planned) → p.call ≡ n
        → plan_at n None (ps ++ p ∷ []) ≡ Some p }
    ensures other { (n : ℕ) (ps : List Planned) (p : Planned) → ¬ (p.call ≡ n)
        → plan_at n None (ps ++ p ∷ []) ≡ plan_at n None ps }
{}

/// Over a disk in memory, a save and a reading are those that its script fixes, unless they tell want of memory or the
/// disk has run out.
pub fn play_disk_law()
    ensures saves { SavesAsPlayed }
    ensures reads { ReadsAsPlayed }
{}

/// A disk in memory that has run out stays so.
pub fn run_out_law()
    ensures { (s : DiskWorld) (call : DiskCall) (a : DiskTold call) (t : DiskWorld)
        → MemKeeps s call a t → s.ran_out ≡ true → t.ran_out ≡ true }
{}
