// The law of the settling of given names beside a sweep.
ghost use Rattle.std.specs.Prelude.{ℕ, List};
ghost use Rattle.ug_kernel.specs.Kernel.{IsKernel, Kernel};
ghost use Rattle.ug_kernel.specs.Tree.{Prog, Runs, calls};
ghost use Rattle.ug_table.specs.State.{State};
ghost use Rattle.ug_core.specs.Event.{DaemonState, handling};
ghost use Rattle.ug_core.specs.Policy.{Judging};
ghost use Rattle.ug_hint_laws.specs.Compared.{ComparesWithSweep, RunsStill};
ghost use Rattle.ug_hint_laws.specs.Daemon.{ComparesByRules, ComparesStages};

use ug_table::Judge;

/// The settling of the names of a hint event ends as a sweep from the same state does, over a kernel that stands still, where
/// the sweep would find nothing to do for any other name.
pub fn comparison_law<A: Judge>()
    ensures { (names : List (List ℕ)) (k : Kernel) (w : State A.Meaning)
        → ComparesWithSweep A.answer A.later names k w }
{}

/// For the policy of the daemon, where no rule has an `allowed-matches` condition, or gone devices left their names to live ones.
pub fn policy_law()
    ensures { (names : List (List ℕ)) (k : Kernel) (w : State Judging) → ComparesByRules names k w }
{}

/// And for the whole last stage of an event, in which these names are due, beside one that sweeps. Each has a run over a kernel
/// that stands still, and it is one of the kernel's runs.
pub fn stage_law()
    ensures alike { (names : List (List ℕ)) (k : Kernel) (d : DaemonState)
        → ComparesStages names k d }
    ensures there { (k : Kernel) (d : DaemonState) → IsKernel k
        → (e : DaemonState) × (l : Kernel) × RunsStill k (handling d) e l }
    ensures runs { (k : Kernel) (d e : DaemonState) (l : Kernel)
        → IsKernel k → RunsStill k (handling d) e l → Runs calls k (handling d) e l }
{}

/// Each program has a run over a kernel that stands still, and it is one of the kernel's runs.
pub fn still_law<A: Judge>()
    ensures there { (p : Prog (State A.Meaning)) (k : Kernel) → IsKernel k
        → (r : State A.Meaning) × (l : Kernel) × RunsStill k p r l }
    ensures runs { (p : Prog (State A.Meaning)) (k : Kernel) (r : State A.Meaning) (l : Kernel)
        → IsKernel k → RunsStill k p r l → Runs calls k p r l }
{}
