// What follows for any links.
ghost use Rattle.std.specs.Prelude.{◌≡◌, List, Option, Some};
ghost use Rattle.ug_links.specs.Talk.{Talk, Talks, Path, TellsSteps};
ghost use Rattle.ug_links.specs.declared.step.LinkStep.{LinkStep};

use crate::links::Links;

/// Where links tell their calls after a run of a tree, they told them before it, and what they tell since is a path through
/// that tree, call by call.
pub fn what_links_tell<N: Links, R>()
    ensures { (s : N) (tree : Talk R) (r : R) (t : N) (after : List LinkStep)
        → Talks N.gives s tree r t → N.told t ≡ Some after
        → (steps : List LinkStep) × Path tree steps r × TellsSteps (N.told s) steps after }
{}
