// What gives verdicts.
ghost use Rattle.std.specs.Prelude.{◌≡◌, Bool, List};
ghost use Rattle.ug_types.specs.declared.record.Judged.{Judged};
ghost use Rattle.ug_types.specs.declared.verdict.Target.{Target};
ghost use Rattle.ug_types.specs.declared.verdict.Cause.{Cause};
ghost use Rattle.ug_table.specs.declared.standing.Standing.{Standing};

use crate::table::Table;
use ug_types::{Cause, Judged, Query, Target};

/// Gives verdicts, and may change as it does.
pub trait Judge {
    /// What it judges by.
    ghost Meaning: { Type 0 };

    ghost meaning: { Self → Meaning };

    /// The verdict on a device that is or isn't a root hub, was or wasn't present at the start, and is on or off,
    /// beside the standings of the other devices.
    ghost answer: { Meaning → Judged → Bool → Bool → Bool → List Standing → Target × Cause };

    /// What it judges by after that.
    ghost later: { Meaning → Judged → Bool → Bool → Bool → List Standing → Meaning };

    fn verdict(
        &mut self,
        dev: &Judged,
        controller: bool,
        present: bool,
        on: bool,
        allowed: &Table,
    ) -> (Target, Cause)
        ensures answer { result
            ≡ answer (meaning self.old) dev.now controller present on allowed.now.standings }
        ensures later { meaning self.new
            ≡ later (meaning self.old) dev.now controller present on allowed.now.standings };

    /// The query about allowed devices that is asked most, if any. A sweep has its answer at hand.
    fn asked(&self) -> Option<&Query> {
        None
    }
}
