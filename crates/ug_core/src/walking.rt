// The daemon's standings, one after the other.
ghost use Rattle.std.specs.Prelude.{option_copied};
ghost use Rattle.ug_core.specs.Event.{daemon_of};
ghost use Rattle.ug_table.specs.Order.{IsNextNumbered, StandInOrder};

use crate::daemon::Daemon;
use rand_core::Rng;
use ug_cond::Zone;
use ug_table::Standing;

impl<Z: Zone, R: Rng> Daemon<Z, R> {
    /// The standing with the least number above that one. From 0 on, it leads to each standing in the order of their numbers.
    pub fn standing_after(&self, number: u64) -> Option<&Standing>
        ensures next { IsNextNumbered (daemon_of self.now).sweep.standings number
            (option_copied result) }
        ensures standings { StandInOrder (daemon_of self.now).sweep.next
            (daemon_of self.now).sweep.standings }
    {
        let _next = self.table.next_number();
        self.table.standing_after(number)
    }
}
