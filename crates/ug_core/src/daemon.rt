// The daemon's state.
ghost use Rattle.std.specs.Prelude.{◌≡◌, ◌≤◌, ◌+◌, ◌*◌, [], length};

use crate::policy::Policy;
use crate::report::Report;
use rand_core::Rng;
use ug_acl::Acl;
use ug_cond::Zone;
use ug_kernel::Write;
use ug_store::Store;
use ug_table::Table;
use ug_types::{List, NodeName};
use ug_uevent::Hints;

/// The policy, the standings, what is written to the default of each root hub, the store of the rule file, who may do what, what is kept of
/// the stream of uevents, and the report of the last event.
#[derive(Drop)]
pub struct Daemon<Z: Zone, R: Rng> {
    pub(crate) policy: Policy<Z, R>,
    pub(crate) table: Table,
    pub(crate) hub_default: Option<Write>,
    pub(crate) store: Store,
    pub(crate) acl: Acl,
    pub(crate) hints: Hints,
    // Within an event, the names whose devices alone it is to settle, where it doesn't sweep.
    pub(crate) due: Option<List<NodeName>>,
    pub(crate) next_event: u64,
    pub(crate) report: Report,
    ghost room: { 10 * length table.standings + 128 ≤ report.entries.room },
    ghost handed_out: { hints.messages ≡ [] },
}

impl<Z: Zone + Drop, R: Rng + Drop> Daemon<Z, R> {
    /// Drops it. A crate that calls this need not prove how its parts are dropped.
    pub fn discard(self) {
        self.policy.discard();
        self.table.discard();
        self.report.discard();
    }
}
