// Sockets in memory.
ghost use Rattle.std.specs.Prelude.{◌≡◌, [], false};
ghost use Rattle.ug_links.specs.Kept.{IsNumberedUnless};
ghost use Rattle.ug_links.specs.Planned.{unopened};

use crate::script::Script;
use crate::scripts::{Arrival, ListenItem, Scripts};
use crate::step::LinkStep;
use std::alloc::Global;
use ug_types::List;

/// Listeners and sessions that go by scripts, and the calls made. Where memory is short for what is kept, it has run out:
/// from then on each call but `close` fails, and no calls are told.
#[derive(Drop)]
pub struct MemLinks {
    pub(crate) alloc: Global,
    pub(crate) scripts: Scripts,
    pub(crate) calls: List<LinkStep>,
    pub(crate) ran_out: bool,
    pub(crate) faults: u64,
    ghost numbered: { IsNumberedUnless ran_out scripts calls },
}

impl MemLinks {
    /// Links that go by these scripts, the first for listening, the others for the listeners by their numbers. It takes
    /// no memory.
    pub fn new(
        alloc: Global,
        listens: Script<ListenItem>,
        arrivals: Vec<Script<Arrival>>,
    ) -> MemLinks
        ensures scripts { result.scripts ≡ unopened listens arrivals.items }
        ensures calls { result.calls ≡ [] }
        ensures ran_out { result.ran_out ≡ false }
        ensures faults { result.faults ≡ 0 }
    {
        MemLinks {
            alloc,
            scripts: Scripts::new(alloc, listens, arrivals),
            calls: List::new(alloc),
            ran_out: false,
            faults: 0,
        }
    }

    /// The calls so far, in order. They are all of them where it hasn't run out.
    pub fn calls(&self) -> &[LinkStep]
        ensures { result.now ≡ self.now.calls }
    {
        self.calls.as_slice()
    }

    /// Whether memory was short for what is kept.
    pub fn ran_out(&self) -> bool
        ensures { result ≡ self.now.ran_out }
    {
        self.ran_out
    }
}
