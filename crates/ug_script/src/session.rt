// A daemon over a disk in memory.
ghost use Rattle.ug_core.specs.Event.{daemon_of};
ghost use Rattle.ug_script.specs.RuleFiles.{HasFolder, StaysReadable};

use rand_chacha::ChaCha20Rng;
use ug_cond::FixedZone;
use ug_core::Daemon;
use ug_store::MemDisk;

/// A daemon, how many rules of its folder stand before its rule file's, and the disk of that. Whatever a stop leaves of it, a new daemon
/// starts with it.
#[derive(Drop)]
pub struct Session {
    pub daemon: Daemon<FixedZone, ChaCha20Rng>,
    pub before: usize,
    pub disk: MemDisk,
    ghost file: { StaysReadable before disk },
    ghost folder: { HasFolder before (daemon_of daemon) },
}

impl Session {
    /// Drops it, as `Daemon::discard`.
    pub fn discard(self) {
        self.daemon.discard();
        self.disk.discard();
    }
}
