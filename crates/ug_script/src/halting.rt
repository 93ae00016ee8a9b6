// A kernel that halts with its machine.
ghost use Rattle.std.specs.Prelude.{◌≡◌};
ghost use Rattle.ug_script.specs.Replay.{halted};

use ug_core::Between;
use ug_store::MemDisk;
use ug_sysfs::SimKernel;

/// The kernel halts as soon as the machine has stopped in a call of the disk.
#[derive(Drop)]
pub struct Halting {}

impl Between<SimKernel, MemDisk> for Halting {
    ghost goes = { λ w o t. t ≡ halted o w };

    fn pass(&mut self, sysfs: &mut SimKernel, disk: &MemDisk) {
        if disk.stopped() {
            sysfs.halt();
        }
    }
}
