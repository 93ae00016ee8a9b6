// What is done between the stages of an event.
ghost use Rattle.std.specs.Prelude.{◌≡◌};

use ug_kernel::Sysfs;
use ug_store::RuleDisk;

/// Something that is done to the kernel's object behind each stage of an event that is on the disk.
pub trait Between<Y: Sysfs, D: RuleDisk> {
    /// What it comes to, by what became of the disk.
    ghost goes: { Y → D → Y → Type 0 };

    /// Does it. It is no call of the kernel.
    fn pass(&mut self, sysfs: &mut Y, disk: &D)
        ensures goes { goes sysfs.old disk.now sysfs.new }
        ensures calls { Y.calls sysfs.new ≡ Y.calls sysfs.old };
}
