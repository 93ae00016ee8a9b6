// Calls on a file that is held.
ghost use Rattle.ug_kernel.specs.Calls.{Ask_alive, Put};

use crate::calls::{Probe, Wrote};
use crate::control::{Held, Write};
use crate::sysfs::Sysfs;

/// Asks again whether the device of a held file is there, and whether it is on.
pub fn reprobe<Y: Sysfs>(sysfs: &mut Y, held: Held) -> Probe
    ensures { Y.gives sysfs.old (Ask_alive held.0)
        (record {
          answer = result;
          number = Y.calls sysfs.new;
          count = Y.faults sysfs.new;
        }) sysfs.new }
{
    sysfs.probe(held)
}

/// Writes through a held file. A write that fails may have had its effect.
pub fn put<Y: Sysfs>(sysfs: &mut Y, held: Held, what: Write) -> Wrote
    ensures { Y.gives sysfs.old (Put held.0 what)
        (record {
          answer = result;
          number = Y.calls sysfs.new;
          count = Y.faults sysfs.new;
        }) sysfs.new }
{
    sysfs.write(held, what)
}
