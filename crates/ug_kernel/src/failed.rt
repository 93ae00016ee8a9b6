// Tells a failed call by its numbers.
ghost use Rattle.std.specs.Prelude.{◌≡◌};

use crate::calls::FailedCall;
use crate::sysfs::Sysfs;

/// Tells the last call as one that failed. Closing a file in between changes nothing, since it isn't counted.
pub fn failed_call<Y: Sysfs>(sysfs: &Y) -> FailedCall
    ensures { result ≡ record { call = Y.calls sysfs.now; count = Y.faults sysfs.now } }
{
    FailedCall {
        call: sysfs.calls(),
        count: sysfs.faults(),
    }
}
