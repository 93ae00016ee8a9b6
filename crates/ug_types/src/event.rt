// What a daemon is asked to do.
use crate::principal::Principal;
use crate::text::Text;
use crate::verdict::Moment;

/// What the daemon is to do.
#[derive(Drop)]
pub enum Event {
    /// All devices are listed, and each is settled.
    Sweep(Moment),
    /// A line of a user or a group is answered, which may be any text: usbguard(1). Then all devices are listed and settled.
    Order(Moment, Principal, Text),
    /// A piece of recorded uevents, of at most 1,048,576 bytes, is read. Then the devices are settled that its messages name.
    Hint(Moment, Text),
}

impl Event {
    /// Drops it, as `Attrs::discard`.
    pub fn discard(self) {}
}
