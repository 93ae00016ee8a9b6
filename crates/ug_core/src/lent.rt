// An event whose texts are lent.
ghost use Rattle.std.specs.Prelude.{◌≡◌, false};
ghost use Rattle.ug_core.specs.Lent.{event_lent};
ghost use Rattle.ug_core.specs.Event.{first_entry, moment_of};
ghost use Rattle.ug_audit.specs.Noting.{tells_drop};

use ug_audit::Entry;
use ug_types::{Event, Moment, Principal};

/// What the daemon is to do, as in `Event`.
#[derive(Drop)]
pub enum LentEvent<'a> {
    Sweep(Moment),
    Order(Moment, &'a Principal, &'a [u8]),
    Hint(Moment, &'a [u8]),
}

/// The event with its texts lent.
pub fn lend(event: &Event) -> LentEvent<'_>
    ensures { event_lent result ≡ event.now }
{
    match event {
        Event::Sweep(moment) => LentEvent::Sweep(*moment),
        Event::Order(moment, who, line) => LentEvent::Order(*moment, who, line.bytes()),
        Event::Hint(moment, piece) => LentEvent::Hint(*moment, piece.bytes()),
    }
}

impl<'a> LentEvent<'a> {
    pub fn moment(&self) -> Moment
        ensures { result ≡ moment_of (event_lent self.now) }
    {
        match self {
            LentEvent::Sweep(moment) => *moment,
            LentEvent::Order(moment, _, _) => *moment,
            LentEvent::Hint(moment, _) => *moment,
        }
    }

    pub fn first_entry(&self, number: u64) -> Entry
        ensures entry { result ≡ first_entry number (event_lent self.now) }
        ensures kind { tells_drop result ≡ false }
    {
        match self {
            LentEvent::Sweep(moment) => Entry::Event {
                number,
                moment: *moment,
            },
            LentEvent::Order(moment, who, _) => Entry::Order {
                number,
                moment: *moment,
                who: **who,
            },
            LentEvent::Hint(moment, _) => Entry::Hint {
                number,
                moment: *moment,
            },
        }
    }
}
