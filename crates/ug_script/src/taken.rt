// What a line came to.
ghost use Rattle.std.specs.Prelude.{◌≡◌};
ghost use Rattle.ug_script.specs.Taking.{silent};

use ug_command_io::Ran;

/// What a line came to, and which text there is to write of it.
#[derive(Drop)]
pub enum Taken {
    /// None.
    Silent,
    /// The one that the daemon's report of its last event has, and behind it this one.
    Event(Vec<u8>),
    /// This one.
    Text(Vec<u8>),
    Bad,
    TooLong,
    Memory,
}

/// Of a line of which nothing is written.
pub fn silently(ran: Ran) -> Taken
    ensures { result ≡ silent ran }
{
    match ran {
        Ran::Done => Taken::Silent,
        Ran::Bad => Taken::Bad,
        Ran::TooLong => Taken::TooLong,
        // Nothing is written, so no sink fails.
        Ran::SinkFailed | Ran::Memory => Taken::Memory,
    }
}
