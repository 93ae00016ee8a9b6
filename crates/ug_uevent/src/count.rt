// How many messages a stream has.
ghost use Rattle.std.specs.Prelude.{◌+◌, ◌-◌, ◌≤◌, ◌<◌, ◌^◌, length, [], ◌∷◌};
ghost use Rattle.ug_uevent.specs.Streams.{Stream, stream_with_piece};
ghost use Rattle.ug_uevent.specs.Counts.{CountsStream};

const LAST: usize = 8191;

/// How far a stream was read: its messages, and what has begun.
#[derive(Clone, Copy)]
pub struct Progress {
    pub messages: usize,
    /// How many bytes stand behind the last message's end.
    pub length: usize,
    /// A string begins behind them.
    pub fresh: bool,
    pub ended: bool,
}

fn pass(progress: Progress, byte: u8) -> Progress
    requires { progress.messages < 2 ^ 64 - 1 }
    ensures counts { (s : Stream) → CountsStream progress s
        → CountsStream result (stream_with_piece s (byte ∷ [])) }
    ensures few { result.messages ≤ progress.messages + 1 }
{
    let mut next = progress;
    if progress.ended {
        return next;
    }
    if byte == 0 && progress.fresh {
        next.messages += 1;
        next.length = 0;
        return next;
    }
    if progress.length >= LAST {
        next.messages += 1;
        next.ended = true;
        return next;
    }
    next.length += 1;
    next.fresh = byte == 0;
    next
}

/// Reads on. Linear in the number of bytes.
pub fn pass_all(progress: Progress, bytes: &[u8]) -> Progress
    requires { progress.messages + length bytes.now < 2 ^ 64 }
    ensures counts { (s : Stream) → CountsStream progress s
        → CountsStream result (stream_with_piece s bytes.now) }
    ensures few { result.messages ≤ progress.messages + length bytes.now }
{
    let mut now = progress;
    for byte in bytes {
        now = pass(now, *byte);
    }
    now
}
