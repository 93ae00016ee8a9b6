// The end of the first message of a stream.
ghost use Rattle.std.specs.Prelude.{◌≡◌, length};
ghost use Rattle.ug_uevent.specs.Streams.{FindsEnd};

/// The last place that a message's end may have.
const LAST: usize = 8191;

/// What the beginning of a stream is.
pub enum Beginning {
    /// A message of so many bytes, without the zero byte that closes it.
    Message(usize),
    /// 8,192 bytes stand without an end.
    TooLong,
    /// More is to come.
    Open,
}

/// Finds the end of the first message: a zero byte at the start, or behind another. Linear in the
/// number of bytes, and looks at no more than 8,192.
pub fn find_end(bytes: &[u8]) -> Beginning
    ensures { FindsEnd bytes.now result }
{
    let mut fresh = true;
    for (i, byte) in bytes.iter().enumerate() {
        if *byte == 0 && fresh {
            return Beginning::Message(i);
        }
        if i == LAST {
            return Beginning::TooLong;
        }
        fresh = *byte == 0;
    }
    Beginning::Open
}
