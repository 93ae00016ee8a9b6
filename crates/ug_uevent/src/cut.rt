// A text about a byte of one kind.
ghost use Rattle.std.specs.Prelude.{◌≡◌, ◌+◌, ◌≤◌, ◌<◌, length, take, drop};
ghost use Rattle.ug_uevent.specs.Cuts as cuts;

/// How many bytes stand before the first such byte; all, where there is none.
pub fn length_before(text: &[u8], sign: u8) -> usize
    ensures is { result ≡ cuts.length_before sign text.now }
    ensures within { result ≤ length text.now }
{
    for (i, byte) in text.iter().enumerate() {
        if *byte == sign {
            return i;
        }
    }
    text.len()
}

/// The first string of a message, and what stands behind its zero byte. The last string may lack
/// that byte.
pub fn next_string(message: &[u8]) -> (&[u8], &[u8])
    ensures first { result.0.now ≡ take (cuts.length_before 0 message.now) message.now }
    ensures rest { result.1.now ≡ drop (cuts.length_before 0 message.now + 1) message.now }
{
    let length = length_before(message, 0);
    if length < message.len() {
        (&message[..length], &message[length + 1..])
    } else {
        (message, &message[message.len()..])
    }
}
