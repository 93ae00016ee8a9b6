// Writing that never waits.
ghost use Rattle.std.specs.Prelude.{◌≤◌, length};

use libc::net::{POLLOUT, poll};
use libc::types::pollfd;

/// The most bytes of one write. A pipe or a socket that has room at all takes so many without
/// waiting: pipe(7), unix(7).
const PIECE: usize = 4096;

/// Whether a write of a piece would neither wait nor find that nobody reads any more, which can end
/// the process: signal(7), SIGPIPE. That is awaited for so many milliseconds, or without an end
/// where they are below 0.
fn has_room(output: i32, wait: i32) -> bool {
    let mut asked = [pollfd {
        fd: output,
        events: POLLOUT,
        revents: 0,
    }];
    poll(&mut asked, wait) > 0 && asked[0].revents == POLLOUT
}

/// Writes a front of the bytes to an open descriptor, as much as it takes once it has room, and
/// tells how much that was: nothing where it has none within so many milliseconds, which have no
/// end where they are below 0, or where the write fails.
pub fn put_in_time(output: i32, bytes: &[u8], wait: i32) -> usize
    ensures { result ≤ length bytes.now }
{
    if bytes.is_empty() || !has_room(output, wait) {
        return 0;
    }
    let piece = &bytes[..bytes.len().min(PIECE)];
    let written = libc::write(output, piece);
    if written < 0 {
        0
    } else {
        (written as usize).min(bytes.len())
    }
}

/// The same at once.
pub fn put_at_once(output: i32, bytes: &[u8]) -> usize
    ensures { result ≤ length bytes.now }
{
    put_in_time(output, bytes, 0)
}
