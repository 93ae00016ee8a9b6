// How far the bytes of a link were read, so that a new piece doesn't have all of them read again.
ghost use Rattle.std.specs.Prelude.{◌≡◌, ◌≤◌, ◌++◌, ◌∷◌, take, length, Ok, None};
ghost use Rattle.ug_client.specs.Answers.{AnswersReply};
ghost use Rattle.ug_client.specs.ReadSoFar.{AwaitsLines, IsReadSoFar, newlines};

use crate::answer::read_behind;
use crate::notice::line_length;
use std::alloc::Global;
use ug_lines::parse_decimal;
use ug_proto::{Reply, ReplyFault};

/// How far bytes in which no reply stands whole were read.
#[derive(Clone, Copy)]
pub struct SoFar {
    /// The place behind the notices that stand whole.
    pub at: usize,
    /// So many lines have to end at least before a reply stands whole.
    pub missing: u64,
}

/// How many lines end among the bytes.
fn count_newlines(bytes: &[u8]) -> u64
    ensures { result ≡ newlines bytes.now }
{
    let mut count = 0;
    for byte in bytes {
        if *byte == b'\n' {
            count += 1;
        }
    }
    count
}

/// How many lines are missing at least behind the first line of a reply and what stands behind it.
fn missing_behind(line: &[u8], behind: &[u8]) -> u64
    ensures { AwaitsLines (line.now ++ 10 ∷ behind.now) result }
{
    if !line.starts_with(b"ok ") {
        return 0;
    }
    match parse_decimal(&line[3..]) {
        Some(count) => count.saturating_sub(count_newlines(behind)),
        None => 0,
    }
}

/// How many lines have to end at least before a reply stands whole in front, notices skipped.
fn missing_lines(text: &[u8]) -> u64
    ensures { AwaitsLines text.now result }
{
    match line_length(text) {
        Some(n) => missing_behind(&text[..n], &text[n + 1..]),
        None => { if text.starts_with(b"! ") { 1 } else { 0 } }
    }
}

/// The reply that stands behind notices, and the place behind it; nothing while it is to come. The bytes before `from` were read so far
/// already. Together, reading on piece by piece takes time linear in the bytes.
pub fn read_on(
    alloc: Global,
    text: &[u8],
    from: usize,
    so_far: &mut SoFar,
) -> Result<Option<(Reply, usize)>, ReplyFault>
    requires within { from ≤ length text.now }
    requires so_far { IsReadSoFar (take from text.now) so_far.old }
    ensures so_far { result ≡ Ok None → IsReadSoFar text.now so_far.new }
    ensures answers { AnswersReply text.now result }
{
    let ended = count_newlines(&text[from..]);
    if ended < so_far.missing {
        so_far.missing -= ended;
        return Ok(None);
    }
    match read_behind(alloc, text, &mut so_far.at) {
        Ok(None) => {
            so_far.missing = missing_lines(&text[so_far.at..]);
            Ok(None)
        }
        other => other,
    }
}
