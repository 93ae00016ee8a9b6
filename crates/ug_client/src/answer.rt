// What the bytes of a link come to.
ghost use Rattle.std.specs.Prelude.{◌≡◌, ◌≤◌, ◌+◌, drop, length};
ghost use Rattle.ug_client.specs.Answers.{AnswersReply};
ghost use Rattle.ug_client.specs.Notices.{BeginsOtherwise, IsBehindNotices};

use crate::notice::{Front, front_of};
use std::alloc::Global;
use ug_proto::{Reply, ReplyFault, parse_reply};

/// The reply that stands behind the notices, and the place behind it; nothing while it is to come. In front of the bytes from
/// `at` on stand the notices.
fn read_reply(alloc: Global, text: &[u8], at: usize) -> Result<Option<(Reply, usize)>, ReplyFault>
    requires within { at ≤ length text.now }
    requires notices { IsBehindNotices text.now (drop at text.now) }
    requires other { BeginsOtherwise (drop at text.now) }
    ensures { AnswersReply text.now result }
{
    match parse_reply(alloc, &text[at..]) {
        Ok(Some((reply, n))) => Ok(Some((reply, at + n))),
        Ok(None) => Ok(None),
        Err(fault) => Err(fault),
    }
}

/// The same, where notices stand in front of the bytes from `at` on. Behind it `at` is the place behind all notices that stand whole.
pub fn read_behind(
    alloc: Global,
    text: &[u8],
    at: &mut usize,
) -> Result<Option<(Reply, usize)>, ReplyFault>
    requires within { at.old ≤ length text.now }
    requires notices { IsBehindNotices text.now (drop at.old text.now) }
    ensures within { at.new ≤ length text.now }
    ensures notices { IsBehindNotices text.now (drop at.new text.now) }
    ensures answers { AnswersReply text.now result }
{
    'notices: loop {
        match front_of(&text[*at..]) {
            Front::Notice(n) => *at += n,
            Front::Begun => return Ok(None),
            Front::Other => return read_reply(alloc, text, *at),
        }
    }
}

/// The reply that stands behind notices, and the place behind it; nothing while it is to come.
pub fn read_answer(alloc: Global, text: &[u8]) -> Result<Option<(Reply, usize)>, ReplyFault>
    ensures { AnswersReply text.now result }
{
    let mut at = 0;
    read_behind(alloc, text, &mut at)
}
