// The bytes of a link, up to a whole reply.
ghost use Rattle.std.specs.Prelude.{◌≡◌, ◌≤◌, []};
ghost use Rattle.std.specs.Io.KnownBytes.{Keeps};
ghost use Rattle.ug_types.specs.Ends.{Rose};
ghost use Rattle.ug_client.specs.Awaiting.{Awaits};

use crate::so_far::{SoFar, read_on};
use std::alloc::Global;
use ug_links::Link;
use ug_proto::{Reply, ReplyFault};
use ug_types::{TEXT_LIMIT, Taken};

/// What came of a link.
#[derive(Drop)]
pub enum Awaited {
    /// A reply, and the place behind it.
    Replied(Reply, usize),
    NoReply,
    LinkFailed,
    Memory,
}

/// Takes bytes of the link until a reply is whole, and keeps them.
pub fn await_reply<L: Link>(alloc: Global, link: &mut L, kept: &mut Vec<u8>) -> Awaited
    requires { kept.old.items ≡ [] }
    ensures awaits { Awaits (L.told link.old) (L.told link.new)
        (L.left link.old) (L.left link.new) kept.new.items result }
    ensures sent { Keeps (L.sent link.old) (L.sent link.new) }
    ensures counted { L.faults link.old ≤ L.faults link.new }
    ensures cause { result ≡ Awaited.LinkFailed → Rose (L.faults link.old) (L.faults link.new) }
{
    let mut piece = [0u8; 65536];
    let mut so_far = SoFar { at: 0, missing: 0 };
    'pieces: loop {
        let from = kept.len();
        let room = piece.len().min(TEXT_LIMIT - from);
        if room == 0 {
            return Awaited::NoReply;
        }
        match link.receive(&mut piece[..room]) {
            Taken::Bytes(n) => {
                if kept.extend_from_slice(&piece[..n]).is_err() {
                    return Awaited::Memory;
                }
                match read_on(alloc, kept, from, &mut so_far) {
                    Ok(Some((reply, place))) => return Awaited::Replied(reply, place),
                    Ok(None) => {}
                    Err(ReplyFault::BadReply) => return Awaited::NoReply,
                    Err(ReplyFault::Memory) => return Awaited::Memory,
                }
            }
            Taken::End => return Awaited::NoReply,
            Taken::Failed => return Awaited::LinkFailed,
        }
    }
}
