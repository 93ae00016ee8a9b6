// Notices from a link.
ghost use Rattle.std.specs.Prelude.{◌≡◌, ◌≢◌, ◌≤◌, Some};
ghost use Rattle.std.specs.Io.KnownBytes.{Keeps};
ghost use Rattle.ug_types.specs.Ends.{Rose};
ghost use Rattle.ug_client.specs.Watching.{KeepsShown, WatchesOn};

use crate::asked::Asked;
use crate::lines::show_notices;
use std::alloc::Global;
use ug_links::Link;
use ug_types::{Sink, Taken};

/// Prints the notices that stand whole, and keeps what stands behind them; or tells how that ended.
fn show_kept<K: Sink>(
    alloc: Global,
    out: &mut K,
    kept: &mut Vec<u8>,
    room: &mut u64,
) -> Option<Asked>
    ensures shows { KeepsShown kept.old.items room.old (K.held out.old)
        kept.new.items room.new (K.held out.new) result }
    ensures no_link { result ≢ Some Asked.LinkFailed }
    ensures counted { K.faults out.old ≤ K.faults out.new }
    ensures cause { result ≡ Some Asked.WriteFault → Rose (K.faults out.old) (K.faults out.new) }
{
    let shown = show_notices(out, kept, *room);
    match shown.ended {
        Some(ended) => return Some(ended),
        None => {}
    }
    match Vec::from_slice(alloc, &kept[shown.at..]) {
        Ok(rest) => {
            *kept = rest;
            *room = shown.room;
            None
        }
        Err(_) => Some(Asked::Memory),
    }
}

/// Prints the notices that stand whole and those that come, but no more than so many.
fn watch_notices<L: Link, K: Sink>(
    alloc: Global,
    link: &mut L,
    out: &mut K,
    kept: &mut Vec<u8>,
    most: u64,
) -> Asked
    ensures watches { WatchesOn kept.old.items (L.told link.old) (L.told link.new)
        (L.left link.old) (L.left link.new)
        most (K.held out.old) (K.held out.new) result }
    ensures sent { Keeps (L.sent link.old) (L.sent link.new) }
    ensures link { result ≡ Asked.LinkFailed → Rose (L.faults link.old) (L.faults link.new) }
    ensures sink { result ≡ Asked.WriteFault → Rose (K.faults out.old) (K.faults out.new) }
    ensures links { L.faults link.old ≤ L.faults link.new }
    ensures sinks { K.faults out.old ≤ K.faults out.new }
{
    let mut room = most;
    match show_kept(alloc, out, kept, &mut room) {
        Some(ended) => return ended,
        None => {}
    }
    let mut piece = [0u8; 4096];
    'pieces: loop {
        match link.receive(&mut piece) {
            Taken::Bytes(n) => {
                if kept.extend_from_slice(&piece[..n]).is_err() {
                    return Asked::Memory;
                }
                match show_kept(alloc, out, kept, &mut room) {
                    Some(ended) => return ended,
                    None => {}
                }
            }
            Taken::End => return Asked::Done,
            Taken::Failed => return Asked::LinkFailed,
        }
    }
}

/// The same where these bytes came already.
pub fn watch_behind<L: Link, K: Sink>(
    alloc: Global,
    link: &mut L,
    out: &mut K,
    bytes: &[u8],
    most: u64,
) -> Asked
    ensures watches { WatchesOn bytes.now (L.told link.old) (L.told link.new)
        (L.left link.old) (L.left link.new)
        most (K.held out.old) (K.held out.new) result }
    ensures sent { Keeps (L.sent link.old) (L.sent link.new) }
    ensures link { result ≡ Asked.LinkFailed → Rose (L.faults link.old) (L.faults link.new) }
    ensures sink { result ≡ Asked.WriteFault → Rose (K.faults out.old) (K.faults out.new) }
    ensures links { L.faults link.old ≤ L.faults link.new }
    ensures sinks { K.faults out.old ≤ K.faults out.new }
{
    match Vec::from_slice(alloc, bytes) {
        Ok(mut kept) => watch_notices(alloc, link, out, &mut kept, most),
        Err(_) => Asked::Memory,
    }
}
