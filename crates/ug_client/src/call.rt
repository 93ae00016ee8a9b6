// Requests and their replies, and notices behind one.
ghost use Rattle.std.specs.Prelude.{◌≡◌, ◌≤◌};
ghost use Rattle.ug_proto.specs.declared.request.Request.TheVariants as request;
ghost use Rattle.ug_client.specs.Watching.{Watches};
ghost use Rattle.ug_types.specs.Ends.{Rose};
ghost use Rattle.ug_client.specs.Asking.{request_line, AsksDaemon};

use crate::asked::Asked;
use crate::receive::{Awaited, await_reply};
use crate::send::{Sent, send_request};
use crate::stream::watch_behind;
use crate::write::write_answer;
use std::alloc::Global;
use ug_links::Link;
use ug_proto::Request;
use ug_types::Sink;

/// Connects to the socket of that path, sends the request, and prints its reply. Notices before the reply are skipped. It
/// reads no further once the reply is whole, and gives up at 67,108,864 bytes. It writes no fault line.
pub fn ask<L: Link, K: Sink>(
    alloc: Global,
    link: &mut L,
    path: &[u8],
    request: &Request,
    out: &mut K,
) -> Asked
    ensures asks { AsksDaemon path.now (request_line request.now) (L.told link.old)
        (L.told link.new)
        (L.sent link.old) (L.sent link.new)
        (L.left link.old) (L.left link.new) (K.held out.old) (K.held out.new) result }
    ensures link { result ≡ Asked.LinkFailed → Rose (L.faults link.old) (L.faults link.new) }
    ensures sink { result ≡ Asked.WriteFault → Rose (K.faults out.old) (K.faults out.new) }
    ensures counted { K.faults out.old ≤ K.faults out.new }
{
    match send_request(alloc, link, path, request) {
        Sent::Done => {}
        Sent::Failed => return Asked::LinkFailed,
        Sent::Memory => return Asked::Memory,
    }
    let mut kept = Vec::new(alloc);
    match await_reply(alloc, link, &mut kept) {
        Awaited::Replied(reply, _place) => write_answer(alloc, out, &reply),
        Awaited::NoReply => Asked::NoReply,
        Awaited::LinkFailed => Asked::LinkFailed,
        Awaited::Memory => Asked::Memory,
    }
}

/// Asks for notices and prints each as it came, up to that many (usbguard(1) wants 1 to 1,000,000) or to the link's end. It
/// writes no fault line.
pub fn watch<L: Link, K: Sink>(
    alloc: Global,
    link: &mut L,
    path: &[u8],
    most: u64,
    out: &mut K,
) -> Asked
    ensures watches { Watches path.now (request_line request.Watch) most
        (L.told link.old) (L.told link.new) (L.sent link.old) (L.sent link.new)
        (L.left link.old) (L.left link.new) (K.held out.old) (K.held out.new) result }
    ensures link { result ≡ Asked.LinkFailed → Rose (L.faults link.old) (L.faults link.new) }
    ensures sink { result ≡ Asked.WriteFault → Rose (K.faults out.old) (K.faults out.new) }
    ensures counted { K.faults out.old ≤ K.faults out.new }
{
    match send_request(alloc, link, path, &Request::Watch) {
        Sent::Done => {}
        Sent::Failed => return Asked::LinkFailed,
        Sent::Memory => return Asked::Memory,
    }
    let mut kept = Vec::new(alloc);
    match await_reply(alloc, link, &mut kept) {
        Awaited::Replied(reply, place) => match write_answer(alloc, out, &reply) {
            Asked::Done => watch_behind(alloc, link, out, &kept[place..], most),
            other => other,
        },
        Awaited::NoReply => Asked::NoReply,
        Awaited::LinkFailed => Asked::LinkFailed,
        Awaited::Memory => Asked::Memory,
    }
}
