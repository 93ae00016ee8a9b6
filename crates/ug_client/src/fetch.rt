// A reply that is fetched, before anything is printed of it.
ghost use Rattle.std.specs.Prelude.{◌≡◌, ◌≤◌};
ghost use Rattle.ug_types.specs.Ends.{Rose};
ghost use Rattle.ug_client.specs.Asking.{request_line};
ghost use Rattle.ug_client.specs.Fetching.{FetchesReply};

use crate::receive::{Awaited, await_reply};
use crate::send::{Sent, send_request};
use std::alloc::Global;
use ug_links::Link;
use ug_proto::{Reply, Request};

/// What came of a request.
#[derive(Drop)]
pub enum Fetched {
    Replied(Reply),
    NoReply,
    LinkFailed,
    Memory,
}

/// Connects to the socket of that path, sends the request, and takes its reply, as `ask` does.
pub fn fetch_reply<L: Link>(alloc: Global, link: &mut L, path: &[u8], request: &Request) -> Fetched
    ensures fetches { FetchesReply path.now (request_line request.now) (L.told link.old)
        (L.told link.new)
        (L.sent link.old) (L.sent link.new)
        (L.left link.old) (L.left link.new) result }
    ensures counted { L.faults link.old ≤ L.faults link.new }
    ensures cause { result ≡ Fetched.LinkFailed → Rose (L.faults link.old) (L.faults link.new) }
{
    match send_request(alloc, link, path, request) {
        Sent::Done => {}
        Sent::Failed => return Fetched::LinkFailed,
        Sent::Memory => return Fetched::Memory,
    }
    let mut kept = Vec::new(alloc);
    match await_reply(alloc, link, &mut kept) {
        Awaited::Replied(reply, _place) => Fetched::Replied(reply),
        Awaited::NoReply => Fetched::NoReply,
        Awaited::LinkFailed => Fetched::LinkFailed,
        Awaited::Memory => Fetched::Memory,
    }
}
