// Orders on the devices that a query matches.
ghost use Rattle.std.specs.Prelude.{◌≡◌, ◌≤◌, Some};
ghost use Rattle.ug_types.specs.Ends.{Rose};
ghost use Rattle.ug_client.specs.Ordering.{OrdersBehind, OrdersEach, OrdersMatching};
ghost use Rattle.ug_client.specs.declared.fetch.Fetched.TheVariants as fetched;
ghost use Rattle.ug_rows.specs.Rows as rows;

use crate::asked::Asked;
use crate::fetch::{Fetched, fetch_reply};
use crate::orders::{Wanted, give_orders};
use crate::write::write_answer;
use std::alloc::Global;
use ug_links::Link;
use ug_proto::{Reply, Request};
use ug_rows::matching_numbers;
use ug_types::{Query, Sink, Text};

fn order_each<L: Link, K: Sink>(
    alloc: Global,
    link: &mut L,
    path: &[u8],
    wanted: Wanted,
    numbers: &[u64],
    out: &mut K,
) -> Option<Asked>
    ensures orders { OrdersEach path.now wanted numbers.now
        (record {
          calls = L.told link.old;
          sent = L.sent link.old;
          left = L.left link.old;
          held = K.held out.old;
        })
        (record {
          calls = L.told link.new;
          sent = L.sent link.new;
          left = L.left link.new;
          held = K.held out.new;
        }) result }
    ensures link { result ≡ Some Asked.LinkFailed → Rose (L.faults link.old) (L.faults link.new) }
    ensures sink { result ≡ Some Asked.WriteFault → Rose (K.faults out.old) (K.faults out.new) }
    ensures links { L.faults link.old ≤ L.faults link.new }
    ensures sinks { K.faults out.old ≤ K.faults out.new }
{
    if numbers.is_empty() {
        return None;
    }
    Some(give_orders(alloc, link, path, wanted, numbers, out))
}

fn order_rows<L: Link, K: Sink>(
    alloc: Global,
    link: &mut L,
    path: &[u8],
    query: &Query,
    wanted: Wanted,
    list: &[Text],
    out: &mut K,
) -> Option<Asked>
    ensures orders { OrdersEach path.now wanted (rows.matching_numbers query.now list.now)
        (record {
          calls = L.told link.old;
          sent = L.sent link.old;
          left = L.left link.old;
          held = K.held out.old;
        })
        (record {
          calls = L.told link.new;
          sent = L.sent link.new;
          left = L.left link.new;
          held = K.held out.new;
        }) result }
    ensures link { result ≡ Some Asked.LinkFailed → Rose (L.faults link.old) (L.faults link.new) }
    ensures sink { result ≡ Some Asked.WriteFault → Rose (K.faults out.old) (K.faults out.new) }
    ensures links { L.faults link.old ≤ L.faults link.new }
    ensures sinks { K.faults out.old ≤ K.faults out.new }
{
    match matching_numbers(alloc, query, list) {
        Ok(numbers) => order_each(alloc, link, path, wanted, &numbers, out),
        Err(_) => Some(Asked::Memory),
    }
}

// What follows a list that was fetched.
fn order_listed<L: Link, K: Sink>(
    alloc: Global,
    link: &mut L,
    path: &[u8],
    query: &Query,
    wanted: Wanted,
    reply: &Reply,
    out: &mut K,
) -> Option<Asked>
    ensures orders { OrdersBehind path.now query.now wanted (fetched.Replied reply.now)
        (record {
          calls = L.told link.old;
          sent = L.sent link.old;
          left = L.left link.old;
          held = K.held out.old;
        })
        (record {
          calls = L.told link.new;
          sent = L.sent link.new;
          left = L.left link.new;
          held = K.held out.new;
        }) result }
    ensures link { result ≡ Some Asked.LinkFailed → Rose (L.faults link.old) (L.faults link.new) }
    ensures sink { result ≡ Some Asked.WriteFault → Rose (K.faults out.old) (K.faults out.new) }
    ensures links { L.faults link.old ≤ L.faults link.new }
    ensures sinks { K.faults out.old ≤ K.faults out.new }
{
    match reply {
        Reply::Lines(list) => order_rows(alloc, link, path, query, wanted, list.as_slice(), out),
        Reply::Refused(_) => Some(write_answer(alloc, out, reply)),
    }
}

/// Asks for the devices once, and gives one order on each that the query matches, in the list's order, with a line of each:
/// its number, and what came of the order. None where no device matches.
pub fn order_matching<L: Link, K: Sink>(
    alloc: Global,
    link: &mut L,
    path: &[u8],
    query: &Query,
    wanted: Wanted,
    out: &mut K,
) -> Option<Asked>
    ensures orders { OrdersMatching path.now query.now wanted
        (record {
          calls = L.told link.old;
          sent = L.sent link.old;
          left = L.left link.old;
          held = K.held out.old;
        })
        (record {
          calls = L.told link.new;
          sent = L.sent link.new;
          left = L.left link.new;
          held = K.held out.new;
        }) result }
    ensures link { result ≡ Some Asked.LinkFailed → Rose (L.faults link.old) (L.faults link.new) }
    ensures sink { result ≡ Some Asked.WriteFault → Rose (K.faults out.old) (K.faults out.new) }
    ensures counted { K.faults out.old ≤ K.faults out.new }
{
    match fetch_reply(alloc, link, path, &Request::ListDevices) {
        Fetched::Replied(reply) => order_listed(alloc, link, path, query, wanted, &reply, out),
        Fetched::NoReply => Some(Asked::NoReply),
        Fetched::LinkFailed => Some(Asked::LinkFailed),
        Fetched::Memory => Some(Asked::Memory),
    }
}
