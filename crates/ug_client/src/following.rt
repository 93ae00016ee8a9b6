// Requests that follow others.
ghost use Rattle.std.specs.Prelude.{◌≡◌, ◌≤◌, IfOk, List, ℕ};
ghost use Rattle.ug_proto.specs.Replies.{ended_lines};
ghost use Rattle.ug_proto.specs.declared.request.Request.TheVariants as request;
ghost use Rattle.ug_rows.specs.Contrary.{contrary_lines};
ghost use Rattle.ug_types.specs.Ends.{Rose};
ghost use Rattle.ug_client.specs.Asking.{request_line};
ghost use Rattle.ug_client.specs.Fetching.{AsksShowing, WritesText};
ghost use Rattle.ug_client.specs.Following as following;
ghost use Rattle.ug_client.specs.Following.{AsksTwice, AsksBehind};
ghost use Rattle.ug_client.specs.declared.fetch.Fetched.TheVariants as fetched;

use crate::asked::Asked;
use crate::fetch::{Fetched, fetch_reply};
use crate::rules::print_with_devices;
use crate::write::{print_answer, put_lines, write_answer, write_text};
use std::alloc::Global;
use ug_links::Link;
use ug_proto::{Reply, Request};
use ug_rows::contrary_lines;
use ug_types::{NoMemory, Sink, Target, Text};

/// What is printed of two replies.
#[derive(Clone, Copy)]
pub enum Told<'a> {
    /// The rules with that label, or all, and behind each the devices that it applies to.
    Devices(&'a Option<Text>),
    /// What a setting was, and that value.
    Change(&'a Text),
    /// The rules that decide for the device of that number before a rule with that target does, and the device's own row.
    Contrary(Target, u64),
}

fn print_contrary(
    alloc: Global,
    target: Target,
    number: u64,
    rules: &[Text],
    devices: &[Text],
) -> Result<Vec<u8>, NoMemory>
    ensures { IfOk result (λ text. text.items
        ≡ ended_lines (contrary_lines target number rules.now devices.now)) }
{
    let lines = contrary_lines(alloc, target, number, rules, devices)?;
    let mut out = Vec::new(alloc);
    put_lines(&mut out, &lines)?;
    Ok(out)
}

fn front_line(lines: &[Text]) -> &[u8]
    ensures { result.now ≡ following.front_line lines.now }
{
    match lines {
        [first, ..] => first.bytes(),
        [] => b"",
    }
}

fn print_change(alloc: Global, value: &[u8], was: &[Text]) -> Result<Vec<u8>, NoMemory>
    ensures { (done : List (List ℕ)) → IfOk result (λ text. text.items
        ≡ following.change_line value.now was.now done) }
{
    let mut out = Vec::new(alloc);
    out.extend_from_slice(front_line(was))?;
    out.extend_from_slice(b" => ")?;
    out.extend_from_slice(value)?;
    out.extend_from_slice(b"\n")?;
    Ok(out)
}

fn print_both(
    alloc: Global,
    told: Told<'_>,
    first: &[Text],
    second: &[Text],
) -> Result<Vec<u8>, NoMemory>
    ensures { IfOk result (λ text. text.items
        ≡ following.both_text told.entry first.now second.now) }
{
    match told {
        Told::Devices(label) => print_with_devices(alloc, label, first, second),
        Told::Change(value) => print_change(alloc, value.bytes(), first),
        Told::Contrary(target, number) => print_contrary(alloc, target, number, first, second),
    }
}

fn print_told(
    alloc: Global,
    told: Told<'_>,
    first: &[Text],
    reply: &Reply,
) -> Result<Vec<u8>, NoMemory>
    ensures { IfOk result (λ text. text.items
        ≡ following.by_lines (following.both_text told.entry) first.now reply.now) }
{
    match reply {
        Reply::Lines(second) => print_both(alloc, told, first, second.as_slice()),
        Reply::Refused(_) => print_answer(alloc, reply),
    }
}

fn write_told<K: Sink>(
    alloc: Global,
    told: Told<'_>,
    first: &[Text],
    out: &mut K,
    reply: &Reply,
) -> Asked
    ensures written { WritesText (K.held out.old) (K.held out.new) reply.now
        (following.by_lines (following.both_text told.entry) first.now reply.now) result }
    ensures counted { K.faults out.old ≤ K.faults out.new }
    ensures cause { result ≡ Asked.WriteFault → Rose (K.faults out.old) (K.faults out.new) }
{
    match print_told(alloc, told, first, reply) {
        Ok(text) => write_text(out, reply, &text),
        Err(_) => Asked::Memory,
    }
}

fn ask_second<L: Link, K: Sink>(
    alloc: Global,
    link: &mut L,
    path: &[u8],
    request: &Request,
    told: Told<'_>,
    first: &[Text],
    out: &mut K,
) -> Asked
    ensures asks { AsksShowing (following.by_lines (following.both_text told.entry) first.now)
        path.now (request_line request.now) (L.told link.old) (L.told link.new)
        (L.sent link.old) (L.sent link.new)
        (L.left link.old) (L.left link.new) (K.held out.old) (K.held out.new) result }
    ensures link { result ≡ Asked.LinkFailed → Rose (L.faults link.old) (L.faults link.new) }
    ensures sink { result ≡ Asked.WriteFault → Rose (K.faults out.old) (K.faults out.new) }
    ensures links { L.faults link.old ≤ L.faults link.new }
    ensures sinks { K.faults out.old ≤ K.faults out.new }
{
    match fetch_reply(alloc, link, path, request) {
        Fetched::Replied(reply) => write_told(alloc, told, first, out, &reply),
        Fetched::NoReply => Asked::NoReply,
        Fetched::LinkFailed => Asked::LinkFailed,
        Fetched::Memory => Asked::Memory,
    }
}

// What follows a first reply.
fn ask_behind<L: Link, K: Sink>(
    alloc: Global,
    link: &mut L,
    path: &[u8],
    request: &Request,
    told: Told<'_>,
    reply: &Reply,
    out: &mut K,
) -> Asked
    ensures asks { AsksBehind (following.by_lines (following.both_text told.entry)) path.now
        (request_line request.now) (fetched.Replied reply.now)
        (record {
          calls = L.told link.old;
          sent = L.sent link.old;
          left = L.left link.old;
          held = K.held out.old;
        })
        (record {
          calls = L.told link.new;
          sent = L.sent link.new;
          left = L.left link.new;
          held = K.held out.new;
        }) result }
    ensures link { result ≡ Asked.LinkFailed → Rose (L.faults link.old) (L.faults link.new) }
    ensures sink { result ≡ Asked.WriteFault → Rose (K.faults out.old) (K.faults out.new) }
    ensures links { L.faults link.old ≤ L.faults link.new }
    ensures sinks { K.faults out.old ≤ K.faults out.new }
{
    match reply {
        Reply::Lines(first) => {
            ask_second(alloc, link, path, request, told, first.as_slice(), out)
        }
        Reply::Refused(_) => write_answer(alloc, out, reply),
    }
}

/// Sends the first request, and behind a reply with lines the second. It prints what is shown of both replies, or the refusal.
pub fn ask_twice<L: Link, K: Sink>(
    alloc: Global,
    link: &mut L,
    path: &[u8],
    first: &Request,
    second: &Request,
    told: Told<'_>,
    out: &mut K,
) -> Asked
    ensures asks { AsksTwice (following.by_lines (following.both_text told.entry)) path.now
        (request_line first.now) (request_line second.now)
        (record {
          calls = L.told link.old;
          sent = L.sent link.old;
          left = L.left link.old;
          held = K.held out.old;
        })
        (record {
          calls = L.told link.new;
          sent = L.sent link.new;
          left = L.left link.new;
          held = K.held out.new;
        }) result }
    ensures link { result ≡ Asked.LinkFailed → Rose (L.faults link.old) (L.faults link.new) }
    ensures sink { result ≡ Asked.WriteFault → Rose (K.faults out.old) (K.faults out.new) }
    ensures counted { K.faults out.old ≤ K.faults out.new }
{
    match fetch_reply(alloc, link, path, first) {
        Fetched::Replied(reply) => ask_behind(alloc, link, path, second, told, &reply, out),
        Fetched::NoReply => Asked::NoReply,
        Fetched::LinkFailed => Asked::LinkFailed,
        Fetched::Memory => Asked::Memory,
    }
}
