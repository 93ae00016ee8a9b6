// Orders on devices, one after another.
ghost use Rattle.std.specs.Prelude.{◌≡◌, ◌≤◌, ◌++◌, ◌∷◌, IfOk, OnOk};
ghost use Rattle.ug_proto.specs.declared.request.Request.TheVariants as request;
ghost use Rattle.ug_types.specs.Ends.{Rose};
ghost use Rattle.ug_client.specs.Asking.{request_line};
ghost use Rattle.ug_client.specs.Fetching.{AsksShowing, WritesText};
ghost use Rattle.ug_client.specs.Ordering.{GivesOrders, outcome_line, outcome_words, spaced_lines};

use crate::asked::Asked;
use crate::fetch::{Fetched, fetch_reply};
use crate::write::{put_words, write_text};
use itoa::Buffer;
use std::alloc::Global;
use ug_links::Link;
use ug_proto::{Reply, Request};
use ug_types::{NoMemory, Sink, Target, Text};

/// What is wanted of devices.
#[derive(Clone, Copy)]
pub struct Wanted {
    pub target: Target,
    /// Whether a rule is to say the same from now on.
    pub permanent: bool,
}

fn put_line(out: &mut Vec<u8>, line: &[u8]) -> Result<(), NoMemory>
    ensures { OnOk result (out.new.items ≡ out.old.items ++ 32 ∷ line.now) }
{
    out.extend_from_slice(b" ")?;
    out.extend_from_slice(line)?;
    Ok(())
}

fn put_spaced(out: &mut Vec<u8>, lines: &[Text]) -> Result<(), NoMemory>
    ensures { OnOk result (out.new.items ≡ out.old.items ++ spaced_lines lines.now) }
{
    for line in lines {
        put_line(out, line.bytes())?;
    }
    Ok(())
}

fn put_outcome(out: &mut Vec<u8>, reply: &Reply) -> Result<(), NoMemory>
    ensures { OnOk result (out.new.items ≡ out.old.items ++ outcome_words reply.now) }
{
    match reply {
        Reply::Lines(lines) => {
            out.extend_from_slice(b"ok")?;
            put_spaced(out, lines.as_slice())?;
            out.extend_from_slice(b"\n")?;
        }
        Reply::Refused(refusal) => put_words(out, refusal)?,
    }
    Ok(())
}

fn print_outcome(alloc: Global, number: u64, reply: &Reply) -> Result<Vec<u8>, NoMemory>
    ensures { IfOk result (λ text. text.items ≡ outcome_line number reply.now) }
{
    let mut digits = Buffer::new();
    let mut out = Vec::new(alloc);
    out.extend_from_slice(digits.format(number).as_bytes())?;
    out.extend_from_slice(b": ")?;
    put_outcome(&mut out, reply)?;
    Ok(out)
}

fn write_outcome<K: Sink>(alloc: Global, number: u64, out: &mut K, reply: &Reply) -> Asked
    ensures written { WritesText (K.held out.old) (K.held out.new) reply.now
        (outcome_line number reply.now) result }
    ensures counted { K.faults out.old ≤ K.faults out.new }
    ensures cause { result ≡ Asked.WriteFault → Rose (K.faults out.old) (K.faults out.new) }
{
    match print_outcome(alloc, number, reply) {
        Ok(text) => write_text(out, reply, &text),
        Err(_) => Asked::Memory,
    }
}

fn give_order<L: Link, K: Sink>(
    alloc: Global,
    link: &mut L,
    path: &[u8],
    wanted: Wanted,
    number: u64,
    out: &mut K,
) -> Asked
    ensures asks { AsksShowing (outcome_line number) path.now
        (request_line (request.Device number wanted.target wanted.permanent))
        (L.told link.old) (L.told link.new)
        (L.sent link.old) (L.sent link.new)
        (L.left link.old) (L.left link.new) (K.held out.old) (K.held out.new) result }
    ensures link { result ≡ Asked.LinkFailed → Rose (L.faults link.old) (L.faults link.new) }
    ensures sink { result ≡ Asked.WriteFault → Rose (K.faults out.old) (K.faults out.new) }
    ensures links { L.faults link.old ≤ L.faults link.new }
    ensures sinks { K.faults out.old ≤ K.faults out.new }
{
    let request = Request::Device {
        number,
        target: wanted.target,
        permanent: wanted.permanent,
    };
    match fetch_reply(alloc, link, path, &request) {
        Fetched::Replied(reply) => write_outcome(alloc, number, out, &reply),
        Fetched::NoReply => Asked::NoReply,
        Fetched::LinkFailed => Asked::LinkFailed,
        Fetched::Memory => Asked::Memory,
    }
}

/// Gives one order on each number, in order, and prints a line of each. It goes on behind a refusal, and stops where there is
/// no reply, or where its line isn't written.
pub fn give_orders<L: Link, K: Sink>(
    alloc: Global,
    link: &mut L,
    path: &[u8],
    wanted: Wanted,
    numbers: &[u64],
    out: &mut K,
) -> Asked
    ensures gives { GivesOrders path.now wanted numbers.now
        (record {
          calls = L.told link.old;
          sent = L.sent link.old;
          left = L.left link.old;
          held = K.held out.old;
        })
        (record {
          calls = L.told link.new;
          sent = L.sent link.new;
          left = L.left link.new;
          held = K.held out.new;
        }) result }
    ensures link { result ≡ Asked.LinkFailed → Rose (L.faults link.old) (L.faults link.new) }
    ensures sink { result ≡ Asked.WriteFault → Rose (K.faults out.old) (K.faults out.new) }
    ensures links { L.faults link.old ≤ L.faults link.new }
    ensures sinks { K.faults out.old ≤ K.faults out.new }
{
    let mut refused = false;
    for number in numbers {
        match give_order(alloc, link, path, wanted, *number, out) {
            Asked::Done => {}
            Asked::Refused => refused = true,
            ended => return ended,
        }
    }
    if refused { Asked::Refused } else { Asked::Done }
}
