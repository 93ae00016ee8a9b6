// A list of devices of which some rows are wanted.
ghost use Rattle.std.specs.Prelude.{◌≡◌, ◌≤◌, ◌++◌, ◌∷◌, [], cond, IfOk, OnOk};
ghost use Rattle.ug_proto.specs.Replies.{ended_lines};
ghost use Rattle.ug_proto.specs.declared.request.Request.TheVariants as request;
ghost use Rattle.ug_rows.specs.Rows.{chosen_rows};
ghost use Rattle.ug_types.specs.Ends.{Rose};
ghost use Rattle.ug_client.specs.Asking.{request_line};
ghost use Rattle.ug_client.specs.Choosing.{chosen_text};
ghost use Rattle.ug_client.specs.Fetching.{AsksShowing, WritesText};

use crate::asked::Asked;
use crate::fetch::{Fetched, fetch_reply};
use crate::write::{print_answer, write_text};
use std::alloc::Global;
use ug_links::Link;
use ug_proto::{Reply, Request};
use ug_rows::{Choice, is_chosen};
use ug_types::{NoMemory, Sink, Text};

pub fn put_row(out: &mut Vec<u8>, row: &[u8], chosen: bool) -> Result<(), NoMemory>
    ensures { OnOk result (out.new.items ≡ out.old.items
        ++ cond chosen (row.now ++ 10 ∷ []) []) }
{
    if chosen {
        out.extend_from_slice(row)?;
        out.extend_from_slice(b"\n")?;
    }
    Ok(())
}

fn print_rows(alloc: Global, choice: &Choice, rows: &[Text]) -> Result<Vec<u8>, NoMemory>
    ensures { IfOk result (λ text. text.items ≡ ended_lines (chosen_rows choice.now rows.now)) }
{
    let mut out = Vec::new(alloc);
    for row in rows {
        let chosen = is_chosen(alloc, choice, row.bytes())?;
        put_row(&mut out, row.bytes(), chosen)?;
    }
    Ok(out)
}

fn print_chosen(alloc: Global, choice: &Choice, reply: &Reply) -> Result<Vec<u8>, NoMemory>
    ensures { IfOk result (λ text. text.items ≡ chosen_text choice.now reply.now) }
{
    match reply {
        Reply::Lines(rows) => print_rows(alloc, choice, rows.as_slice()),
        Reply::Refused(_) => print_answer(alloc, reply),
    }
}

fn write_chosen<K: Sink>(alloc: Global, choice: &Choice, out: &mut K, reply: &Reply) -> Asked
    ensures written { WritesText (K.held out.old) (K.held out.new) reply.now
        (chosen_text choice.now reply.now) result }
    ensures counted { K.faults out.old ≤ K.faults out.new }
    ensures cause { result ≡ Asked.WriteFault → Rose (K.faults out.old) (K.faults out.new) }
{
    match print_chosen(alloc, choice, reply) {
        Ok(text) => write_text(out, reply, &text),
        Err(_) => Asked::Memory,
    }
}

/// Asks for the devices, as `ask` does, and prints the rows that are chosen, in their order.
pub fn ask_chosen<L: Link, K: Sink>(
    alloc: Global,
    link: &mut L,
    path: &[u8],
    choice: &Choice,
    out: &mut K,
) -> Asked
    ensures asks { AsksShowing (chosen_text choice.now) path.now
        (request_line request.ListDevices) (L.told link.old) (L.told link.new)
        (L.sent link.old) (L.sent link.new)
        (L.left link.old) (L.left link.new) (K.held out.old) (K.held out.new) result }
    ensures link { result ≡ Asked.LinkFailed → Rose (L.faults link.old) (L.faults link.new) }
    ensures sink { result ≡ Asked.WriteFault → Rose (K.faults out.old) (K.faults out.new) }
    ensures counted { K.faults out.old ≤ K.faults out.new }
{
    match fetch_reply(alloc, link, path, &Request::ListDevices) {
        Fetched::Replied(reply) => write_chosen(alloc, choice, out, &reply),
        Fetched::NoReply => Asked::NoReply,
        Fetched::LinkFailed => Asked::LinkFailed,
        Fetched::Memory => Asked::Memory,
    }
}
