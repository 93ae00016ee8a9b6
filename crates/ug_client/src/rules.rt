// Lists of rules of which some are wanted.
ghost use Rattle.std.specs.Prelude.{◌≡◌, ◌≤◌, ◌++◌, ◌∷◌, [], cond, IfOk, OnOk};
ghost use Rattle.ug_proto.specs.Replies.{ended_lines};
ghost use Rattle.ug_proto.specs.declared.request.Request.TheVariants as request;
ghost use Rattle.ug_rows.specs.RuleRows.{labelled_rows};
ghost use Rattle.ug_types.specs.Ends.{Rose};
ghost use Rattle.ug_client.specs.Asking.{request_line};
ghost use Rattle.ug_client.specs.Fetching.{AsksShowing, WritesText};
ghost use Rattle.ug_client.specs.Following as following;

use crate::asked::Asked;
use crate::choosing::put_row;
use crate::fetch::{Fetched, fetch_reply};
use crate::write::{print_answer, write_text};
use std::alloc::Global;
use ug_links::Link;
use ug_proto::{Reply, Request};
use ug_rows::{copy_rows, is_labelled, is_shown, split_devices};
use ug_types::{NoMemory, Sink, Text};

fn print_labelled(alloc: Global, label: &[u8], rules: &[Text]) -> Result<Vec<u8>, NoMemory>
    ensures { IfOk result (λ text. text.items
        ≡ ended_lines (labelled_rows label.now rules.now)) }
{
    let mut out = Vec::new(alloc);
    for row in rules {
        let shown = is_labelled(alloc, label, row.bytes())?;
        put_row(&mut out, row.bytes(), shown)?;
    }
    Ok(out)
}

fn print_rules(alloc: Global, label: &[u8], reply: &Reply) -> Result<Vec<u8>, NoMemory>
    ensures { IfOk result (λ text. text.items ≡ following.labelled_text label.now reply.now) }
{
    match reply {
        Reply::Lines(rules) => print_labelled(alloc, label, rules.as_slice()),
        Reply::Refused(_) => print_answer(alloc, reply),
    }
}

fn write_rules<K: Sink>(alloc: Global, label: &[u8], out: &mut K, reply: &Reply) -> Asked
    ensures written { WritesText (K.held out.old) (K.held out.new) reply.now
        (following.labelled_text label.now reply.now) result }
    ensures counted { K.faults out.old ≤ K.faults out.new }
    ensures cause { result ≡ Asked.WriteFault → Rose (K.faults out.old) (K.faults out.new) }
{
    match print_rules(alloc, label, reply) {
        Ok(text) => write_text(out, reply, &text),
        Err(_) => Asked::Memory,
    }
}

/// Asks for the rules, as `ask` does, and prints the rows of those that have the label, in their order.
pub fn ask_labelled<L: Link, K: Sink>(
    alloc: Global,
    link: &mut L,
    path: &[u8],
    label: &[u8],
    out: &mut K,
) -> Asked
    ensures asks { AsksShowing (following.labelled_text label.now) path.now
        (request_line request.ListRules) (L.told link.old) (L.told link.new)
        (L.sent link.old) (L.sent link.new)
        (L.left link.old) (L.left link.new) (K.held out.old) (K.held out.new) result }
    ensures link { result ≡ Asked.LinkFailed → Rose (L.faults link.old) (L.faults link.new) }
    ensures sink { result ≡ Asked.WriteFault → Rose (K.faults out.old) (K.faults out.new) }
    ensures counted { K.faults out.old ≤ K.faults out.new }
{
    match fetch_reply(alloc, link, path, &Request::ListRules) {
        Fetched::Replied(reply) => write_rules(alloc, label, out, &reply),
        Fetched::NoReply => Asked::NoReply,
        Fetched::LinkFailed => Asked::LinkFailed,
        Fetched::Memory => Asked::Memory,
    }
}

fn put_device(out: &mut Vec<u8>, row: &[u8]) -> Result<(), NoMemory>
    ensures { OnOk result (out.new.items ≡ out.old.items
        ++ following.device_lines (row.now ∷ [])) }
{
    out.extend_from_slice(b"\t")?;
    out.extend_from_slice(row)?;
    out.extend_from_slice(b"\n")?;
    Ok(())
}

fn put_devices(out: &mut Vec<u8>, rows: &[Text]) -> Result<(), NoMemory>
    ensures { OnOk result (out.new.items ≡ out.old.items
        ++ following.device_lines rows.now) }
{
    for row in rows {
        put_device(out, row.bytes())?;
    }
    Ok(())
}

fn put_rule(out: &mut Vec<u8>, shown: bool, row: &[u8], devices: &[Text]) -> Result<(), NoMemory>
    ensures { OnOk result (out.new.items ≡ out.old.items
        ++ cond shown (following.rule_lines row.now devices.now) []) }
{
    if shown {
        out.extend_from_slice(row)?;
        out.extend_from_slice(b"\n")?;
        put_devices(out, devices)?;
    }
    Ok(())
}

/// The text of the rules that have the label, and behind each the devices that it applies to.
pub fn print_with_devices(
    alloc: Global,
    label: &Option<Text>,
    rules: &[Text],
    devices: &[Text],
) -> Result<Vec<u8>, NoMemory>
    ensures { IfOk result (λ text. text.items
        ≡ following.rules_lines label.now rules.now devices.now) }
{
    let mut out = Vec::new(alloc);
    let mut left = copy_rows(alloc, devices)?;
    for row in rules {
        let shown = is_shown(alloc, label, row.bytes())?;
        let split = split_devices(alloc, row.bytes(), left)?;
        put_rule(&mut out, shown, row.bytes(), &split.applied)?;
        left = split.left;
    }
    Ok(out)
}
