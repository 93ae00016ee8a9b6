// The commands that ask the daemon.
ghost use Rattle.std.specs.Prelude.{◌≡◌, ◌≢◌, ◌≤◌, IfOk, Some};
ghost use Rattle.ug_types.specs.Ends.{Rose};
ghost use Rattle.ug_proto.specs.declared.request.Request.TheVariants as request;
ghost use Rattle.ug_client.specs.Asking.{request_line};
ghost use Rattle.ug_client.specs.Following.{change_line, rules_lines};
ghost use Rattle.ug_tool.specs.Client.{AsksAndEnds, ChoosesAndEnds, EndsAsked, EndsOrdered, LabelsAndEnds, OrdersAndEnds, TellsBothAndEnds, WatchesAndEnds};

use crate::faults::end_with;
use std::alloc::Global;
use ug_client::{
    Asked, Told, Wanted, ask, ask_chosen, ask_labelled, ask_twice, order_matching, watch,
};
use ug_links::Link;
use ug_proto::Request;
use ug_rows::Choice;
use ug_types::{NoMemory, Query, Sink, Text};

/// The status, and the fault line that belongs to it.
#[tactic(auto, unfolding(crate::specs::Client::link_fault, ug_command_io::specs::Fold::no_memory))]
fn end<K: Sink>(out: &mut K, asked: Asked) -> u8
    ensures ends { EndsAsked (K.held out.old) (K.held out.new) asked result }
    ensures not_read { result ≢ 4 }
    ensures counted { K.faults out.old ≤ K.faults out.new }
    ensures written { asked ≢ Asked.WriteFault → result ≡ 5
        → Rose (K.faults out.old) (K.faults out.new) }
{
    match asked {
        Asked::Done => 0,
        Asked::Refused => 7,
        Asked::NoReply => end_with(out, b"link fault\n", 8),
        Asked::LinkFailed => end_with(out, b"link fault\n", 8),
        Asked::WriteFault => 5,
        Asked::Memory => end_with(out, b"no memory\n", 6),
    }
}

/// Sends the request, and prints the reply.
pub fn ask_daemon<L: Link, K: Sink>(
    alloc: Global,
    link: &mut L,
    path: &[u8],
    request: &Request,
    out: &mut K,
) -> u8
    ensures asks { AsksAndEnds path.now (request_line request.now) (L.told link.old)
        (L.told link.new)
        (L.sent link.old) (L.sent link.new)
        (L.left link.old) (L.left link.new) (K.held out.old) (K.held out.new)
        (L.faults link.old) (L.faults link.new) result }
    ensures not_read { result ≢ 4 }
    ensures written { result ≡ 5 → Rose (K.faults out.old) (K.faults out.new) }
{
    let asked = ask(alloc, link, path, request, out);
    end(out, asked)
}

/// Asks for the devices, and prints those that are wanted.
pub fn list_chosen<L: Link, K: Sink>(
    alloc: Global,
    link: &mut L,
    path: &[u8],
    choice: &Choice,
    out: &mut K,
) -> u8
    ensures lists { ChoosesAndEnds path.now choice.now (L.told link.old) (L.told link.new)
        (L.sent link.old) (L.sent link.new)
        (L.left link.old) (L.left link.new) (K.held out.old) (K.held out.new)
        (L.faults link.old) (L.faults link.new) result }
    ensures not_read { result ≢ 4 }
    ensures written { result ≡ 5 → Rose (K.faults out.old) (K.faults out.new) }
{
    let asked = ask_chosen(alloc, link, path, choice, out);
    end(out, asked)
}

/// Asks for the rules, and prints those that have the label.
pub fn list_labelled<L: Link, K: Sink>(
    alloc: Global,
    link: &mut L,
    path: &[u8],
    label: &Text,
    out: &mut K,
) -> u8
    ensures lists { LabelsAndEnds path.now label.now (L.told link.old) (L.told link.new)
        (L.sent link.old) (L.sent link.new)
        (L.left link.old) (L.left link.new) (K.held out.old) (K.held out.new)
        (L.faults link.old) (L.faults link.new) result }
    ensures not_read { result ≢ 4 }
    ensures written { result ≡ 5 → Rose (K.faults out.old) (K.faults out.new) }
{
    let asked = ask_labelled(alloc, link, path, label.bytes(), out);
    end(out, asked)
}

/// Asks for the rules and the devices, and prints the rules that have the label, or all, each with its devices.
pub fn list_rule_devices<L: Link, K: Sink>(
    alloc: Global,
    link: &mut L,
    path: &[u8],
    label: &Option<Text>,
    out: &mut K,
) -> u8
    ensures lists { TellsBothAndEnds (rules_lines label.now) path.now
        (request_line request.ListRules) (request_line request.ListDevices)
        (L.told link.old) (L.told link.new)
        (L.sent link.old) (L.sent link.new)
        (L.left link.old) (L.left link.new) (K.held out.old) (K.held out.new)
        (L.faults link.old) (L.faults link.new) result }
    ensures not_read { result ≢ 4 }
    ensures written { result ≡ 5 → Rose (K.faults out.old) (K.faults out.new) }
{
    let told = Told::Devices(label);
    let rules = Request::ListRules;
    let devices = Request::ListDevices;
    let asked = ask_twice(alloc, link, path, &rules, &devices, told, out);
    end(out, asked)
}

fn change_requests(alloc: Global, name: &Text, value: &Text) -> Result<(Request, Request), NoMemory>
    ensures { IfOk result (λ both. both
        ≡ (request.GetParameter name.now, request.SetParameter name.now value.now)) }
{
    let asked = Text::of(alloc, name.bytes())?;
    let set = Text::of(alloc, name.bytes())?;
    let value = Text::of(alloc, value.bytes())?;
    Ok((
        Request::GetParameter { name: asked },
        Request::SetParameter { name: set, value },
    ))
}

/// Asks for a setting's value, then sets it, and prints both values.
pub fn change_parameter<L: Link, K: Sink>(
    alloc: Global,
    link: &mut L,
    path: &[u8],
    name: &Text,
    value: &Text,
    out: &mut K,
) -> u8
    ensures changes { TellsBothAndEnds (change_line value.now) path.now
        (request_line (request.GetParameter name.now))
        (request_line (request.SetParameter name.now value.now))
        (L.told link.old) (L.told link.new)
        (L.sent link.old) (L.sent link.new)
        (L.left link.old) (L.left link.new) (K.held out.old) (K.held out.new)
        (L.faults link.old) (L.faults link.new) result }
    ensures not_read { result ≢ 4 }
    ensures written { result ≡ 5 → Rose (K.faults out.old) (K.faults out.new) }
{
    match change_requests(alloc, name, value) {
        Ok((get, set)) => {
            let told = Told::Change(value);
            let asked = ask_twice(alloc, link, path, &get, &set, told, out);
            get.discard();
            set.discard();
            end(out, asked)
        }
        Err(_) => end(out, Asked::Memory),
    }
}

/// The status of orders, and the fault line that belongs to it.
#[tactic(auto, unfolding(crate::specs::Client::no_device))]
fn end_orders<K: Sink>(out: &mut K, ordered: Option<Asked>) -> u8
    ensures ends { EndsOrdered (K.held out.old) (K.held out.new) ordered result }
    ensures not_read { result ≢ 4 }
    ensures counted { K.faults out.old ≤ K.faults out.new }
    ensures written { ordered ≢ Some Asked.WriteFault → result ≡ 5
        → Rose (K.faults out.old) (K.faults out.new) }
{
    match ordered {
        Some(asked) => end(out, asked),
        None => end_with(out, b"no device matches\n", 7),
    }
}

/// Gives an order on each device that the query matches.
pub fn order_devices<L: Link, K: Sink>(
    alloc: Global,
    link: &mut L,
    path: &[u8],
    query: &Query,
    wanted: Wanted,
    out: &mut K,
) -> u8
    ensures orders { OrdersAndEnds path.now query.now wanted (L.told link.old) (L.told link.new)
        (L.sent link.old) (L.sent link.new)
        (L.left link.old) (L.left link.new) (K.held out.old) (K.held out.new)
        (L.faults link.old) (L.faults link.new) result }
    ensures not_read { result ≢ 4 }
    ensures written { result ≡ 5 → Rose (K.faults out.old) (K.faults out.new) }
{
    let ordered = order_matching(alloc, link, path, query, wanted, out);
    end_orders(out, ordered)
}

/// Asks for notices, and prints so many at most.
pub fn watch_daemon<L: Link, K: Sink>(
    alloc: Global,
    link: &mut L,
    path: &[u8],
    most: u64,
    out: &mut K,
) -> u8
    ensures watches { WatchesAndEnds path.now (request_line request.Watch) most (L.told link.old)
        (L.told link.new)
        (L.sent link.old) (L.sent link.new)
        (L.left link.old) (L.left link.new) (K.held out.old) (K.held out.new)
        (L.faults link.old) (L.faults link.new) result }
    ensures not_read { result ≢ 4 }
    ensures written { result ≡ 5 → Rose (K.faults out.old) (K.faults out.new) }
{
    let asked = watch(alloc, link, path, most, out);
    end(out, asked)
}
