// A command that was read.
ghost use Rattle.std.specs.Prelude.{◌≡◌, ◌≢◌, false};
ghost use Rattle.ug_types.specs.Ends.{Rose};
ghost use Rattle.ug_command_io.specs.Statuses.{status_of};
ghost use Rattle.ug_command_io.specs.declared.results.Ended.{Ended};
ghost use Rattle.ug_commands.specs.GeneratedScripts.{generated_script};
ghost use Rattle.ug_tool.specs.CarriedOut.{CarriesCommandOut};
ghost use Rattle.ug_tool.specs.Faults.{EndsIn};
ghost use Rattle.ug_tool.specs.Tool.{asks_daemon};

use crate::client::{
    ask_daemon, change_parameter, list_chosen, list_labelled, list_rule_devices, order_devices,
    watch_daemon,
};
use crate::replay::replay_over;
use std::alloc::Global;
use ug_acl::add_user;
use ug_arguments::Command;
use ug_client::Wanted;
use ug_commands::{check_rules, lint_rules, list_descriptors, make_script};
use ug_links::Link;
use ug_script::{generate_policy, summarize};
use ug_sysfs::SimKernel;
use ug_types::{Put, Sink, Source};

/// Writes a script of random events.
fn write_script<K: Sink>(events: u32, start: u32, out: &mut K) -> u8
    ensures ends { EndsIn (generated_script events start) 0 (K.held out.old)
        (K.held out.new) result }
    ensures ended { (ended : Ended) × (result ≡ status_of ended) }
    ensures not_read { result ≢ 4 }
    ensures cause { result ≡ 5 → Rose (K.faults out.old) (K.faults out.new) }
{
    match make_script(events, start, out) {
        Put::Done => 0,
        Put::Failed => 5,
    }
}

/// Carries the command out.
pub fn carry_out<S: Source, K: Sink, L: Link>(
    alloc: Global,
    command: &Command,
    input: &mut S,
    out: &mut K,
    link: &mut L,
) -> u8
    ensures carried { CarriesCommandOut command.now
        (record {
          input = S.left input.old;
          output = K.held out.old;
          calls = L.told link.old;
          sent = L.sent link.old;
          incoming = L.left link.old;
          faults = L.faults link.old;
        })
        (record {
          input = S.left input.new;
          output = K.held out.new;
          calls = L.told link.new;
          sent = L.sent link.new;
          incoming = L.left link.new;
          faults = L.faults link.new;
        }) result }
    ensures read { result ≡ 4 → Rose (S.faults input.old) (S.faults input.new) }
    ensures written { result ≡ 5 → Rose (K.faults out.old) (K.faults out.new) }
    ensures link { asks_daemon command.now ≡ false → link.new ≡ link.old }
{
    match command {
        Command::Replay => {
            let mut kernel = SimKernel::new(alloc);
            let status = replay_over(alloc, input, out, &mut kernel);
            kernel.discard();
            status
        }
        Command::Summarize => {
            let mut kernel = SimKernel::new(alloc);
            let status = summarize(alloc, input, out, &mut kernel);
            kernel.discard();
            status
        }
        Command::MakeScript { events, start } => write_script(*events, *start, out),
        Command::ReadDescriptor => list_descriptors(alloc, input, out),
        Command::CheckRules => check_rules(alloc, input, out),
        Command::LintRules { prune } => lint_rules(alloc, *prune, input, out),
        Command::GeneratePolicy => {
            let mut kernel = SimKernel::new(alloc);
            let status = generate_policy(alloc, input, out, &mut kernel);
            kernel.discard();
            status
        }
        Command::AddUser { name: _, asked } => add_user(alloc, asked, input, out),
        Command::Ask { socket, request } => ask_daemon(alloc, link, socket.bytes(), request, out),
        Command::ListChosen { socket, choice } => {
            list_chosen(alloc, link, socket.bytes(), choice, out)
        }
        Command::ListLabelled { socket, label } => {
            list_labelled(alloc, link, socket.bytes(), label, out)
        }
        Command::ListRuleDevices { socket, label } => {
            list_rule_devices(alloc, link, socket.bytes(), label, out)
        }
        Command::ChangeParameter {
            socket,
            name,
            value,
        } => change_parameter(alloc, link, socket.bytes(), name, value, out),
        Command::Order {
            socket,
            query,
            target,
            permanent,
        } => {
            let wanted = Wanted {
                target: *target,
                permanent: *permanent,
            };
            order_devices(alloc, link, socket.bytes(), query, wanted, out)
        }
        Command::Watch { socket, most } => watch_daemon(alloc, link, socket.bytes(), *most, out),
        Command::WatchWaiting {
            socket,
            most,
            once: _,
        } => watch_daemon(alloc, link, socket.bytes(), *most, out),
    }
}
