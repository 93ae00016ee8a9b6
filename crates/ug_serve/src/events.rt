// The events of a turn.
ghost use Rattle.std.specs.Prelude.{◌≡◌, List, Some, IsTrue};
ghost use Rattle.ug_audit.specs.Journal.{members};
ghost use Rattle.ug_core.specs.Event.{daemon_of, has_numbers};
ghost use Rattle.ug_types.specs.Events.{FitsEvent};
ghost use Rattle.ug_serve.specs.Responses.{ChangesSessions, Responds};
ghost use Rattle.ug_serve.specs.Turns.{Events, IsHandled, ServesOrders, TurnEvent, core_of, with_server};

use crate::respond::{notify_of_event, respond};
use rand_chacha::ChaCha20Rng;
use std::alloc::Global;
use ug_audit::{Auditor, Panel};
use ug_cond::Zone;
use ug_core::Daemon;
use ug_kernel::Sysfs;
use ug_links::LinkId;
use ug_sessions::Server;
use ug_store::RuleDisk;
use ug_types::{Event, Moment};

/// Whether the numbers leave room for an event.
pub fn has_room<Z: Zone, Y: Sysfs, D: RuleDisk>(
    daemon: &Daemon<Z, ChaCha20Rng>,
    sysfs: &Y,
    disk: &D,
) -> bool
    ensures { result ≡ has_numbers (daemon_of daemon.now) (Y.faults sysfs.now) (D.faults disk.now) }
{
    daemon.has_numbers(sysfs.faults(), disk.faults())
}

// Handles the order of that session, and puts what it comes to to the sessions.
fn serve_order<Z: Zone, Y: Sysfs, D: RuleDisk>(
    alloc: Global,
    id: LinkId,
    order: &Event,
    daemon: &mut Daemon<Z, ChaCha20Rng>,
    server: &mut Server,
    sysfs: &mut Y,
    disk: &mut D,
    panel: &mut Panel,
)
    requires numbers { IsTrue
        (has_numbers (daemon_of daemon.old) (Y.faults sysfs.old) (D.faults disk.old)) }
    requires piece { FitsEvent order.now }
    ensures { (e : TurnEvent) × (e.asked_by ≡ Some id) × (e.event ≡ order.now)
        × IsHandled Y.Sysfs D.RuleDisk
        (core_of (daemon_of daemon.old) sysfs.old disk.old
        (members (λ b. ⟦<dyn Auditor as Auditor>⟧ b.vtable) panel.old)) e
        (core_of (daemon_of daemon.new) sysfs.new disk.new
        (members (λ b. ⟦<dyn Auditor as Auditor>⟧ b.vtable) panel.new))
        × ChangesSessions (Responds id e.after e.entries) server.old server.new }
{
    daemon.handle(alloc, order, sysfs, disk, panel);
    respond(alloc, server, id, daemon);
}

// Handles an order for each request until none is left, and tells whether the numbers left room for each.
fn serve_orders<Z: Zone, Y: Sysfs, D: RuleDisk>(
    alloc: Global,
    moment: Moment,
    daemon: &mut Daemon<Z, ChaCha20Rng>,
    server: &mut Server,
    sysfs: &mut Y,
    disk: &mut D,
    panel: &mut Panel,
) -> bool
    ensures { (orders : List TurnEvent)
        × ServesOrders Y.Sysfs D.RuleDisk moment
        (with_server (core_of (daemon_of daemon.old) sysfs.old disk.old
        (members (λ b. ⟦<dyn Auditor as Auditor>⟧ b.vtable) panel.old)) server.old) orders result
        (with_server (core_of (daemon_of daemon.new) sysfs.new disk.new
        (members (λ b. ⟦<dyn Auditor as Auditor>⟧ b.vtable) panel.new)) server.new) }
{
    loop {
        match server.next_request() {
            None => return true,
            Some((id, who, line)) => {
                if !has_room(daemon, sysfs, disk) {
                    return false;
                }
                serve_order(
                    alloc,
                    id,
                    &Event::Order(moment, who, line),
                    daemon,
                    server,
                    sysfs,
                    disk,
                    panel,
                );
            }
        }
    }
}

/// Handles an order for each request in turn, or one sweep where there is no request. Tells whether the numbers left room for each.
pub fn serve_events<Z: Zone, Y: Sysfs, D: RuleDisk>(
    alloc: Global,
    moment: Moment,
    daemon: &mut Daemon<Z, ChaCha20Rng>,
    server: &mut Server,
    sysfs: &mut Y,
    disk: &mut D,
    panel: &mut Panel,
) -> bool
    ensures { (events : List TurnEvent)
        × Events Y.Sysfs D.RuleDisk moment
        (with_server (core_of (daemon_of daemon.old) sysfs.old disk.old
        (members (λ b. ⟦<dyn Auditor as Auditor>⟧ b.vtable) panel.old)) server.old) events result
        (with_server (core_of (daemon_of daemon.new) sysfs.new disk.new
        (members (λ b. ⟦<dyn Auditor as Auditor>⟧ b.vtable) panel.new)) server.new) }
{
    match server.next_request() {
        None => {
            if !has_room(daemon, sysfs, disk) {
                return false;
            }
            daemon.handle(alloc, &Event::Sweep(moment), sysfs, disk, panel);
            notify_of_event(server, daemon);
            true
        }
        Some((id, who, line)) => {
            if !has_room(daemon, sysfs, disk) {
                return false;
            }
            serve_order(
                alloc,
                id,
                &Event::Order(moment, who, line),
                daemon,
                server,
                sysfs,
                disk,
                panel,
            );
            serve_orders(alloc, moment, daemon, server, sysfs, disk, panel)
        }
    }
}
