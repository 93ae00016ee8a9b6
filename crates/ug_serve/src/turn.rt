// One turn, and turns one after another.
ghost use Rattle.std.specs.Prelude.{◌≡◌, ◌≤◌, List, true, false};
ghost use Rattle.ug_types.specs.Ends.{IsCounted, Rose};
ghost use Rattle.ug_audit.specs.Journal.{members};
ghost use Rattle.ug_core.specs.Event.{daemon_of};
ghost use Rattle.ug_serve.specs.Turns.{EndsTurn, ServesTurns, Turned, core_of, turn_world};

use crate::events::{has_room, serve_events};
use rand_chacha::ChaCha20Rng;
use std::alloc::Global;
use ug_audit::{Auditor, Panel};
use ug_cond::Zone;
use ug_core::Daemon;
use ug_kernel::Sysfs;
use ug_links::{Clock, Links, Ready, Waiter, Woken};
use ug_sessions::Server;
use ug_store::RuleDisk;

/// What a turn came to.
#[derive(Clone, Copy)]
pub enum TurnEnd {
    Done,
    /// The numbers leave no room for an event.
    Numbers,
    WaitFailed,
}

/// One turn: it waits, takes the moment, accepts and reads, handles an order for each request or else one sweep, and sends. The auditors
/// note an event's entries while it goes on. Where the numbers leave no room for an event, the turn ends there.
pub fn serve_turn<Z: Zone, Y: Sysfs, D: RuleDisk, N: Links, W: Waiter, C: Clock>(
    alloc: Global,
    daemon: &mut Daemon<Z, ChaCha20Rng>,
    server: &mut Server,
    sysfs: &mut Y,
    disk: &mut D,
    links: &mut N,
    waiter: &mut W,
    clock: &mut C,
    panel: &mut Panel,
) -> TurnEnd
    ensures turn { EndsTurn Y.Sysfs D.RuleDisk N.Links W.Waiter C.Clock
        (turn_world (core_of (daemon_of daemon.old) sysfs.old disk.old
        (members (λ b. ⟦<dyn Auditor as Auditor>⟧ b.vtable) panel.old))
        server.old links.old waiter.old clock.old)
        result
        (turn_world (core_of (daemon_of daemon.new) sysfs.new disk.new
        (members (λ b. ⟦<dyn Auditor as Auditor>⟧ b.vtable) panel.new))
        server.new links.new waiter.new clock.new) }
    ensures cause { result ≡ TurnEnd.WaitFailed → Rose (W.faults waiter.old) (W.faults waiter.new) }
    ensures counted { IsCounted (W.faults waiter.old) (W.faults waiter.new) }
{
    if !has_room(daemon, sysfs, disk) {
        return TurnEnd::Numbers;
    }
    let mut ready = [Ready::Listener(0); 256];
    let count = match waiter.wait(&mut ready) {
        Woken::Got(count) => count,
        Woken::Failed => return TurnEnd::WaitFailed,
    };
    let moment = clock.now();
    let _came = server.turn(&ready[..count], links);
    if !serve_events(alloc, moment, daemon, server, sysfs, disk, panel) {
        return TurnEnd::Numbers;
    }
    let _sent = server.flush(links);
    TurnEnd::Done
}

/// Turns one after another, until that many are made, or one can't be.
pub fn serve_turns<Z: Zone, Y: Sysfs, D: RuleDisk, N: Links, W: Waiter, C: Clock>(
    alloc: Global,
    turns: u64,
    daemon: &mut Daemon<Z, ChaCha20Rng>,
    server: &mut Server,
    sysfs: &mut Y,
    disk: &mut D,
    links: &mut N,
    waiter: &mut W,
    clock: &mut C,
    panel: &mut Panel,
) -> TurnEnd
    ensures turns { (made : List Turned)
        × ServesTurns Y.Sysfs D.RuleDisk N.Links W.Waiter C.Clock turns
        (turn_world (core_of (daemon_of daemon.old) sysfs.old disk.old
        (members (λ b. ⟦<dyn Auditor as Auditor>⟧ b.vtable) panel.old))
        server.old links.old waiter.old clock.old)
        made result
        (turn_world (core_of (daemon_of daemon.new) sysfs.new disk.new
        (members (λ b. ⟦<dyn Auditor as Auditor>⟧ b.vtable) panel.new))
        server.new links.new waiter.new clock.new) }
    ensures cause { result ≡ TurnEnd.WaitFailed → Rose (W.faults waiter.old) (W.faults waiter.new) }
    ensures counted { W.faults waiter.old ≤ W.faults waiter.new }
{
    for i in 0..turns {
        match serve_turn(
            alloc, daemon, server, sysfs, disk, links, waiter, clock, panel,
        ) {
            TurnEnd::Done => {}
            TurnEnd::Numbers => return TurnEnd::Numbers,
            TurnEnd::WaitFailed => return TurnEnd::WaitFailed,
        }
    }
    TurnEnd::Done
}
