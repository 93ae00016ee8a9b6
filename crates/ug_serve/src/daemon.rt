// The top call of the daemon.
ghost use Rattle.std.specs.Prelude.{◌≡◌, ◌⊎◌, ◌<◌, ◌^◌, List, [], ◌∷◌, length, map, Some, None};
ghost use Rattle.ug_types.specs.Elements.{Has};
ghost use Rattle.ug_types.specs.Ends.{Rose};
ghost use Rattle.ug_audit.specs.Journal.{members};
ghost use Rattle.ug_core.specs.Event.{daemon_of};
ghost use Rattle.ug_serve.specs.Opening.{started, words_of_seed};
ghost use Rattle.ug_serve.specs.Turns.{Turned};
ghost use Rattle.ug_serve.specs.Refusals.{IsStatusByTexts};
ghost use Rattle.ug_serve.specs.Serving.{AtSockets, RunsDaemon, ServesStarted, daemon_statuses, objects, turns_status};
ghost use Rattle.ug_serve.specs.Telling.{TurnsTell};
ghost use Rattle.ug_arguments.specs.Commands.{settings_path};

use crate::listening::listen_for_all;
use crate::not_started::NotStarted;
use crate::noting::note_refusal;
use crate::start::{Started, start};
use crate::turn::{TurnEnd, serve_turns};
use std::alloc::Global;
use ug_arguments::{WordsFault, read_daemon_words};
use ug_audit::{Auditor, Panel};
use ug_cond::Zone;
use ug_conf::ConfFiles;
use ug_kernel::Sysfs;
use ug_links::{Clock, Links, Waiter};
use ug_sessions::Server;
use ug_store::RuleDisk;

fn status_of(end: TurnEnd) -> u8
    ensures { result ≡ turns_status end }
{
    match end {
        TurnEnd::Done => 0,
        TurnEnd::Numbers => 10,
        TurnEnd::WaitFailed => 11,
    }
}

/// The turns of a daemon that started, once its links listen for those that it is open to.
fn serve_started<Z: Zone + Drop, Y: Sysfs, D: RuleDisk, N: Links, W: Waiter, C: Clock>(
    alloc: Global,
    first: Started<Z>,
    sysfs: &mut Y,
    disk: &mut D,
    links: &mut N,
    waiter: &mut W,
    clock: &mut C,
    panel: &mut Panel,
    turns: u64,
) -> u8
    requires { length first.principals < 2 ^ 32 }
    ensures serves { (sockets : AtSockets) × (made : List Turned)
        × ServesStarted Y.Sysfs D.RuleDisk N.Links W.Waiter C.Clock turns
        (started first.principals (daemon_of first.daemon))
        (objects sysfs.old disk.old links.old waiter.old clock.old
        (members (λ b. ⟦<dyn Auditor as Auditor>⟧ b.vtable) panel.old)) sockets made result
        (objects sysfs.new disk.new links.new waiter.new clock.new
        (members (λ b. ⟦<dyn Auditor as Auditor>⟧ b.vtable) panel.new)) }
    ensures statuses { Has (0 ∷ 6 ∷ 10 ∷ 11 ∷ []) result }
    ensures wait_failed { result ≡ 11 → Rose (N.faults links.old) (N.faults links.new)
        ⊎ Rose (W.faults waiter.old) (W.faults waiter.new) }
{
    let Started { daemon, principals } = first;
    match listen_for_all(alloc, principals.as_slice(), links) {
        Ok(()) => {
            let mut daemon = daemon;
            let mut server = Server::new(alloc, principals);
            let end = serve_turns(
                alloc,
                turns,
                &mut daemon,
                &mut server,
                sysfs,
                disk,
                links,
                waiter,
                clock,
                panel,
            );
            daemon.discard();
            drop(server);
            status_of(end)
        }
        Err(why) => {
            daemon.discard();
            drop(principals);
            why.status()
        }
    }
}

/// The daemon with the settings at that path.
fn serve<Z: Zone + Drop, Y: Sysfs, D: RuleDisk, F: ConfFiles, N: Links, W: Waiter, C: Clock>(
    alloc: Global,
    path: &[u8],
    seed: [u8; 32],
    zone: Z,
    sysfs: &mut Y,
    disk: &mut D,
    files: &mut F,
    links: &mut N,
    waiter: &mut W,
    clock: &mut C,
    panel: &mut Panel,
    turns: u64,
) -> u8
    ensures runs { RunsDaemon F.gives Y.Sysfs D.RuleDisk N.Links W.Waiter C.Clock turns
        (Z.clock zone) (words_of_seed seed)
        files.old (objects sysfs.old disk.old links.old waiter.old clock.old
        (members (λ b. ⟦<dyn Auditor as Auditor>⟧ b.vtable) panel.old))
        (Some path.now) result
        files.new (objects sysfs.new disk.new links.new waiter.new clock.new
        (members (λ b. ⟦<dyn Auditor as Auditor>⟧ b.vtable) panel.new)) }
    ensures files_failed { result ≡ 4 → Rose (F.faults files.old) (F.faults files.new) }
    ensures disk_failed { result ≡ 9 → Rose (D.faults disk.old) (D.faults disk.new) }
    ensures wait_failed { result ≡ 11 → Rose (N.faults links.old) (N.faults links.new)
        ⊎ Rose (W.faults waiter.old) (W.faults waiter.new) }
{
    match start(alloc, path, seed, zone, disk, files, panel) {
        Ok(first) => serve_started(
            alloc, first, sysfs, disk, links, waiter, clock, panel, turns,
        ),
        Err(why) => {
            let status = why.status();
            note_refusal(panel, why);
            status
        }
    }
}

/// The daemon. The words are those of the command line behind `daemon`: `--conf PATH` names the settings, or none, which are then those
/// of `/etc/usbguard/usbguard-daemon.conf`. It reads the settings, the access files and the folder of rules, starts from that folder and the
/// rule file that the settings name, listens for each user and group that may do something, in byte order, and makes that many turns. The
/// status is 0; 1 for other words; 3 where the settings' file is absent, or settings, access files or rules aren't taken; 4 where a file of
/// the configuration couldn't be read; 6 for want of memory before the first turn; 9 where the rule file couldn't be read; 10 where the
/// numbers leave no room for an event; 11 where a listener couldn't be had, or a wait failed. The auditors are given the journal.
pub fn run_daemon<
    Z: Zone + Drop,
    Y: Sysfs,
    D: RuleDisk,
    F: ConfFiles,
    N: Links,
    W: Waiter,
    C: Clock,
>(
    alloc: Global,
    words: &[&str],
    seed: [u8; 32],
    zone: Z,
    sysfs: &mut Y,
    disk: &mut D,
    files: &mut F,
    links: &mut N,
    waiter: &mut W,
    clock: &mut C,
    panel: &mut Panel,
    turns: u64,
) -> u8
    ensures runs { RunsDaemon F.gives Y.Sysfs D.RuleDisk N.Links W.Waiter C.Clock turns
        (Z.clock zone) (words_of_seed seed)
        files.old (objects sysfs.old disk.old links.old waiter.old clock.old
        (members (λ b. ⟦<dyn Auditor as Auditor>⟧ b.vtable) panel.old))
        (settings_path (map (λ word. word.now) words.now)) result
        files.new (objects sysfs.new disk.new links.new waiter.new clock.new
        (members (λ b. ⟦<dyn Auditor as Auditor>⟧ b.vtable) panel.new)) }

    ensures statuses { Has daemon_statuses result }
    ensures bad_words { result ≡ 1 → settings_path (map (λ word. word.now) words.now) ≡ None }
    ensures other_words { settings_path (map (λ word. word.now) words.now) ≡ None
        → Has (1 ∷ 6 ∷ []) result }
    ensures refused { IsStatusByTexts F.told D.told
        (settings_path (map (λ word. word.now) words.now))
        disk.old result files.new disk.new }
    ensures complete { ¬ (settings_path (map (λ word. word.now) words.now) ≡ None) → ¬ (result ≡ 3)
        → ¬ (Rose (F.faults files.old) (F.faults files.new))
        → ¬ (Rose (D.faults disk.old) (D.faults disk.new))
        → ¬ (Rose (N.faults links.old) (N.faults links.new))
        → ¬ (Rose (W.faults waiter.old) (W.faults waiter.new)) → Has (0 ∷ 6 ∷ 10 ∷ []) result }

    ensures files_failed { result ≡ 4 → Rose (F.faults files.old) (F.faults files.new) }
    ensures disk_failed { result ≡ 9 → Rose (D.faults disk.old) (D.faults disk.new) }
    ensures wait_failed { result ≡ 11 → Rose (N.faults links.old) (N.faults links.new)
        ⊎ Rose (W.faults waiter.old) (W.faults waiter.new) }

    ensures carries { TurnsTell Y.Sysfs D.RuleDisk N.Links W.Waiter C.Clock }
{
    match read_daemon_words(alloc, words) {
        Err(WordsFault::Bad) => 1,
        Err(WordsFault::Memory) => NotStarted::Memory.status(),
        Ok(path) => serve(
            alloc,
            path.bytes(),
            seed,
            zone,
            sysfs,
            disk,
            files,
            links,
            waiter,
            clock,
            panel,
            turns,
        ),
    }
}
