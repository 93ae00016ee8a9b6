// Events of a script.
ghost use Rattle.std.specs.Prelude.{◌≡◌, ◌++◌, true, false, cond, IfOk, List, OnOk, None};
ghost use Rattle.ug_core.specs.Event.{daemon_of, has_numbers};
ghost use Rattle.ug_types.specs.Events.{FitsEvent};
ghost use Rattle.ug_core.specs.Stops.{IsReadable};
ghost use Rattle.ug_script.specs.Play.{tells_memory};
ghost use Rattle.ug_iface.specs.declared.rules.IfaceRule.{IfaceRule};
ghost use Rattle.ug_script.specs.Journal.{happened_from};
ghost use Rattle.ug_script.specs.Passes.{pass_behind};
ghost use Rattle.ug_script.specs.RuleFiles.{IsStillOn};
ghost use Rattle.ug_store.specs.Scripted.{coming_up, plan_at, stops_by};
ghost use Rattle.ug_sysfs.specs.World.{World, over};
ghost use Rattle.ug_script.specs.Replay as replay;
ghost use Rattle.ug_script.specs.Replay.{IsEventPlayed, came_of, event_by, event_from};
ghost use Rattle.ug_script.specs.Script.{IsStartedBy};
ghost use Rattle.ug_script.specs.Setup.{StartsOn, after_reading, rules_from};
ghost use Rattle.ug_script.specs.Taking.{StepsToTell, ran_of, reported};

use crate::halting::Halting;
use crate::passes::pass_behind;
use crate::session::Session;
use crate::setup::Setup;
use crate::start::restart_daemon;
use crate::taken::Taken;
use crate::text::{stopped_text, tells_memory};
use std::alloc::Global;
use ug_audit::Panel;
use ug_command_io::Ran;
use ug_store::{MemDisk, Planned, RuleDisk};
use ug_sysfs::{SimKernel, Sysfs};
use ug_types::{Event, NoMemory};

fn plan_failures(disk: &mut MemDisk, plan: &[Planned]) -> Result<(), NoMemory>
    ensures ok { OnOk result (disk.new
        ≡ record disk.old { planned = disk.old.planned ++ plan.now }) }
    ensures same { IsStillOn disk.old disk.new }
{
    for planned in plan {
        disk.plan(*planned)?;
    }
    Ok(())
}

/// The calls that are to fail are those of the plan alone, and they are numbered anew.
fn begin_disk(disk: &mut MemDisk, plan: &[Planned]) -> Result<(), NoMemory>
    ensures ok { OnOk result (disk.new ≡ replay.begun_disk plan.now disk.old) }
    ensures same { IsStillOn disk.old disk.new }
{
    disk.end_event();
    disk.begin();
    plan_failures(disk, plan)
}

/// An event, which the script fixes unless it is told that memory was wanting. Nobody but the journal notes it.
fn handle(alloc: Global, session: &mut Session, event: &Event, kernel: &mut SimKernel)
    requires numbers { has_numbers (daemon_of session.old.daemon)
        kernel.old.faults session.old.disk.faults ≡ true }
    requires piece { FitsEvent event.now }
    ensures played { IsEventPlayed event.now
        (daemon_of session.old.daemon) kernel.old session.old.disk
        (daemon_of session.new.daemon) kernel.new session.new.disk }
    ensures readable { tells_memory (daemon_of session.new.daemon).sweep.entries ≡ false
        → kernel.new.ran_out ≡ false → session.new.disk.ran_out ≡ false
        → IsReadable (happened_from event.now (daemon_of session.old.daemon) kernel.old
        session.old.disk) }
    ensures all { session.new.daemon.report.entries.entries
        ≡ (daemon_of session.new.daemon).sweep.entries }
    ensures before { session.new.before ≡ session.old.before }
{
    let mut panel = Panel::new(Vec::new(alloc));
    let mut halting = Halting {};
    session.daemon.handle_between(
        alloc,
        event,
        kernel,
        &mut session.disk,
        &mut panel,
        &mut halting,
    );
}

/// What a crash might have left of the rule file is forgotten, and the text of the event and of its pass is to be written.
fn leave_event(session: &mut Session, passed: Vec<u8>) -> Taken
    requires { session.old.daemon.report.entries.entries
        ≡ (daemon_of session.old.daemon).sweep.entries }
    ensures ran { (rules : List IfaceRule) (w : World)
        → passed.items ≡ (pass_behind rules (daemon_of session.old.daemon) w).text
        → StepsToTell (replay.finished rules
        (record { daemon = daemon_of session.old.daemon; world = w; disk = session.old.disk }))
        (record {
          daemon = daemon_of session.new.daemon;
          world = over (pass_behind rules (daemon_of session.old.daemon) w).world;
          disk = session.new.disk;
        })
        (reported session.new.daemon.report) result }
    ensures taken { (¬ (result ≡ Taken.Bad)) × (¬ (result ≡ Taken.TooLong)) }
    ensures before { session.new.before ≡ session.old.before }
{
    match session.disk.forget() {
        Ok(()) => Taken::Event(passed),
        Err(_) => Taken::Memory,
    }
}

/// The pass behind an event that was handled, and the text of both.
#[tactic(auto, using(crate::proofs::EventSteps::memory_steps))]
fn finish_event(
    alloc: Global,
    setup: &Setup,
    session: &mut Session,
    kernel: &mut SimKernel,
) -> Taken
    requires { session.old.daemon.report.entries.entries
        ≡ (daemon_of session.old.daemon).sweep.entries }
    ensures ran { StepsToTell (replay.finished setup.now.ifaces
        (record {
          daemon = daemon_of session.old.daemon;
          world = kernel.old;
          disk = session.old.disk;
        }))
        (record {
          daemon = daemon_of session.new.daemon;
          world = kernel.new;
          disk = session.new.disk;
        })
        (reported session.new.daemon.report) result }
    ensures taken { (¬ (result ≡ Taken.Bad)) × (¬ (result ≡ Taken.TooLong)) }
    ensures before { session.new.before ≡ session.old.before }
{
    match pass_behind(alloc, &session.daemon, setup.ifaces.as_slice(), kernel) {
        Ok(passed) => {
            if kernel.ran_out() {
                return Taken::Memory;
            }
            kernel.end_event();
            leave_event(session, passed)
        }
        Err(_) => Taken::Memory,
    }
}

/// Whether the last plan for a call stops the machine in it.
fn stops_at(plan: &[Planned], call: u64) -> bool
    ensures { result ≡ stops_by (plan_at call None plan.now) }
{
    let mut found = None;
    for planned in plan {
        if planned.call == call {
            found = Some(*planned);
        }
    }
    match found {
        None => false,
        Some(planned) => planned.stops,
    }
}

/// The call, if the machine is to stop in it, else the other one.
fn stop_or(plan: &[Planned], call: u64, other: u64) -> u64
    ensures { result ≡ cond (stops_by (plan_at call None plan.now)) call other }
{
    if stops_at(plan, call) { call } else { other }
}

/// The first of so many calls in which the machine is to stop.
fn first_stop(plan: &[Planned], calls: u64) -> u64
    ensures { result ≡ replay.first_stop plan.now 0 calls }
{
    let mut first = 0;
    let mut call = calls;
    while call > 0 {
        first = stop_or(plan, call, first);
        call -= 1;
    }
    first
}

/// The machine comes up again, and a new daemon is started.
fn begin_again(alloc: Global, setup: &Setup, session: &mut Session) -> Result<(), NoMemory>
    requires session { IsStartedBy setup.now session.old }
    ensures started { OnOk result (StartsOn setup.now (daemon_of session.old.daemon).event
        (coming_up session.old.disk) (daemon_of session.new.daemon)) }
    ensures read { OnOk result (session.new.disk ≡ after_reading (coming_up session.old.disk)) }
    ensures before { session.new.before ≡ session.old.before }
{
    session.disk.come_up()?;
    restart_daemon(alloc, setup, session)
}

/// A new daemon is started behind an event in which the machine stopped in that call. The event's text is given.
fn restart_behind(
    alloc: Global,
    setup: &Setup,
    session: &mut Session,
    call: u64,
) -> Result<Vec<u8>, NoMemory>
    requires entries { session.old.daemon.report.entries.entries
        ≡ (daemon_of session.old.daemon).sweep.entries }
    requires session { IsStartedBy setup.now session.old }
    ensures text { IfOk result (λ text. text.items
        ≡ replay.stopped_text call (daemon_of session.old.daemon).sweep.entries) }
    ensures started { OnOk result (StartsOn setup.now (daemon_of session.old.daemon).event
        (coming_up session.old.disk) (daemon_of session.new.daemon)) }
    ensures read { OnOk result (session.new.disk ≡ after_reading (coming_up session.old.disk)) }
    ensures before { session.new.before ≡ session.old.before }
{
    let text = stopped_text(alloc, session.daemon.report().entries.as_slice(), call)?;
    begin_again(alloc, setup, session)?;
    Ok(text)
}

/// The same, and the text is to be written.
#[tactic(auto, using(crate::proofs::EventSteps::memory_steps))]
fn stop_event(alloc: Global, setup: &Setup, session: &mut Session, call: u64) -> Taken
    requires entries { session.old.daemon.report.entries.entries
        ≡ (daemon_of session.old.daemon).sweep.entries }
    requires session { IsStartedBy setup.now session.old }
    ensures ran { (w : World) → StepsToTell (replay.stopped_of setup.now call
        (record { daemon = daemon_of session.old.daemon; world = w; disk = session.old.disk })
        (rules_from setup.now.folder.count session.old.disk.disk.text))
        (record { daemon = daemon_of session.new.daemon; world = over w; disk = session.new.disk })
        (reported session.new.daemon.report) result }
    ensures taken { (¬ (result ≡ Taken.Bad)) × (¬ (result ≡ Taken.TooLong)) }
    ensures before { session.new.before ≡ session.old.before }
{
    match restart_behind(alloc, setup, session, call) {
        Ok(text) => Taken::Text(text),
        Err(_) => Taken::Memory,
    }
}

/// An event over a disk that has begun it, and its text.
#[tactic(auto, using(crate::proofs::EventSteps::memory_steps))]
fn play_event(
    alloc: Global,
    setup: &Setup,
    session: &mut Session,
    plan: &[Planned],
    event: &Event,
    kernel: &mut SimKernel,
) -> Taken
    requires numbers { has_numbers (daemon_of session.old.daemon)
        kernel.old.faults session.old.disk.faults ≡ true }
    requires piece { FitsEvent event.now }
    requires session { IsStartedBy setup.now session.old }
    ensures ran { StepsToTell (came_of setup.now plan.now
        (event_from event.now (daemon_of session.old.daemon) kernel.old session.old.disk))
        (record {
          daemon = daemon_of session.new.daemon;
          world = kernel.new;
          disk = session.new.disk;
        })
        (reported session.new.daemon.report) result }
    ensures readable { ran_of result ≡ Ran.Done → IsReadable (happened_from event.now
        (daemon_of session.old.daemon) kernel.old session.old.disk) }
    ensures taken { (¬ (result ≡ Taken.Bad)) × (¬ (result ≡ Taken.TooLong)) }
    ensures before { session.new.before ≡ session.old.before }
{
    handle(alloc, session, event, kernel);
    let noted = session.daemon.report().entries.as_slice();
    if kernel.ran_out() || session.disk.ran_out() || tells_memory(noted) {
        return Taken::Memory;
    }
    if session.disk.stopped() {
        kernel.end_event();
        let call = first_stop(plan, session.disk.calls());
        return stop_event(alloc, setup, session, call);
    }
    finish_event(alloc, setup, session, kernel)
}

/// An event and its text, unless the numbers have run out.
#[tactic(auto, using(crate::proofs::EventSteps::memory_steps))]
pub fn next_event(
    alloc: Global,
    setup: &Setup,
    session: &mut Session,
    plan: &[Planned],
    event: &Event,
    kernel: &mut SimKernel,
) -> Taken
    requires session { IsStartedBy setup.now session.old }
    requires piece { FitsEvent event.now }
    ensures ran { StepsToTell (event_by setup.now event.now plan.now
        (daemon_of session.old.daemon) kernel.old session.old.disk)
        (record {
          daemon = daemon_of session.new.daemon;
          world = kernel.new;
          disk = session.new.disk;
        })
        (reported session.new.daemon.report) result }
    ensures readable { ran_of result ≡ Ran.Done → IsReadable (happened_from event.now
        (daemon_of session.old.daemon) kernel.old (replay.begun_disk plan.now session.old.disk)) }
    ensures numbers { result ≡ Taken.Bad
        → has_numbers (daemon_of session.old.daemon) kernel.old.faults session.old.disk.faults
        ≡ false }
    ensures short { ¬ (result ≡ Taken.TooLong) }
    ensures before { session.new.before ≡ session.old.before }
{
    if !session
        .daemon
        .has_numbers(kernel.faults(), session.disk.faults())
    {
        return Taken::Bad;
    }
    match begin_disk(&mut session.disk, plan) {
        Ok(()) => play_event(alloc, setup, session, plan, event, kernel),
        Err(_) => Taken::Memory,
    }
}
