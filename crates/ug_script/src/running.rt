// A script whose first line was read.
ghost use Rattle.std.specs.Prelude.{◌≡◌, ◌-◌, ◌++◌, ◌∷◌, [], ℕ, false, List, Option, Some, IfOk, OnOk};
ghost use Rattle.ug_command_io.specs.Runs.{Steps};
ghost use Rattle.ug_lines.specs.Lines.{lines_of};
ghost use Rattle.ug_sysfs.specs.World.{World, carried};
ghost use Rattle.ug_script.specs.Generating as generating;
ghost use Rattle.ug_script.specs.Generating.{devices_moved, skimmed, skimmed_if};
ghost use Rattle.ug_steps.specs.Grammar.{AsksForRule, AsksForRules, step_of_line};
ghost use Rattle.ug_types.specs.Events.{FitsEvent};
ghost use Rattle.ug_core.specs.Stops.{IsReadable};
ghost use Rattle.ug_script.specs.Journal.{happened_from};
ghost use Rattle.ug_script.specs.LinesRead.{FirstReads, StepReads};
ghost use Rattle.ug_script.specs.Replay as replay;
ghost use Rattle.ug_script.specs.Script as script;
ghost use Rattle.ug_script.specs.Script.{IsStartedBy, can_start, daemon_in, disk_in, fresh, phase_of, with_setup_closed};
ghost use Rattle.ug_script.specs.Setup.{rules_from};
ghost use Rattle.ug_script.specs.Summing.{with_lines};
ghost use Rattle.ug_script.specs.Taking.{StepsToTell, ran_of, reported, reported_in};
ghost use Rattle.ug_store.specs.declared.mishap.Planned.{Planned};
ghost use Rattle.ug_core.specs.Event.{daemon_of, has_numbers};
ghost use Rattle.ug_script.specs.Replay.{StartsAgain, event_by, event_taken, line_taken, outcome_text, restart_taken, restarted, script_of, started_script, taken, taken_if, with_plan};

use crate::events::next_event;
use crate::progress::{Phase, Running};
use crate::session::Session;
use crate::setup::Setup;
use crate::start::{restart_daemon, start_daemon};
use crate::taken::{Taken, silently};
use crate::text::whole_text;
use crate::totals::Totals;
use std::alloc::Global;
use std::mem::replace;
use ug_command_io::Ran;
use ug_print::RulesTextFault;
use ug_steps::{Plan, SetupLine, Step, StepFault, parse_line};
use ug_store::Planned;
use ug_sysfs::{Move, SimKernel};
use ug_types::{Event, NoMemory};

fn takes_setup(phase: &Phase) -> bool
    ensures { result ≡ script.takes_setup (phase_of phase.now) }
{
    matches!(phase, Phase::SettingUp)
}

fn add_planned(plan: &mut Vec<Planned>, planned: Planned) -> Result<(), NoMemory>
    ensures { OnOk result (plan.new.items ≡ plan.old.items ++ planned ∷ []) }
{
    plan.push(planned)?;
    Ok(())
}

/// The next event, which takes what was planned for the disk.
fn planned_event(
    alloc: Global,
    setup: &Setup,
    session: &mut Session,
    plan: &mut Vec<Planned>,
    event: &Event,
    kernel: &mut SimKernel,
) -> Taken
    requires session { IsStartedBy setup.now session.old }
    requires piece { FitsEvent event.now }
    ensures ran { StepsToTell (event_by setup.now event.now plan.old.items
        (daemon_of session.old.daemon) kernel.old session.old.disk)
        (record {
          daemon = daemon_of session.new.daemon;
          world = kernel.new;
          disk = session.new.disk;
        })
        (reported session.new.daemon.report) result }
    ensures readable { ran_of result ≡ Ran.Done → IsReadable (happened_from event.now
        (daemon_of session.old.daemon) kernel.old
        (replay.begun_disk plan.old.items session.old.disk)) }
    ensures numbers { result ≡ Taken.Bad
        → has_numbers (daemon_of session.old.daemon) kernel.old.faults session.old.disk.faults
        ≡ false }
    ensures short { ¬ (result ≡ Taken.TooLong) }
    ensures planned { plan.new.items ≡ [] }
    ensures before { session.new.before ≡ session.old.before }
{
    let ran = next_event(alloc, setup, session, plan.as_slice(), event, kernel);
    plan.clear();
    ran
}

/// Another daemon in place of that one, where the rule file gives one.
fn restart_session(alloc: Global, setup: &Setup, session: &mut Session) -> Ran
    requires session { IsStartedBy setup.now session.old }
    ensures silent { ¬ (result ≡ Ran.SinkFailed) }
    ensures given { (¬ (result ≡ Ran.Bad)) × (¬ (result ≡ Ran.TooLong)) }
    ensures ran { (plan : List Planned) (w : World) (held : Option (List ℕ))
        → Steps (restarted (rules_from setup.now.folder.count session.old.disk.disk.text)
        (started_script setup.now session.old plan) w)
        (Some (started_script setup.now session.new plan), w) held held result }
    ensures before { session.new.before ≡ session.old.before }
{
    match restart_daemon(alloc, setup, session) {
        Ok(()) => Ran::Done,
        Err(NoMemory) => Ran::Memory,
    }
}

impl Running {
    pub fn start(alloc: Global) -> Result<Running, NoMemory>
        ensures { IfOk result (λ r. script_of r ≡ fresh) }
    {
        Ok(Running {
            setup: Setup::new(alloc)?,
            phase: Phase::SettingUp,
            plan: Vec::new(alloc),
        })
    }

    /// The number of events.
    pub fn events(&self) -> u64
        ensures { result ≡ (daemon_in (script_of self.now)).event - 1 }
    {
        match &self.phase {
            Phase::Started(session) => session.daemon.next_event().saturating_sub(1),
            _ => 0,
        }
    }

    /// Whether generated rules name ports.
    pub fn names_ports(&self) -> bool
        ensures { result ≡ generating.names_ports self.now.setup }
    {
        self.setup.settings.so_far().with_port
    }

    /// The text of the last event, as the daemon reports it, and another one behind it.
    pub fn event_text(&self, alloc: Global, passed: &[u8]) -> Result<Vec<u8>, NoMemory>
        ensures { IfOk result (λ text. text.items
            ≡ outcome_text (reported_in self.now.phase) ++ passed.now) }
    {
        if let Phase::Started(session) = &self.phase {
            return whole_text(alloc, session.daemon.report(), passed);
        }
        let mut text = Vec::new(alloc);
        text.extend_from_slice(passed)?;
        Ok(text)
    }

    /// Numbers with those of that text.
    pub fn event_totals(
        &self,
        alloc: Global,
        totals: Totals,
        passed: &[u8],
    ) -> Result<Totals, NoMemory>
        ensures { IfOk result (λ t. t
            ≡ with_lines (lines_of (outcome_text (reported_in self.now.phase) ++ passed.now))
            totals) }
    {
        if let Phase::Started(session) = &self.phase {
            return totals.with_event(alloc, session.daemon.report(), passed);
        }
        Ok(totals.with_text(passed))
    }

    fn close(&mut self)
        ensures { script_of self.new ≡ with_setup_closed (script_of self.old) }
    {
        if takes_setup(&self.phase) {
            replace(&mut self.phase, Phase::Unstarted).discard();
        }
    }

    /// StepsToTell a line of setup, and writes nothing.
    fn set_up(&mut self, line: SetupLine) -> Ran
        requires { AsksForRule line }
        ensures silent { ¬ (result ≡ Ran.SinkFailed) }
        ensures ran { (w : World) (held : Option (List ℕ))
            → Steps (line_taken line (script_of self.old) w)
            (Some (script_of self.new), w) held held result }
    {
        if !takes_setup(&self.phase) {
            line.discard();
            return Ran::Bad;
        }
        match self.setup.add(line) {
            Ok(()) => Ran::Done,
            Err(StepFault::Bad) => Ran::Bad,
            Err(StepFault::Memory) => Ran::Memory,
        }
    }

    /// StepsToTell what the kernel does by itself, and writes nothing.
    fn carry_out(&mut self, action: Move, kernel: &mut SimKernel) -> Ran
        ensures silent { ¬ (result ≡ Ran.SinkFailed) }
        ensures ran { (held : Option (List ℕ))
            → Steps (replay.quiet (with_setup_closed (script_of self.old))
            (carried action kernel.old))
            (Some (script_of self.new), kernel.new) held held result }
    {
        self.close();
        match kernel.carry_out(action) {
            Ok(()) => Ran::Done,
            Err(_) => Ran::Memory,
        }
    }

    /// The same for a move of devices. One of an interface is only read.
    fn move_devices(&mut self, action: Move, kernel: &mut SimKernel) -> Ran
        ensures silent { ¬ (result ≡ Ran.SinkFailed) }
        ensures ran { (held : Option (List ℕ))
            → Steps (replay.quiet (with_setup_closed (script_of self.old))
            (devices_moved action kernel.old))
            (Some (script_of self.new), kernel.new) held held result }
    {
        match action {
            Move::Plug(device) => self.carry_out(Move::Plug(device), kernel),
            Move::Unplug(name) => self.carry_out(Move::Unplug(name), kernel),
            Move::Iface(_) => {
                action.discard();
                self.close();
                Ran::Done
            }
        }
    }

    /// StepsToTell the first event, which starts the daemon.
    fn first_event(&mut self, alloc: Global, event: &Event, kernel: &mut SimKernel) -> Taken
        requires unstarted { script.has_started (phase_of self.old.phase) ≡ false }
        requires piece { FitsEvent event.now }
        ensures ran { StepsToTell (event_taken event.now (script_of self.old) kernel.old)
            (Some (script_of self.new), kernel.new) (reported_in self.new.phase) result }
        ensures readable { ran_of result ≡ Ran.Done
            → StepReads (Some (Step.Event event.now)) (script_of self.old) kernel.old }
        ensures numbers { result ≡ Taken.Bad
            → has_numbers (daemon_in (script_of self.old)) kernel.old.faults
            (disk_in (script_of self.old)).faults ≡ false }
        ensures short { result ≡ Taken.TooLong
            → can_start (script_of self.old).setup (script_of self.old).phase ≡ false }
    {
        match start_daemon(alloc, &self.setup) {
            Ok(session) => {
                let mut session = session;
                let setup = &self.setup;
                let plan = &mut self.plan;
                let ran = planned_event(alloc, setup, &mut session, plan, event, kernel);
                replace(&mut self.phase, Phase::Started(session)).discard();
                ran
            }
            Err(RulesTextFault::TooLong) => Taken::TooLong,
            Err(RulesTextFault::Memory) => Taken::Memory,
        }
    }

    /// Starts the first daemon, and then another in its place.
    fn first_restart(&mut self, alloc: Global) -> Ran
        requires { script.has_started (phase_of self.old.phase) ≡ false }
        ensures silent { ¬ (result ≡ Ran.SinkFailed) }
        ensures given { ¬ (result ≡ Ran.Bad) }
        ensures readable { result ≡ Ran.Done → FirstReads (script_of self.old) }
        ensures short { result ≡ Ran.TooLong
            → can_start (script_of self.old).setup (script_of self.old).phase ≡ false }
        ensures ran { (w : World) (held : Option (List ℕ))
            → Steps (restart_taken (script_of self.old) w)
            (Some (script_of self.new), w) held held result }
    {
        match start_daemon(alloc, &self.setup) {
            Ok(session) => {
                let mut session = session;
                let ran = restart_session(alloc, &self.setup, &mut session);
                replace(&mut self.phase, Phase::Started(session)).discard();
                ran
            }
            Err(RulesTextFault::TooLong) => Ran::TooLong,
            Err(RulesTextFault::Memory) => Ran::Memory,
        }
    }

    /// Another daemon over the same disk, in place of the one that there is, or of the first one.
    fn restart(&mut self, alloc: Global) -> Ran
        ensures silent { ¬ (result ≡ Ran.SinkFailed) }
        ensures given { ¬ (result ≡ Ran.Bad) }
        ensures readable { result ≡ Ran.Done → FirstReads (script_of self.old) }
        ensures short { result ≡ Ran.TooLong
            → can_start (script_of self.old).setup (script_of self.old).phase ≡ false }
        ensures ran { (w : World) (held : Option (List ℕ))
            → Steps (restart_taken (script_of self.old) w)
            (Some (script_of self.new), w) held held result }
    {
        if let Phase::Started(session) = &mut self.phase {
            return restart_session(alloc, &self.setup, session);
        }
        self.first_restart(alloc)
    }

    fn event(&mut self, alloc: Global, event: &Event, kernel: &mut SimKernel) -> Taken
        requires piece { FitsEvent event.now }
        ensures ran { StepsToTell (event_taken event.now (script_of self.old) kernel.old)
            (Some (script_of self.new), kernel.new) (reported_in self.new.phase) result }
        ensures readable { ran_of result ≡ Ran.Done
            → StepReads (Some (Step.Event event.now)) (script_of self.old) kernel.old }
        ensures numbers { result ≡ Taken.Bad
            → has_numbers (daemon_in (script_of self.old)) kernel.old.faults
            (disk_in (script_of self.old)).faults ≡ false }
        ensures short { result ≡ Taken.TooLong
            → can_start (script_of self.old).setup (script_of self.old).phase ≡ false }
    {
        if let Phase::Started(session) = &mut self.phase {
            let setup = &self.setup;
            let plan = &mut self.plan;
            return planned_event(alloc, setup, session, plan, event, kernel);
        }
        self.first_event(alloc, event, kernel)
    }

    /// StepsToTell what is to come at a call of the next event, and writes nothing.
    fn schedule(&mut self, plan: Plan, kernel: &mut SimKernel) -> Ran
        ensures silent { ¬ (result ≡ Ran.SinkFailed) }
        ensures ran { (held : Option (List ℕ))
            → Steps (replay.quiet (with_plan plan (with_setup_closed (script_of self.old)))
            (replay.planned plan kernel.old))
            (Some (script_of self.new), kernel.new) held held result }
    {
        self.close();
        let scheduled = match plan {
            Plan::Move(next) => kernel.schedule(next.call, next.after, next.action),
            Plan::Fail(failing) => kernel.fail(failing.call, failing.effect),
            Plan::OnDisk(planned) => add_planned(&mut self.plan, planned),
        };
        match scheduled {
            Ok(()) => Ran::Done,
            Err(_) => Ran::Memory,
        }
    }

    /// StepsToTell a line behind the first.
    pub fn line(&mut self, alloc: Global, line: &[u8], kernel: &mut SimKernel) -> Taken
        ensures ran { StepsToTell (taken_if (step_of_line line.now) (script_of self.old) kernel.old)
            (Some (script_of self.new), kernel.new) (reported_in self.new.phase) result }
        ensures why { StartsAgain (step_of_line line.now) (script_of self.old) kernel.old
            (ran_of result) }
        ensures readable { ran_of result ≡ Ran.Done
            → StepReads (step_of_line line.now) (script_of self.old) kernel.old }
    {
        match parse_line(alloc, line) {
            Ok(step) => self.take(alloc, step, kernel),
            Err(StepFault::Bad) => Taken::Bad,
            Err(StepFault::Memory) => Taken::Memory,
        }
    }

    /// StepsToTell a line's step.
    fn take(&mut self, alloc: Global, step: Step, kernel: &mut SimKernel) -> Taken
        requires { AsksForRules step }
        ensures ran { StepsToTell (taken step (script_of self.old) kernel.old)
            (Some (script_of self.new), kernel.new) (reported_in self.new.phase) result }
        ensures why { StartsAgain (Some step) (script_of self.old) kernel.old (ran_of result) }
        ensures readable { ran_of result ≡ Ran.Done
            → StepReads (Some step) (script_of self.old) kernel.old }
    {
        match step {
            Step::Skip => {
                step.discard();
                Taken::Silent
            }
            Step::Setup(line) => silently(self.set_up(line)),
            Step::Move(action) => silently(self.carry_out(action, kernel)),
            Step::Schedule(plan) => silently(self.schedule(plan, kernel)),
            Step::Event(event) => {
                let taken = self.event(alloc, &event, kernel);
                event.discard();
                taken
            }
            Step::Restart => {
                step.discard();
                silently(self.restart(alloc))
            }
        }
    }

    /// StepsToTell a line behind the first for `generate-policy`. It writes nothing.
    pub fn skim(&mut self, alloc: Global, line: &[u8], kernel: &mut SimKernel) -> Ran
        ensures silent { ¬ (result ≡ Ran.SinkFailed) }
        ensures ran { (held : Option (List ℕ))
            → Steps (skimmed_if (step_of_line line.now) (script_of self.old) kernel.old)
            (Some (script_of self.new), kernel.new) held held result }
    {
        match parse_line(alloc, line) {
            Ok(step) => self.skim_step(step, kernel),
            Err(StepFault::Bad) => Ran::Bad,
            Err(StepFault::Memory) => Ran::Memory,
        }
    }

    fn skim_step(&mut self, step: Step, kernel: &mut SimKernel) -> Ran
        requires { AsksForRules step }
        ensures silent { ¬ (result ≡ Ran.SinkFailed) }
        ensures ran { (held : Option (List ℕ))
            → Steps (skimmed step (script_of self.old) kernel.old)
            (Some (script_of self.new), kernel.new) held held result }
    {
        match step {
            Step::Skip => {
                step.discard();
                Ran::Done
            }
            Step::Setup(line) => self.set_up(line),
            Step::Move(action) => self.move_devices(action, kernel),
            Step::Schedule(_) | Step::Event(_) | Step::Restart => {
                step.discard();
                self.close();
                Ran::Done
            }
        }
    }
}
