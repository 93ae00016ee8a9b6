// A disk in memory, which goes by a script.
ghost use Rattle.std.specs.Prelude.{◌≡◌, ◌⊎◌, ◌||◌, ◌++◌, ◌∷◌, [], true, false, None, IsOk, IfOk, OnOk, OnErr};
ghost use Rattle.ug_store.specs.MemLaw.{mem_did, mem_counted};
ghost use Rattle.ug_store.specs.Passed.{any_settles};
ghost use Rattle.ug_store.specs.Scripted.{coming_up, fate_by, stops_by, forgetting, world_at_first, plan_at, takes_effect, goes_well, answer_of_fate, faults_by, written_if, traded_if, loaded_of, one_up, begun_on, over_on, disk_told, MemKeeps, IsNoted};

use crate::disk::{DiskAnswer, Loaded, RuleDisk};
use crate::mishap::{Mishap, Planned};
use std::alloc::Global;
use std::marker::Model;
use std::mem;
use ug_types::{NoMemory, TEXT_LIMIT, Text};

/// What a call that is past says of what a crash leaves.
#[derive(Drop)]
pub enum Passed {
    /// It left that as it was.
    Quiet,
    /// The new text was to take the old one's place.
    Swap {
        fresh: Text,
        synced: bool,
        done: bool,
    },
}

/// A rule file in memory. Its script fixes each answer, except where memory is refused. Where an entry of its calls
/// finds no memory, it runs out: its calls fail from then on, and it tells no disk.
#[derive(Drop)]
pub struct MemDisk {
    alloc: Global,
    first: Text,
    // the calls before the last `forget`, as far as they still count, and those since
    earlier: Vec<Passed>,
    passed: Vec<Passed>,
    text: Text,
    fresh: Text,
    synced: bool,
    planned: Vec<Planned>,
    stopped: bool,
    calls: u64,
    faults: u64,
    ran_out: bool,
}

impl Model for MemDisk {
    ghost use Rattle.std.specs.Prelude.{[], ◌∷◌};
    ghost use Rattle.ug_store.specs.Disk.{Texts};
    ghost use Rattle.ug_store.specs.Passed.{left_now, left_so_far};
    ghost use Rattle.ug_store.specs.Scripted.{DiskWorld};

    ghost Value = { DiskWorld };

    ghost view = { λ s. record {
      disk = record {
        text = s.text;
        fresh = s.fresh;
        synced = s.synced;
        left = left_now (left_now (Texts (s.first ∷ [])) s.earlier.items) s.passed.items;
        past = left_so_far (left_now (Texts (s.first ∷ [])) s.earlier.items) s.passed.items;
      };
      planned = s.planned.items;
      stopped = s.stopped;
      calls = s.calls;
      faults = s.faults;
      ran_out = s.ran_out;
    } };
}

impl MemDisk {
    /// Drops it. A crate that calls this need not prove how its parts are dropped.
    pub fn discard(self) {}

    /// An empty rule file. It takes no memory.
    pub fn new(alloc: Global) -> MemDisk
        ensures { result ≡ world_at_first [] }
    {
        MemDisk::holding(alloc, Text::new(alloc), Text::new(alloc))
    }

    /// A rule file of that text.
    pub fn with_text(alloc: Global, text: &[u8]) -> Result<MemDisk, NoMemory>
        ensures { IfOk result (λ disk. disk ≡ world_at_first text.now) }
    {
        let first = Text::of(alloc, text)?;
        let text = Text::of(alloc, text)?;
        Ok(MemDisk::holding(alloc, first, text))
    }

    fn holding(alloc: Global, first: Text, text: Text) -> MemDisk
        requires { first ≡ text }
        ensures { result ≡ world_at_first text }
    {
        MemDisk {
            alloc,
            first,
            earlier: Vec::new(alloc),
            passed: Vec::new(alloc),
            text,
            fresh: Text::new(alloc),
            synced: false,
            planned: Vec::new(alloc),
            stopped: false,
            calls: 0,
            faults: 0,
            ran_out: false,
        }
    }

    /// Begins an event: its calls are numbered from 1. Reading isn't numbered.
    pub fn begin(&mut self)
        ensures { self.new ≡ begun_on self.old }
    {
        self.calls = 0;
        self.stopped = false;
    }

    /// A call of the event that is to fail. The last plan for a call counts.
    pub fn plan(&mut self, planned: Planned) -> Result<(), NoMemory>
        ensures ok { OnOk result
            (self.new ≡ record self.old { planned = self.old.planned ++ planned ∷ [] }) }
        ensures err { OnErr result (self.new ≡ self.old) }
    {
        self.planned.push(planned)?;
        Ok(())
    }

    /// The same for a call that fails alone.
    pub fn fail(&mut self, call: u64, mishap: Mishap) -> Result<(), NoMemory>
        ensures ok { OnOk result (self.new ≡ record self.old {
          planned = self.old.planned ++ record { call = call; mishap = mishap; stops = false } ∷ [];
        }) }
        ensures err { OnErr result (self.new ≡ self.old) }
    {
        self.plan(Planned {
            call,
            mishap,
            stops: false,
        })
    }

    /// Whether the machine has stopped in a call of the event.
    pub fn stopped(&self) -> bool
        ensures { result ≡ self.now.stopped }
    {
        self.stopped
    }

    /// The machine comes up again behind a stop.
    pub fn come_up(&mut self) -> Result<(), NoMemory>
        ensures ok { OnOk result (self.new ≡ coming_up self.old) }
        ensures err { OnErr result (self.new ≡ self.old) }
    {
        let first = Text::of(self.alloc, self.text.bytes())?;
        self.first = first;
        self.earlier.clear();
        self.passed.clear();
        self.fresh = Text::new(self.alloc);
        self.synced = false;
        self.stopped = false;
        Ok(())
    }

    /// The event is over: no call is to fail any more.
    pub fn end_event(&mut self)
        ensures { self.new ≡ over_on self.old }
    {
        self.planned.clear();
    }

    /// Forgets what a crash might have left within the calls so far. Each call adds to that, and each swap its text: who
    /// forgets after each event keeps no more than since the last event with a save that was done.
    #[tactic(auto, using(crate::proofs::Passing::left_now_joined, crate::proofs::Passing::left_now_settled))]
    pub fn forget(&mut self) -> Result<(), NoMemory>
        ensures ok { OnOk result (self.new ≡ forgetting self.old) }
        ensures err { OnErr result (self.new ≡ self.old) }
    {
        if any_settles(&self.passed) {
            self.earlier = mem::replace(&mut self.passed, Vec::new(self.alloc));
            Ok(())
        } else {
            self.earlier.append(&mut self.passed)?;
            Ok(())
        }
    }

    /// The rule file's text.
    pub fn text(&self) -> &[u8]
        ensures { result.now ≡ self.now.disk.text }
    {
        self.text.bytes()
    }

    /// The number of the event's last call.
    pub fn calls(&self) -> u64
        ensures { result ≡ self.now.calls }
    {
        self.calls
    }

    /// Whether an entry of the calls found no memory.
    pub fn ran_out(&self) -> bool
        ensures { result ≡ self.now.ran_out }
    {
        self.ran_out
    }

    // Notes a call, unless there is no memory for its entry, or was none before.
    #[tactic(auto, using(crate::proofs::Passing::left_now_more, crate::proofs::Passing::left_so_far_more))]
    fn enter(&mut self, passed: Passed) -> bool
        ensures { IsNoted self.old passed result self.new }
    {
        if self.ran_out {
            self.faults = one_up(self.faults);
            return false;
        }
        match self.passed.push(passed) {
            Ok(_) => true,
            Err(_) => {
                self.run_out();
                false
            }
        }
    }

    fn run_out(&mut self)
        ensures { self.new ≡ record self.old { faults = one_up self.old.faults; ran_out = true } }
    {
        self.faults = one_up(self.faults);
        self.ran_out = true;
    }

    // How the call is to fail, if it is.
    fn fate(&self, swaps: bool) -> Option<Mishap>
        ensures { result ≡ fate_by self.now.stopped swaps
            (plan_at self.now.calls None self.now.planned) }
    {
        fate_by(self.stopped, swaps, plan_at(&self.planned, self.calls))
    }

    // The machine may stop in this call.
    fn stop_here(&mut self)
        ensures { self.new ≡ record self.old {
          stopped = self.old.stopped
              || stops_by (plan_at self.old.calls None self.old.planned);
        } }
    {
        self.stopped = self.stopped || stops_by(plan_at(&self.planned, self.calls));
    }

    fn answer(&mut self, fate: Option<Mishap>) -> DiskAnswer
        ensures answer { result ≡ answer_of_fate fate }
        ensures counted { self.new ≡ record self.old { faults = faults_by fate self.old.faults } }
    {
        match fate {
            None => DiskAnswer::Done,
            Some(_) => {
                self.faults = one_up(self.faults);
                DiskAnswer::Failed
            }
        }
    }

    // The new file gets its text, where the call has its effect.
    fn put(&mut self, fate: Option<Mishap>, text: Text)
        ensures { self.new ≡ record self.old
            { disk = written_if (takes_effect fate) text self.old.disk } }
    {
        if takes_effect(fate) {
            self.fresh = text;
            self.synced = false;
        }
    }

    // The new file takes the rule file's place, where the call has its effect.
    fn trade(&mut self, fate: Option<Mishap>)
        ensures { self.new ≡ record self.old
            { disk = traded_if (takes_effect fate) self.old.disk } }
    {
        if takes_effect(fate) {
            self.text = mem::replace(&mut self.fresh, Text::new(self.alloc));
            self.synced = false;
        }
    }
}

// Whether a swap was done.
fn any_settles(passed: &[Passed]) -> bool
    ensures { result ≡ any_settles passed.now }
{
    for call in passed {
        if matches!(call, Passed::Swap { done: true, .. }) {
            return true;
        }
    }
    false
}

// What is planned for a call, if anything is.
fn plan_at(planned: &[Planned], call: u64) -> Option<Planned>
    ensures { result ≡ plan_at call None planned.now }
{
    let mut found = None;
    for plan in planned {
        if plan.call == call {
            found = Some(*plan);
        }
    }
    found
}

fn fate_by(stopped: bool, swaps: bool, plan: Option<Planned>) -> Option<Mishap>
    ensures { result ≡ fate_by stopped swaps plan }
{
    if stopped {
        return Some(Mishap::NoEffect);
    }
    match plan {
        None => None,
        Some(planned) if planned.stops && !swaps => Some(Mishap::NoEffect),
        Some(planned) => Some(planned.mishap),
    }
}

fn stops_by(plan: Option<Planned>) -> bool
    ensures { result ≡ stops_by plan }
{
    match plan {
        None => false,
        Some(planned) => planned.stops,
    }
}

fn takes_effect(fate: Option<Mishap>) -> bool
    ensures { result ≡ takes_effect fate }
{
    !matches!(&fate, Some(Mishap::NoEffect))
}

fn goes_well(fate: Option<Mishap>) -> bool
    ensures { result ≡ goes_well fate }
{
    fate.is_none()
}

fn one_up(n: u64) -> u64
    ensures { result ≡ one_up n }
{
    if n < u64::MAX { n + 1 } else { n }
}

// What a reading of that text gives.
fn read(alloc: Global, text: &[u8]) -> Loaded
    ensures { (result ≡ loaded_of text.now) ⊎ (result ≡ Loaded.Memory) }
{
    if text.len() > TEXT_LIMIT {
        return Loaded::TooLong;
    }
    if text.is_empty() {
        return Loaded::Absent;
    }
    match Text::of(alloc, text) {
        Ok(copy) => Loaded::Bytes(copy),
        Err(_) => Loaded::Memory,
    }
}

impl RuleDisk for MemDisk {
    ghost keeps = { MemKeeps };

    ghost told = { disk_told };

    ghost faults = { λ w. w.faults };

    ghost aimed = { λ w path. Unit {0} };

    ghost did = { mem_did };

    ghost counted = { mem_counted };

    ghost stays = { λ s call answer t path keeps aimed. aimed };

    /// It changes nothing.
    fn aim(&mut self, _alloc: Global, _path: &[u8]) -> Result<(), NoMemory>
        ensures done { IsOk result }
        ensures same { self.new ≡ self.old }
        ensures told { disk_told self.new ≡ disk_told self.old }
        ensures faults { self.new.faults ≡ self.old.faults }
        ensures aimed { OnOk result (Unit {0}) }
    {
        Ok(())
    }

    fn load(&mut self, alloc: Global) -> Loaded {
        if !self.enter(Passed::Quiet) {
            return Loaded::Failed;
        }
        read(alloc, self.text.bytes())
    }

    fn write_new(&mut self, alloc: Global, text: &[u8]) -> DiskAnswer {
        self.calls = one_up(self.calls);
        if !self.enter(Passed::Quiet) {
            return DiskAnswer::Failed;
        }
        let fate = self.fate(false);
        match Text::of(alloc, text) {
            Ok(copy) => self.put(fate, copy),
            Err(_) => return DiskAnswer::Memory,
        }
        self.stop_here();
        self.answer(fate)
    }

    fn sync_new(&mut self) -> DiskAnswer {
        self.calls = one_up(self.calls);
        if !self.enter(Passed::Quiet) {
            return DiskAnswer::Failed;
        }
        let fate = self.fate(false);
        self.synced = self.synced || takes_effect(fate);
        self.stop_here();
        self.answer(fate)
    }

    fn swap(&mut self) -> DiskAnswer {
        self.calls = one_up(self.calls);
        let fate = self.fate(true);
        match Text::of(self.alloc, self.fresh.bytes()) {
            Ok(copy) => {
                let passed = Passed::Swap {
                    fresh: copy,
                    synced: self.synced,
                    done: goes_well(fate),
                };
                if !self.enter(passed) {
                    return DiskAnswer::Failed;
                }
            }
            Err(_) => {
                self.run_out();
                return DiskAnswer::Failed;
            }
        }
        self.trade(fate);
        self.stop_here();
        self.answer(fate)
    }

    fn faults(&self) -> u64 {
        self.faults
    }
}
