// A kernel in memory, which goes by a script.
ghost use Rattle.std.specs.Prelude.{◌≡◌, ◌++◌, ◌∷◌, [], true, false, List, length, IfOk, OnOk, OnErr, MatchOption};
ghost use Rattle.ug_kernel.specs.Calls.{Names, Open, Read, Ask_alive, Put};
ghost use Rattle.ug_sysfs.specs.Devices.{plugged, unplugged};
ghost use Rattle.ug_sysfs.specs.Count.{counts_each};
ghost use Rattle.ug_kernel.specs.Few.{HasFew, AreDistinct};
ghost use Rattle.ug_sysfs.specs.Law.{does_what_it_may, begins_afresh};
ghost use Rattle.ug_sysfs.specs.Queue.{with_move};
ghost use Rattle.ug_sysfs.specs.Noted.{notes_itself, begins_empty};
ghost use Rattle.ug_sysfs.specs.Serving.{left};
ghost use Rattle.ug_sysfs.specs.World.{halting, carried, Gives, Effects, RunsOut, PutsWrite, Ends, Enters, event_begun, over, fate_of, failure_counted, live_held, told};

mod iface_calls;

use crate::census::Census;
use crate::devices::{live_held, probed_at, read_at, with_file};
use crate::failures::Failures;
use crate::interfaces::Interfaces;
use crate::kinds::{kind_of_listing, kind_of_opened, kind_of_probe, kind_of_read, kind_of_wrote};
use crate::queue::Queue;
use crate::schedule::{carry_out, happen, happen_all, make_room, one_more};
use crate::script::{Failing, Move, NewDevice, Scheduled};
use std::alloc::Global;
use std::marker::Model;
use ug_iface::Interface;
use ug_kernel::{
    Asked, Attr, CallRecord, Control, Device, Effect, Held, HeldFile, Kind, Listing, Opened, Probe,
    ReadOut, Sysfs, Write, Wrote,
};
use ug_types::{NoMemory, NodeName};

/// A kernel in memory, with the interfaces of its devices. Its script fixes each answer, except where memory is
/// refused. Where an entry of a log or of the calls finds no memory, it runs out: its calls fail from then on, and
/// it tells no kernel.
#[derive(Drop)]
pub struct SimKernel {
    census: Census,
    held: Vec<HeldFile>,
    log: Vec<Effect>,
    interfaces: Interfaces,
    iface_files: Vec<usize>,
    iface_log: Vec<usize>,
    moves: Queue,
    fails: Failures,
    halted: bool,
    calls: u64,
    faults: u64,
    made: Vec<CallRecord>,
    ran_out: bool,
}

impl Model for SimKernel {
    ghost use Rattle.std.specs.Prelude.{◌≤◌};
    ghost use Rattle.ug_kernel.specs.Kernel.{live_count};
    ghost use Rattle.ug_sysfs.specs.World.{World, plugs, iface_adds};

    ghost Value = { World };

    ghost view = { λ s. record {
      kernel = record { devices = s.census.devices; held = s.held.items; log = s.log.items };
      interfaces = s.interfaces.interfaces;
      iface_files = s.iface_files.items;
      iface_log = s.iface_log.items;
      moves = s.moves;
      fails = s.fails;
      halted = s.halted;
      calls = s.calls;
      faults = s.faults;
      made = s.made.items;
      ran_out = s.ran_out;
    } };

    // each device and each interface that is scheduled has its room
    ghost invariant = { λ s. (plugs s.moves ≤ s.census.room)
        × (iface_adds s.moves ≤ s.interfaces.room)
        × (live_count s.census.devices ≤ 65536) };
}

impl SimKernel {
    /// No device, no held file, nothing scheduled. It takes no memory.
    pub fn new(alloc: Global) -> SimKernel
        ensures { result ≡ record {
          kernel = record { devices = []; held = []; log = [] };
          interfaces = [];
          iface_files = [];
          iface_log = [];
          moves = [];
          fails = [];
          halted = false;
          calls = 0;
          faults = 0;
          made = [];
          ran_out = false;
        } }
    {
        SimKernel {
            census: Census::new(alloc),
            held: Vec::new(alloc),
            log: Vec::new(alloc),
            interfaces: Interfaces::new(alloc),
            iface_files: Vec::new(alloc),
            iface_log: Vec::new(alloc),
            moves: Queue::new(alloc),
            fails: Failures::new(alloc),
            halted: false,
            calls: 0,
            faults: 0,
            made: Vec::new(alloc),
            ran_out: false,
        }
    }

    /// Drops it. A crate that calls this need not prove how its parts are dropped.
    pub fn discard(self) {}

    /// A device is born. Nothing happens if its name is live, if its parent isn't, or if 65,536 devices are.
    pub fn plug(&mut self, device: NewDevice) -> Result<(), NoMemory>
        ensures ok { OnOk result
            (self.new
            ≡ record self.old {
              kernel = record self.old.kernel
                  { devices = plugged device self.old.kernel.devices };
            }) }
        ensures err { OnErr result (self.new ≡ self.old) }
    {
        self.carry_out(Move::Plug(device))
    }

    /// What the kernel does by itself: a device is born, as by `plug`, or goes; or an interface comes or goes.
    pub fn carry_out(&mut self, action: Move) -> Result<(), NoMemory>
        ensures ok { OnOk result (self.new ≡ carried action self.old) }
        ensures err { OnErr result (self.new ≡ self.old) }
    {
        match make_room(&mut self.census, &mut self.interfaces, &self.moves, &action) {
            Ok(()) => {
                carry_out(&mut self.census, &mut self.interfaces, action);
                Ok(())
            }
            Err(refused) => {
                action.discard();
                Err(refused)
            }
        }
    }

    /// The live device of that name goes, and what is below it.
    pub fn unplug(&mut self, name: &NodeName)
        ensures { self.new ≡ record self.old {
          kernel = record self.old.kernel
              { devices = unplugged name.now self.old.kernel.devices };
        } }
    {
        if let Some(i) = self.census.find(name) {
            self.census.unplug(i);
        }
    }

    /// A move that is to come at a call of the event, before its effect or after it. Moves of one place happen in the
    /// order in which they are scheduled; one whose call is past happens at the next.
    pub fn schedule(&mut self, call: u64, after: bool, action: Move) -> Result<(), NoMemory>
        ensures ok { OnOk result (self.new ≡ record self.old {
          moves = with_move (record { call = call; after = after; action = action }) self.old.moves;
        }) }
        ensures err { OnErr result (self.new ≡ self.old) }
    {
        match make_room(&mut self.census, &mut self.interfaces, &self.moves, &action) {
            Ok(()) => self.moves.put_in(Scheduled {
                call,
                after,
                action,
            }),
            Err(refused) => {
                action.discard();
                Err(refused)
            }
        }
    }

    /// A call that is to fail. A write then has its effect, or not. The last word on a call counts.
    pub fn fail(&mut self, call: u64, effect: bool) -> Result<(), NoMemory>
        ensures ok { OnOk result
            (self.new
            ≡ record self.old
            { fails = self.old.fails ++ record { call = call; effect = effect } ∷ [] }) }
        ensures err { OnErr result (self.new ≡ self.old) }
    {
        self.fails.push(Failing { call, effect })
    }

    /// What is still scheduled happens, and no call is to fail any more.
    pub fn end_event(&mut self)
        ensures { self.new ≡ over self.old }
    {
        happen_all(&mut self.census, &mut self.interfaces, &mut self.moves);
        self.fails.clear();
        self.halted = false;
    }

    /// From now on each call of the event fails, without effect. The moves at it happen, and it is counted.
    pub fn halt(&mut self)
        ensures { self.new ≡ halting self.old }
    {
        self.halted = true;
    }

    /// Whether an entry of the log or of the calls found no memory.
    pub fn ran_out(&self) -> bool
        ensures { result ≡ self.now.ran_out }
    {
        self.ran_out
    }

    /// All devices that were born.
    pub fn devices(&self) -> &[Device]
        ensures { result.now ≡ self.now.kernel.devices }
    {
        self.census.devices()
    }

    /// All files that were opened. A file that was closed stays.
    pub fn held(&self) -> &[HeldFile]
        ensures { result.now ≡ self.now.kernel.held }
    {
        self.held.as_slice()
    }

    /// The writes that had their effect.
    pub fn log(&self) -> &[Effect]
        ensures { result.now ≡ self.now.kernel.log }
    {
        self.log.as_slice()
    }

    /// All interfaces that were made.
    pub fn interfaces(&self) -> &[Interface]
        ensures { result.now ≡ self.now.interfaces }
    {
        self.interfaces.as_slice()
    }

    /// The places of the interfaces that were switched off, in order.
    pub fn iface_log(&self) -> &[usize]
        ensures { result.now ≡ self.now.iface_log }
    {
        self.iface_log.as_slice()
    }

    /// The calls of the event to the devices' files, without closings.
    pub fn made(&self) -> &[CallRecord]
        ensures { result.now ≡ self.now.made }
    {
        self.made.as_slice()
    }

    // A call begins, unless the kernel has run out: then it fails.
    fn enter(&mut self) -> bool
        ensures { Enters self.old result self.new }
    {
        self.calls = self.calls.saturating_add(1);
        if self.ran_out {
            self.faults = one_more(self.faults);
            return false;
        }
        happen(
            &mut self.census,
            &mut self.interfaces,
            &mut self.moves,
            self.calls,
            false,
        );
        true
    }

    // The moves after a call's effect happen.
    fn leave(&mut self)
        ensures { self.new ≡ left self.old }
    {
        happen(
            &mut self.census,
            &mut self.interfaces,
            &mut self.moves,
            self.calls,
            true,
        );
    }

    // The moves after its effect happen, and the call is noted if there is memory for that.
    fn end(&mut self, asked: Asked, kind: Kind) -> bool
        ensures { Ends self.old (record { asked = asked; kind = kind }) result self.new }
    {
        self.leave();
        match self.made.push(CallRecord { asked, kind }) {
            Ok(_) => true,
            Err(_) => {
                self.ran_out = true;
                if !matches!(&kind, Kind::Failed) {
                    self.faults = one_more(self.faults);
                }
                false
            }
        }
    }

    // Whether the call fails, and then it is counted.
    fn fate(&mut self) -> Option<bool>
        ensures fate { result ≡ fate_of self.old }
        ensures counted { self.new ≡ failure_counted self.old }
    {
        let fate = if self.halted {
            Some(false)
        } else {
            self.fails.fate(self.calls)
        };
        if fate.is_some() {
            self.faults = one_more(self.faults);
        }
        fate
    }

    #[tactic(auto, using(crate::specs::Find::length_names))]
    fn list_now(&mut self, alloc: Global) -> Listing
        ensures effects { Effects self.old Names result self.new }
        ensures few { HasFew result }
        ensures distinct { AreDistinct result }
    {
        match self.fate() {
            Some(_) => Listing::Failed,
            None => match self.census.live_names(alloc) {
                Ok(names) => Listing::Names(names),
                Err(_) => Listing::Memory,
            },
        }
    }

    fn open_now(&mut self, name: &NodeName, control: Control) -> Opened
        ensures { Effects self.old (Open name.now control) result self.new }
    {
        match self.fate() {
            Some(_) => Opened::Failed,
            None => match with_file(self.census.devices(), self.census.find(name), control) {
                Some(device) => {
                    let number = self.held.len() as u64;
                    match self.held.push(HeldFile { device, control }) {
                        Ok(_) => Opened::Token(Held(number)),
                        Err(_) => Opened::Memory,
                    }
                }
                None => Opened::Absent,
            },
        }
    }

    fn read_now(&mut self, alloc: Global, name: &NodeName, attr: Attr) -> ReadOut
        ensures { Effects self.old (Read name.now attr) result self.new }
    {
        match self.fate() {
            Some(_) => ReadOut::Failed,
            None => read_at(alloc, self.census.devices(), self.census.find(name), attr),
        }
    }

    // The device of a held file, unless it is gone.
    fn held_device(&self, held: Held) -> Option<usize>
        ensures { result ≡ live_held held.0 self.now.kernel.held self.now.kernel.devices }
    {
        live_held(self.census.devices(), &self.held, held.0 as usize)
    }

    fn probe_now(&mut self, held: Held) -> Probe
        ensures { Effects self.old (Ask_alive held.0) result self.new }
    {
        match self.fate() {
            Some(_) => Probe::Failed,
            None => probed_at(self.census.devices(), self.held_device(held)),
        }
    }

    // What a write does where it has its effect. There may be no memory for its entry.
    fn put(&mut self, held: Held, write: Write) -> Option<Wrote>
        ensures { MatchOption result (RunsOut self.old self.new)
            (λ reply. PutsWrite self.old held.0 write reply self.new) }
    {
        match self.held_device(held) {
            Some(device) => match self.log.push(Effect { device, write }) {
                Ok(_) => {
                    self.census.switch(device, write);
                    Some(Wrote::Done)
                }
                Err(_) => {
                    self.ran_out = true;
                    None
                }
            },
            None => Some(Wrote::Gone),
        }
    }

    fn write_now(&mut self, held: Held, what: Write) -> Wrote
        ensures { Effects self.old (Put held.0 what) result self.new }
    {
        match self.fate() {
            Some(true) => {
                let _ = self.put(held, what);
                Wrote::Failed
            }
            Some(false) => Wrote::Failed,
            None => match self.put(held, what) {
                Some(answer) => answer,
                None => {
                    self.faults = one_more(self.faults);
                    Wrote::Failed
                }
            },
        }
    }
}

impl Sysfs for SimKernel {
    ghost gives = { Gives };

    ghost begins = { λ s t. t ≡ event_begun s };

    ghost told = { told };

    ghost made = { λ w. w.made };

    ghost calls = { λ w. w.calls };

    ghost faults = { λ w. w.faults };

    ghost did = { does_what_it_may };

    ghost noted = { notes_itself };

    ghost counted = { counts_each };

    ghost began = { begins_afresh };

    ghost cleared = { begins_empty };

    fn begin(&mut self) {
        self.calls = 0;
        self.made.clear();
    }

    fn calls(&self) -> u64 {
        self.calls
    }

    fn faults(&self) -> u64 {
        self.faults
    }

    fn list(&mut self, alloc: Global) -> Listing {
        if !self.enter() {
            return Listing::Failed;
        }
        let answer = self.list_now(alloc);
        let kind = kind_of_listing(&answer);
        if self.end(Asked::List, kind) {
            answer
        } else {
            Listing::Failed
        }
    }

    fn open_control(&mut self, alloc: Global, name: &NodeName, control: Control) -> Opened {
        if !self.enter() {
            return Opened::Failed;
        }
        let answer = self.open_now(name, control);
        let kind = kind_of_opened(answer);
        if self.end(Asked::Open(*name, control), kind) {
            answer
        } else {
            Opened::Failed
        }
    }

    fn read(&mut self, alloc: Global, name: &NodeName, attr: Attr) -> ReadOut {
        if !self.enter() {
            return ReadOut::Failed;
        }
        let answer = self.read_now(alloc, name, attr);
        let kind = kind_of_read(&answer);
        if self.end(Asked::Read(*name, attr), kind) {
            answer
        } else {
            ReadOut::Failed
        }
    }

    fn probe(&mut self, held: Held) -> Probe {
        if !self.enter() {
            return Probe::Failed;
        }
        let answer = self.probe_now(held);
        let kind = kind_of_probe(answer);
        if self.end(Asked::Probe(held), kind) {
            answer
        } else {
            Probe::Failed
        }
    }

    fn write(&mut self, held: Held, what: Write) -> Wrote {
        if !self.enter() {
            return Wrote::Failed;
        }
        let answer = self.write_now(held, what);
        let kind = kind_of_wrote(answer);
        if self.end(Asked::Write(held, what), kind) {
            answer
        } else {
            Wrote::Failed
        }
    }

    fn close(&mut self, _held: Held) {}
}
