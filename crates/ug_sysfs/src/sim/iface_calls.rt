// The calls of interfaces of a kernel in memory.
ghost use Rattle.std.specs.Prelude.{◌≡◌, MatchOption};
ghost use Rattle.ug_iface.specs.Calls as iface_calls;
ghost use Rattle.ug_iface.specs.Calls.{Names_of, Ask_device, Ask, Put_off, HasFewIfaces, AreOf, AreDistinctIfaces};
ghost use Rattle.ug_sysfs.specs.Serving.{ServesIfaces, IfaceEffects, PutsOff, bus_in, bus_told, live_file};
ghost use Rattle.ug_sysfs.specs.IfaceLaw.{does_so, keeps_ifaces, begins_so, tells_its_kernel};
ghost use Rattle.ug_sysfs.specs.IfaceCount.{counts_ifaces};
ghost use Rattle.ug_sysfs.specs.World.{RunsOut};

use super::SimKernel;
use crate::beside::{find_iface, live_iface};
use crate::devices::probed_at;
use crate::interfaces::{iface_probed, iface_read};
use crate::schedule::one_more;
use std::alloc::Global;
use ug_iface::{IfaceHeld, IfaceListing, IfaceName, IfaceOpened, IfaceRead, Ifaces};
use ug_kernel::{Held, Probe, Wrote};
use ug_types::NodeName;

impl SimKernel {
    fn list_ifaces_now(&mut self, alloc: Global, name: &NodeName) -> IfaceListing
        ensures effects { IfaceEffects self.old (Names_of name.now) result self.new }
        ensures few { HasFewIfaces result }
        ensures named { AreOf name.now result }
        ensures distinct { AreDistinctIfaces result }
    {
        match self.fate() {
            Some(_) => IfaceListing::Failed,
            None => match self.census.find(name) {
                Some(device) => match self.interfaces.names(alloc, device, name) {
                    Ok(names) => IfaceListing::Names(names),
                    Err(_) => IfaceListing::Memory,
                },
                None => IfaceListing::Absent,
            },
        }
    }

    fn open_iface_now(&mut self, name: &IfaceName) -> IfaceOpened
        ensures { IfaceEffects self.old (iface_calls.Open name.now) result self.new }
    {
        match self.fate() {
            Some(_) => IfaceOpened::Failed,
            None => match find_iface(&self.census, &self.interfaces, name) {
                Some(place) => {
                    let number = self.iface_files.len() as u64;
                    match self.iface_files.push(place) {
                        Ok(_) => IfaceOpened::Token(IfaceHeld(number)),
                        Err(_) => IfaceOpened::Memory,
                    }
                }
                None => IfaceOpened::Absent,
            },
        }
    }

    fn read_iface_now(&mut self, name: &IfaceName) -> IfaceRead
        ensures { IfaceEffects self.old (iface_calls.Read name.now) result self.new }
    {
        match self.fate() {
            Some(_) => IfaceRead::Failed,
            None => iface_read(
                self.interfaces.as_slice(),
                find_iface(&self.census, &self.interfaces, name),
            ),
        }
    }

    fn probe_device_now(&mut self, held: Held) -> Probe
        ensures { IfaceEffects self.old (Ask_device held.0) result self.new }
    {
        match self.fate() {
            Some(_) => Probe::Failed,
            None => probed_at(self.census.devices(), self.held_device(held)),
        }
    }

    // The place of the interface of a held file, where it is live.
    fn held_iface(&self, held: IfaceHeld) -> Option<usize>
        ensures { result ≡ live_file held.0 (bus_in self.now) }
    {
        live_iface(
            self.census.devices(),
            self.interfaces.as_slice(),
            &self.iface_files,
            held.0 as usize,
        )
    }

    fn probe_iface_now(&mut self, held: IfaceHeld) -> Probe
        ensures { IfaceEffects self.old (Ask held.0) result self.new }
    {
        match self.fate() {
            Some(_) => Probe::Failed,
            None => iface_probed(self.interfaces.as_slice(), self.held_iface(held)),
        }
    }

    // What switching off does where it has its effect. There may be no memory for its entry.
    fn put_off(&mut self, held: IfaceHeld) -> Option<Wrote>
        ensures { MatchOption result (RunsOut self.old self.new)
            (λ reply. PutsOff self.old held.0 reply self.new) }
    {
        match self.held_iface(held) {
            Some(place) => match self.iface_log.push(place) {
                Ok(_) => {
                    self.interfaces.switch_off(place);
                    Some(Wrote::Done)
                }
                Err(_) => {
                    self.ran_out = true;
                    None
                }
            },
            None => Some(Wrote::Gone),
        }
    }

    fn write_off_now(&mut self, held: IfaceHeld) -> Wrote
        ensures { IfaceEffects self.old (Put_off held.0) result self.new }
    {
        match self.fate() {
            Some(true) => {
                let _ = self.put_off(held);
                Wrote::Failed
            }
            Some(false) => Wrote::Failed,
            None => match self.put_off(held) {
                Some(answer) => answer,
                None => {
                    self.faults = one_more(self.faults);
                    Wrote::Failed
                }
            },
        }
    }
}

impl Ifaces for SimKernel {
    ghost serves = { ServesIfaces };

    ghost bus = { bus_told };

    ghost did_so = { does_so };

    ghost kept_so = { keeps_ifaces };

    ghost began_so = { begins_so };

    ghost one_kernel = { tells_its_kernel };

    ghost counts_so = { counts_ifaces };

    fn list_ifaces(&mut self, alloc: Global, name: &NodeName) -> IfaceListing {
        if !self.enter() {
            return IfaceListing::Failed;
        }
        let answer = self.list_ifaces_now(alloc, name);
        self.leave();
        answer
    }

    fn open_iface(&mut self, alloc: Global, name: &IfaceName) -> IfaceOpened {
        if !self.enter() {
            return IfaceOpened::Failed;
        }
        let answer = self.open_iface_now(name);
        self.leave();
        answer
    }

    fn read_iface(&mut self, name: &IfaceName) -> IfaceRead {
        if !self.enter() {
            return IfaceRead::Failed;
        }
        let answer = self.read_iface_now(name);
        self.leave();
        answer
    }

    fn probe_device(&mut self, held: Held) -> Probe {
        if !self.enter() {
            return Probe::Failed;
        }
        let answer = self.probe_device_now(held);
        self.leave();
        answer
    }

    fn probe_iface(&mut self, held: IfaceHeld) -> Probe {
        if !self.enter() {
            return Probe::Failed;
        }
        let answer = self.probe_iface_now(held);
        self.leave();
        answer
    }

    fn write_off(&mut self, held: IfaceHeld) -> Wrote {
        if !self.enter() {
            return Wrote::Failed;
        }
        let answer = self.write_off_now(held);
        self.leave();
        answer
    }

    fn close_iface(&mut self, _held: IfaceHeld) {}
}
