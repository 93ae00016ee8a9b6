// The devices that were born, with the places of those that are live.
ghost use Rattle.std.specs.Prelude.{◌≡◌, ◌+◌, ◌<◌, ◌≤◌, ◌++◌, ◌∷◌, [], ℕ, length, false, Some, None, IfOk, OnOk, OnErr, take, drop, filter, vec_capacity};
ghost use Rattle.ug_types.specs.Elements.{AllDistinct};
ghost use Rattle.ug_kernel.specs.declared.device.Device.{Device};
ghost use Rattle.ug_kernel.specs.Kernel.{Live, live_count};
ghost use Rattle.ug_sysfs.specs.Devices.{find, fall};
ghost use Rattle.ug_sysfs.specs.Living.{is_live_at};
ghost use Rattle.ug_sysfs.specs.World.{live_names, switched};

use crate::devices::names_at;
use crate::kin::{Kin, bear, fell};
use crate::roster::Roster;
use std::alloc::Global;
use std::marker::Model;
use ug_kernel::{Device, Write};
use ug_types::{List, NoMemory, NodeName};

/// A roster whose live devices can be gone over without most of the others, in the order in which they were born, and each device's
/// children without others.
#[derive(Drop)]
pub struct Census {
    roster: Roster,
    kin: Vec<Kin>,
    places: Vec<usize>,
}

impl Model for Census {
    ghost use Rattle.ug_sysfs.specs.Listed.{Listed};

    ghost Value = { Listed };

    ghost use Rattle.ug_sysfs.specs.Counted.{ListsLive};

    ghost view = { λ c. c.roster };

    ghost invariant = { ListsLive };
}

impl Census {
    pub fn new(alloc: Global) -> Census
        ensures { result ≡ record { devices = []; room = 0 } }
    {
        Census {
            roster: Roster::new(alloc),
            kin: Vec::new(alloc),
            places: Vec::new(alloc),
        }
    }

    pub fn devices(&self) -> &[Device]
        ensures { result.now ≡ self.now.devices }
    {
        self.roster.devices()
    }

    /// The names of the live devices.
    pub fn live_names(&self, alloc: Global) -> Result<List<NodeName>, NoMemory>
        ensures names { IfOk result (λ names. names ≡ live_names self.now.devices) }
        ensures distinct { IfOk result (λ names. AllDistinct names) }
    {
        names_at(alloc, self.roster.devices(), &self.places)
    }

    /// The live device of a name.
    pub fn find(&self, name: &NodeName) -> Option<usize>
        ensures { result ≡ find name.now 0 self.now.devices }
    {
        self.roster.find(name)
    }

    /// How many devices are live.
    pub fn live_count(&self) -> usize
        ensures { result ≡ live_count self.now.devices }
    {
        self.roster.live_count()
    }

    /// Makes room for so many devices more.
    pub fn reserve(&mut self, room: usize) -> Result<(), NoMemory>
        ensures ok { OnOk result (self.new ≡ record self.old { room = room }) }
        ensures err { OnErr result (self.new ≡ self.old) }
    {
        self.places.reserve(room)?;
        self.kin.reserve(room)?;
        self.roster.reserve(room)?;
        Ok(())
    }

    pub fn push(&mut self, device: Device)
        requires room { 0 < self.old.room }
        requires live { device.gone ≡ false }
        requires fresh { find device.name 0 self.old.devices ≡ None }
        requires parent { (p : ℕ) → device.parent ≡ Some p
            → (e : Device) × Live self.old.devices p e }
        ensures devices { self.new.devices ≡ self.old.devices ++ device ∷ [] }
        ensures room { self.new.room + 1 ≡ self.old.room }
    {
        let place = self.roster.len();
        let parent = device.parent;
        self.roster.push(device);
        bear(&mut self.kin, parent);
        self.places.push_reserved(place);
    }

    /// The device goes, and what is below it.
    pub fn unplug(&mut self, target: usize)
        ensures devices { self.new.devices
            ≡ fall target (take target self.old.devices) (drop target self.old.devices) }
        ensures room { self.new.room ≡ self.old.room }
        ensures few { live_count self.new.devices ≤ live_count self.old.devices }
    {
        if target < self.kin.len() {
            fell(&mut self.roster, &self.kin, target);
            self.tidy();
        }
    }

    // The list of places is made shorter where most of it is of devices that have gone.
    fn tidy(&mut self)
        ensures { self.new ≡ self.old }
    {
        if self.places.len() / 2 > self.roster.live_count() {
            keep_live(&mut self.places, self.roster.devices());
        }
    }

    /// A write has its effect on a device's value.
    pub fn switch(&mut self, i: usize, write: Write)
        ensures devices { self.new.devices ≡ switched write i self.old.devices }
        ensures room { self.new.room ≡ self.old.room }
        ensures few { live_count self.new.devices ≡ live_count self.old.devices }
    {
        self.roster.switch(i, write);
    }
}

fn is_live_at(devices: &[Device], place: usize) -> bool
    ensures { result ≡ is_live_at devices.now place }
{
    match devices.get(place) {
        Some(device) => !device.gone,
        None => false,
    }
}

// The places of devices that have gone are left out.
fn keep_live(places: &mut Vec<usize>, devices: &[Device])
    ensures kept { places.new.items ≡ filter (is_live_at devices.now) places.old.items }
    ensures capacity { vec_capacity places.new ≡ vec_capacity places.old }
{
    places.retain(|place| is_live_at(devices, *place));
}
