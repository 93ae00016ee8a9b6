// The devices that were born, with an index of the live names, and room for some that are still to be born.
ghost use Rattle.std.specs.Prelude.{◌≡◌, ◌+◌, ◌<◌, ◌++◌, ◌∷◌, [], length, true, false, None, OnOk, OnErr};
ghost use Rattle.ug_kernel.specs.Called.{value_after, default_after, written_to};
ghost use Rattle.ug_kernel.specs.Kernel.{live_count};
ghost use Rattle.ug_sysfs.specs.Devices.{IsDistinct, find, with_gone};
ghost use Rattle.ug_sysfs.specs.Living.{is_live_at};
ghost use Rattle.ug_sysfs.specs.World.{switched};

use std::alloc::Global;
use std::collections::HashMap;
use std::marker::Model;
use ug_kernel::{Device, Write};
use ug_types::{NoMemory, NodeName};

/// Devices by place and by live name.
#[derive(Drop)]
pub struct Roster {
    all: Vec<Device>,
    index: HashMap<NodeName, usize>,
    live: usize,
    room: usize,
}

impl Model for Roster {
    ghost use Rattle.ug_sysfs.specs.Listed.{Listed};

    ghost Value = { Listed };

    ghost use Rattle.ug_sysfs.specs.Indexed.{HasIndex};

    ghost view = { λ r. record { devices = r.all.items; room = r.room } };

    ghost invariant = { HasIndex };
}

impl Roster {
    pub fn new(alloc: Global) -> Roster
        ensures { result ≡ record { devices = []; room = 0 } }
    {
        Roster {
            all: Vec::new(alloc),
            index: HashMap::new(alloc),
            live: 0,
            room: 0,
        }
    }

    pub fn devices(&self) -> &[Device]
        ensures devices { result.now ≡ self.now.devices }
        ensures distinct { IsDistinct self.now.devices }
    {
        self.all.as_slice()
    }

    /// The live device of a name.
    pub fn find(&self, name: &NodeName) -> Option<usize>
        ensures { result ≡ find name.now 0 self.now.devices }
    {
        self.index.get(name).copied()
    }

    /// Makes room for so many devices more.
    pub fn reserve(&mut self, room: usize) -> Result<(), NoMemory>
        ensures ok { OnOk result (self.new ≡ record self.old { room = room }) }
        ensures err { OnErr result (self.new ≡ self.old) }
    {
        self.all.reserve(room)?;
        self.index.reserve(room)?;
        self.room = room;
        Ok(())
    }

    pub fn push(&mut self, device: Device)
        requires room { 0 < self.old.room }
        requires live { device.gone ≡ false }
        requires fresh { find device.name 0 self.old.devices ≡ None }
        ensures devices { self.new.devices ≡ self.old.devices ++ device ∷ [] }
        ensures room { self.new.room + 1 ≡ self.old.room }
    {
        let place = self.all.len();
        let _ = self.index.insert(device.name, place);
        self.all.push_reserved(device);
        self.live += 1;
        self.room -= 1;
    }

    /// A device goes. The answer is whether it was live.
    pub fn fell(&mut self, i: usize) -> bool
        requires { i < length self.old.devices }
        ensures live { result ≡ is_live_at self.old.devices i }
        ensures devices { self.new.devices ≡ with_gone i self.old.devices }
        ensures room { self.new.room ≡ self.old.room }
    {
        let device = &self.all[i];
        if device.gone {
            return false;
        }
        let name = device.name;
        let _ = self.index.remove(&name);
        self.all[i].gone = true;
        self.live -= 1;
        true
    }

    /// How many were born.
    pub fn len(&self) -> usize
        ensures { result ≡ length self.now.devices }
    {
        self.all.len()
    }

    /// How many are live.
    pub fn live_count(&self) -> usize
        ensures { result ≡ live_count self.now.devices }
    {
        self.live
    }

    /// A write has its effect on a device's value.
    pub fn switch(&mut self, i: usize, write: Write)
        ensures devices { self.new.devices ≡ switched write i self.old.devices }
        ensures room { self.new.room ≡ self.old.room }
    {
        if i < self.all.len() {
            switch_device(&mut self.all[i], write);
        }
    }
}

// A device after a write.
fn switch_device(device: &mut Device, write: Write)
    ensures { device.new ≡ written_to write device.old }
{
    device.on = value_after(write, device.on);
    device.default = default_after(write, device.default);
}

// The value after a write.
fn value_after(write: Write, was: bool) -> bool
    ensures { result ≡ value_after write was }
{
    match write {
        Write::On => true,
        Write::Off => false,
        Write::Remove => was,
        Write::DefaultOff => was,
        Write::DefaultOn => was,
    }
}

// The default after a write.
fn default_after(write: Write, was: Option<bool>) -> Option<bool>
    ensures { result ≡ default_after write was }
{
    match write {
        Write::On => was,
        Write::Off => was,
        Write::Remove => was,
        Write::DefaultOff => Some(false),
        Write::DefaultOn => Some(true),
    }
}
