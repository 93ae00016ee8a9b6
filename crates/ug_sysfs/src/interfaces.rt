// The interfaces that were made, and room for some that are still to be added.
ghost use Rattle.std.specs.Prelude.{◌≡◌, ◌+◌, ◌<◌, ◌≤◌, [], length, IfOk, OnOk, OnErr};
ghost use Rattle.ug_types.specs.Elements.{AllDistinct};
ghost use Rattle.ug_iface.specs.Bus.{ungone_of};
ghost use Rattle.ug_iface.specs.Calls.{AllOf};
ghost use Rattle.ug_sysfs.specs.Interfaces.{is_of, has_iface_numbers, is_iface, iface_place, can_add, added_to, with_iface_gone, with_iface_off, iface_names};
ghost use Rattle.ug_sysfs.specs.Serving.{iface_probed, iface_read};

use crate::script::NewIface;
use std::alloc::Global;
use std::marker::Model;
use ug_iface::{IfaceName, IfaceRead, Interface};
use ug_kernel::Probe;
use ug_types::{List, NoMemory, NodeName};

/// At most so many interfaces of one device aren't gone.
const MOST: usize = 1024;

/// Interfaces by their places.
#[derive(Drop)]
pub struct Interfaces {
    all: Vec<Interface>,
    room: usize,
}

impl Model for Interfaces {
    ghost use Rattle.ug_sysfs.specs.Interfaces.{IfaceList};

    ghost Value = { IfaceList };

    ghost use Rattle.ug_sysfs.specs.Apart.{HoldsInterfaces};

    ghost view = { λ r. record { interfaces = r.all.items; room = r.room } };

    ghost invariant = { HoldsInterfaces };
}

impl Interfaces {
    pub fn new(alloc: Global) -> Interfaces
        ensures { result ≡ record { interfaces = []; room = 0 } }
    {
        Interfaces {
            all: Vec::new(alloc),
            room: 0,
        }
    }

    pub fn as_slice(&self) -> &[Interface]
        ensures { result.now ≡ self.now.interfaces }
    {
        self.all.as_slice()
    }

    /// The place of the interface of that device, configuration and number that isn't gone.
    pub fn find(&self, device: usize, config: u8, number: u8) -> Option<usize>
        ensures { result ≡ iface_place device config number self.now.interfaces }
    {
        let interfaces = self.all.as_slice();
        for place in 0..interfaces.len() {
            if is_iface(&interfaces[place], device, config, number) {
                return Some(place);
            }
        }
        None
    }

    /// The names of the interfaces of a device that aren't gone, where that is its name.
    pub fn names(
        &self,
        alloc: Global,
        device: usize,
        name: &NodeName,
    ) -> Result<List<IfaceName>, NoMemory>
        ensures names { IfOk result
            (λ names. names ≡ iface_names device name.now self.now.interfaces) }
        ensures few { IfOk result (λ names. length names ≤ 1024) }
        ensures named { IfOk result (λ names. AllOf name.now names) }
        ensures distinct { IfOk result (λ names. AllDistinct names) }
    {
        names_of(alloc, self.all.as_slice(), device, name)
    }

    /// Makes room for so many interfaces more.
    pub fn reserve(&mut self, room: usize) -> Result<(), NoMemory>
        ensures ok { OnOk result (self.new ≡ record self.old { room = room }) }
        ensures err { OnErr result (self.new ≡ self.old) }
    {
        self.all.reserve(room)?;
        self.room = room;
        Ok(())
    }

    // Whether an interface of that name can be added to the device.
    fn can_add(&self, device: usize, name: &IfaceName) -> bool
        ensures { result ≡ can_add device name.now self.now.interfaces }
    {
        0 < name.config
            && count_of(self.all.as_slice(), device) < MOST
            && self.find(device, name.config, name.number).is_none()
    }

    /// Adds an interface to a device, unless its configuration is 0, it is there, or 1,024 of the device are.
    pub fn add(&mut self, device: usize, new: NewIface)
        requires room { 0 < self.old.room }
        ensures interfaces { self.new.interfaces ≡ added_to device new self.old.interfaces }
        ensures room { self.old.room ≤ self.new.room + 1 }
    {
        if self.can_add(device, &new.name) {
            self.all.push_reserved(Interface {
                device,
                config: new.name.config,
                number: new.name.number,
                triple: new.triple,
                gone: false,
                on: new.on,
            });
            self.room -= 1;
        }
    }

    /// The interface at a place is gone.
    pub fn remove(&mut self, place: usize)
        ensures interfaces { self.new.interfaces ≡ with_iface_gone place self.old.interfaces }
        ensures room { self.new.room ≡ self.old.room }
    {
        if place < self.all.len() {
            self.all[place].gone = true;
        }
    }

    /// The interface at a place is switched off.
    pub fn switch_off(&mut self, place: usize)
        ensures interfaces { self.new.interfaces ≡ with_iface_off place self.old.interfaces }
        ensures room { self.new.room ≡ self.old.room }
    {
        if place < self.all.len() {
            self.all[place].on = false;
        }
    }
}

/// What the file of the interface at a place has.
pub fn iface_read(interfaces: &[Interface], place: Option<usize>) -> IfaceRead
    ensures { result ≡ iface_read place interfaces.now }
{
    match place {
        Some(place) => match interfaces.get(place) {
            Some(interface) => IfaceRead::Is(interface.triple),
            None => IfaceRead::Absent,
        },
        None => IfaceRead::Absent,
    }
}

/// What the interface at a place answers to a probe.
pub fn iface_probed(interfaces: &[Interface], place: Option<usize>) -> Probe
    ensures { result ≡ iface_probed place interfaces.now }
{
    match place {
        Some(place) => match interfaces.get(place) {
            Some(interface) => Probe::Alive(interface.on),
            None => Probe::Gone,
        },
        None => Probe::Gone,
    }
}

// An interface of that device that isn't gone.
fn is_of(x: &Interface, device: usize) -> bool
    ensures { result ≡ is_of device x.now }
{
    !x.gone && x.device == device
}

fn has_iface_numbers(x: &Interface, config: u8, number: u8) -> bool
    ensures { result ≡ has_iface_numbers config number x.now }
{
    x.config == config && x.number == number
}

fn is_iface(x: &Interface, device: usize, config: u8, number: u8) -> bool
    ensures { result ≡ is_iface device config number x.now }
{
    is_of(x, device) && has_iface_numbers(x, config, number)
}

// How many interfaces of a device aren't gone.
fn count_of(interfaces: &[Interface], device: usize) -> usize
    ensures { result ≡ ungone_of device interfaces.now }
{
    let mut count = 0;
    for interface in interfaces {
        if is_of(interface, device) {
            count += 1;
        }
    }
    count
}

fn names_of(
    alloc: Global,
    interfaces: &[Interface],
    device: usize,
    name: &NodeName,
) -> Result<List<IfaceName>, NoMemory>
    ensures { IfOk result (λ names. names ≡ iface_names device name.now interfaces.now) }
{
    let mut names = List::new(alloc);
    for interface in interfaces {
        if is_of(interface, device) {
            names.push(IfaceName {
                device: *name,
                config: interface.config,
                number: interface.number,
            })?;
        }
    }
    Ok(names)
}
