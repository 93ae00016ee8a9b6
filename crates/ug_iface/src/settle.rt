// Switches off the interfaces of a device that rules name.
ghost use Rattle.std.specs.Prelude.{◌≡◌, ◌+◌, ◌*◌, ◌≤◌, ◌<◌, ◌++◌, ◌∷◌, [], length, vec_capacity, vec_len};
ghost use Rattle.std.specs.List.Sorted.{IsPermutation, IsSorted};
ghost use Rattle.ug_match.specs.Covers.{covers_interface, covers_number};
ghost use Rattle.ug_iface.specs.Counting.{CountsFaults};
ghost use Rattle.ug_iface.specs.Laws.{IsComplete, IsPass};
ghost use Rattle.ug_iface.specs.Named.{is_named_off};
ghost use Rattle.ug_iface.specs.Settle.{aim_in, aim_of, beginning, noted_off, settling_iface, switching, walking, HasEntryRoom, HasRoomForNames, RunsPass};
ghost use Rattle.ug_iface.specs.Tree.{RunsIfaces};

use crate::calls::{IfaceHeld, IfaceListing};
use crate::ifaces::Ifaces;
use crate::look::{Look, look_at};
use crate::name::IfaceName;
use crate::rules::IfaceRule;
use std::alloc::Global;
use ug_kernel::{Held, Wrote};
use ug_match::matches;
use ug_types::{DeviceRecord, Iface, List, NodeName, Triple};

/// What is told of an interface, with the number of its device's standing.
#[derive(Clone, Copy)]
pub enum IfaceEntry {
    /// It is to be switched off.
    Intent {
        number: u64,
        name: IfaceName,
    },
    /// And that was tried.
    Wrote {
        number: u64,
        name: IfaceName,
        out: Wrote,
    },
    /// A call about it failed, and this is the count of failures.
    Fault {
        number: u64,
        name: IfaceName,
        count: u64,
    },
    /// Memory was refused at a call about it.
    Memory {
        number: u64,
        name: IfaceName,
    },
}

/// How a pass over a device's interfaces ended.
#[derive(Clone, Copy)]
pub enum Passed {
    Done,
    /// The device is gone.
    Gone,
    /// The listing failed, and this is the count of failures.
    Fault(u64),
    /// Memory was refused for the listing or for entries. Nothing was written.
    Memory,
}

/// Whose interfaces are switched off, and which of them.
#[derive(Drop)]
pub struct Task<'a> {
    pub rules: &'a [IfaceRule],
    pub device: &'a DeviceRecord,
    /// The number of the device's standing.
    pub number: u64,
    pub held: Held,
}

fn is_given_as(given: Option<u8>, byte: u8) -> bool
    ensures { result ≡ covers_number given byte }
{
    match given {
        Some(number) => number == byte,
        None => true,
    }
}

fn covers(iface: &Iface, triple: Triple) -> bool
    ensures { result ≡ covers_interface iface.now triple }
{
    iface.class == triple.class
        && is_given_as(iface.subclass, triple.subclass)
        && is_given_as(iface.protocol, triple.protocol)
}

fn is_named_off(rules: &[IfaceRule], device: &DeviceRecord, triple: Triple) -> bool
    ensures { result ≡ is_named_off rules.now device.now triple }
{
    for rule in rules {
        if matches(&rule.query, device) && covers(&rule.iface, triple) {
            return true;
        }
    }
    false
}

/// What a write was answered, and its failure.
fn note_write(out: &mut Vec<IfaceEntry>, number: u64, name: &IfaceName, wrote: Wrote, count: u64)
    requires { HasEntryRoom 2 (vec_len out.old) (vec_capacity out.old) }
    ensures items { out.new.items ≡ noted_off number name.now wrote count out.old.items }
    ensures len { vec_len out.new ≤ vec_len out.old + 2 }
    ensures capacity { vec_capacity out.new ≡ vec_capacity out.old }
{
    out.push_reserved(IfaceEntry::Wrote {
        number,
        name: *name,
        out: wrote,
    });
    if matches!(wrote, Wrote::Failed) {
        out.push_reserved(IfaceEntry::Fault {
            number,
            name: *name,
            count,
        });
    }
}

fn switch_off<Y: Ifaces>(
    files: &mut Y,
    number: u64,
    name: &IfaceName,
    file: IfaceHeld,
    out: &mut Vec<IfaceEntry>,
)
    requires { HasEntryRoom 3 (vec_len out.old) (vec_capacity out.old) }
    ensures runs { RunsIfaces Y.serves files.old
        (switching number name.now file out.old.items) out.new.items files.new }
    ensures len { vec_len out.new ≤ vec_len out.old + 3 }
    ensures capacity { vec_capacity out.new ≡ vec_capacity out.old }
{
    out.push_reserved(IfaceEntry::Intent {
        number,
        name: *name,
    });
    let wrote = files.write_off(file);
    let count = files.faults();
    note_write(out, number, name, wrote, count);
    files.close_iface(file);
}

/// Looks at an interface and switches it off where a rule names it. The answer is whether the device is still there.
fn settle<Y: Ifaces>(
    alloc: Global,
    files: &mut Y,
    task: &Task,
    name: &IfaceName,
    out: &mut Vec<IfaceEntry>,
) -> bool
    requires { HasEntryRoom 3 (vec_len out.old) (vec_capacity out.old) }
    ensures runs { RunsIfaces Y.serves files.old
        (settling_iface (aim_in task.now) name.now out.old.items)
        (result, out.new.items) files.new }
    ensures len { vec_len out.new ≤ vec_len out.old + 3 }
    ensures capacity { vec_capacity out.new ≡ vec_capacity out.old }
{
    match look_at(alloc, files, name, task.held) {
        Look::Here { file, triple, on } => {
            if on && is_named_off(task.rules, task.device, triple) {
                switch_off(files, task.number, name, file, out);
                return true;
            }
            files.close_iface(file);
            true
        }
        Look::Absent => true,
        Look::Gone => false,
        Look::Failed(count) => {
            out.push_reserved(IfaceEntry::Fault {
                number: task.number,
                name: *name,
                count,
            });
            true
        }
        Look::Memory => {
            out.push_reserved(IfaceEntry::Memory {
                number: task.number,
                name: *name,
            });
            true
        }
    }
}

/// Settles each interface in order, as long as the device is there.
fn walk<Y: Ifaces>(
    alloc: Global,
    files: &mut Y,
    task: &Task,
    names: &[IfaceName],
    out: &mut Vec<IfaceEntry>,
) -> Passed
    requires { HasEntryRoom (3 * length names.now) (vec_len out.old) (vec_capacity out.old) }
    ensures runs { RunsIfaces Y.serves files.old
        (walking (aim_in task.now) names.now out.old.items)
        (result, out.new.items) files.new }
    ensures len { vec_len out.new ≤ vec_len out.old + 3 * length names.now }
{
    for name in names {
        if !settle(alloc, files, task, name, out) {
            return Passed::Gone;
        }
    }
    Passed::Done
}

/// How a pass begins: with the names over which it goes, or it has ended.
#[derive(Drop)]
pub enum Begun {
    Walks(List<IfaceName>),
    Ends(Passed),
}

/// Lists the interfaces of a device, and makes room for their entries.
fn begin<Y: Ifaces>(
    alloc: Global,
    files: &mut Y,
    name: &NodeName,
    out: &mut Vec<IfaceEntry>,
) -> Begun
    ensures runs { RunsIfaces Y.serves files.old (beginning name.now) result files.new }
    ensures items { out.new.items ≡ out.old.items }
    ensures room { HasRoomForNames result (vec_len out.new) (vec_capacity out.new) }
{
    match files.list_ifaces(alloc, name) {
        IfaceListing::Names(names) => match out.reserve(3 * names.as_slice().len()) {
            Ok(()) => Begun::Walks(names),
            Err(_) => Begun::Ends(Passed::Memory),
        },
        IfaceListing::Absent => Begun::Ends(Passed::Gone),
        IfaceListing::Failed => Begun::Ends(Passed::Fault(files.faults())),
        IfaceListing::Memory => Begun::Ends(Passed::Memory),
    }
}

/// By configuration and number, where all are of one device.
fn sort(names: List<IfaceName>) -> Vec<IfaceName>
    ensures sorted { IsSorted ⟦<IfaceName as Ord>⟧.cmp result.items }
    ensures permutation { IsPermutation names result.items }
    ensures len { length result.items ≡ length names }
{
    let mut names = names.into_vec();
    names.sort_unstable();
    names
}

fn pass<Y: Ifaces>(alloc: Global, fs: &mut Y, task: &Task, out: &mut Vec<IfaceEntry>) -> Passed
    ensures runs { RunsPass Y.serves ⟦<IfaceName as Ord>⟧.cmp (aim_in task.now)
        fs.old out.old.items result out.new.items fs.new }
{
    match begin(alloc, fs, &task.device.via_port, out) {
        Begun::Walks(names) => {
            let names = sort(names);
            walk(alloc, fs, task, names.as_slice(), out)
        }
        Begun::Ends(passed) => passed,
    }
}

/// Switches off the interfaces of an allowed device that rules name. `held` is an `authorized` file of a device of the
/// name `dev.via_port`; `number` is that of its standing. A failure, or want of memory, for one interface leaves the next
/// ones to be done. An interface that comes after the listing is left to the next pass. Each interface takes at most 5
/// calls that are numbered.
pub fn settle_ifaces<Y: Ifaces>(
    alloc: Global,
    fs: &mut Y,
    rules: &[IfaceRule],
    dev: &DeviceRecord,
    number: u64,
    held: Held,
    out: &mut Vec<IfaceEntry>,
) -> Passed
    ensures runs { RunsPass Y.serves ⟦<IfaceName as Ord>⟧.cmp
        (aim_of rules.now dev.now number held.0)
        fs.old out.old.items result out.new.items fs.new }
    ensures law { IsPass Y.bus fs.old (aim_of rules.now dev.now number held.0)
        out.old.items result out.new.items fs.new }

    ensures counts { CountsFaults (Y.faults fs.old) (Y.faults fs.new)
        out.old.items result out.new.items }
    ensures complete { IsComplete Y.bus Y.faults fs.old
        (aim_of rules.now dev.now number held.0)
        out.old.items result out.new.items fs.new }
{
    let task = Task {
        rules,
        device: dev,
        number,
        held,
    };
    pass(alloc, fs, &task, out)
}
