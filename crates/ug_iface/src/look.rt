// Looks at an interface by its name, and makes sure that it is of the very device that is held.
ghost use Rattle.std.specs.Prelude.{◌≡◌};
ghost use Rattle.ug_iface.specs.Look.{asking_iface, asking_device, looking, reading_iface};
ghost use Rattle.ug_iface.specs.Tree.{RunsIfaces};

use crate::calls::{IfaceHeld, IfaceOpened, IfaceRead};
use crate::ifaces::Ifaces;
use crate::name::IfaceName;
use std::alloc::Global;
use ug_kernel::{Held, Probe};
use ug_types::Triple;

/// What was found of an interface. Its file is closed on each answer but `Here`.
#[derive(Clone, Copy)]
pub enum Look {
    /// It is of the held device: its open file, its type, and its value of `authorized`.
    Here {
        file: IfaceHeld,
        triple: Triple,
        on: bool,
    },
    /// No such interface was there all the while.
    Absent,
    /// The device of the held file is gone.
    Gone,
    /// A call failed, and this is the count of failures.
    Failed(u64),
    Memory,
}

/// Opens the interface's file, reads its type, and then probes device and interface. So what was opened is known to be of
/// the device that is held, and of no other that has its name by now.
pub fn look_at<Y: Ifaces>(alloc: Global, files: &mut Y, name: &IfaceName, held: Held) -> Look
    ensures runs { RunsIfaces Y.serves files.old (looking name.now held.0) result files.new }
{
    match files.open_iface(alloc, name) {
        IfaceOpened::Token(file) => read(files, name, held, file),
        IfaceOpened::Absent => Look::Absent,
        IfaceOpened::Failed => Look::Failed(files.faults()),
        IfaceOpened::Memory => Look::Memory,
    }
}

fn read<Y: Ifaces>(files: &mut Y, name: &IfaceName, held: Held, file: IfaceHeld) -> Look
    ensures { RunsIfaces Y.serves files.old (reading_iface name.now held.0 file) result files.new }
{
    match files.read_iface(name) {
        IfaceRead::Is(triple) => ask_device(files, held, file, triple),
        IfaceRead::Absent => {
            files.close_iface(file);
            Look::Absent
        }
        IfaceRead::Failed => {
            let count = files.faults();
            files.close_iface(file);
            Look::Failed(count)
        }
    }
}

fn ask_device<Y: Ifaces>(files: &mut Y, held: Held, file: IfaceHeld, triple: Triple) -> Look
    ensures { RunsIfaces Y.serves files.old (asking_device held.0 file triple) result files.new }
{
    match files.probe_device(held) {
        Probe::Alive(_) => ask(files, file, triple),
        Probe::Gone => {
            files.close_iface(file);
            Look::Gone
        }
        Probe::Failed => {
            let count = files.faults();
            files.close_iface(file);
            Look::Failed(count)
        }
    }
}

fn ask<Y: Ifaces>(files: &mut Y, file: IfaceHeld, triple: Triple) -> Look
    ensures { RunsIfaces Y.serves files.old (asking_iface file triple) result files.new }
{
    match files.probe_iface(file) {
        Probe::Alive(on) => Look::Here { file, triple, on },
        Probe::Gone => {
            files.close_iface(file);
            Look::Absent
        }
        Probe::Failed => {
            let count = files.faults();
            files.close_iface(file);
            Look::Failed(count)
        }
    }
}
