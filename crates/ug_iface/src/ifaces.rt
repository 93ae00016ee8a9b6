// The trait of the outside: what the files of interfaces answer.
ghost use Rattle.std.specs.Prelude.{◌≡◌, Option, Some};
ghost use Rattle.ug_iface.specs.Bus.{Bus};
ghost use Rattle.ug_iface.specs.Called.{IfaceFollows, OnlyMoves};
ghost use Rattle.ug_iface.specs.Calls.{IfaceAnswer, Ask, Ask_device, IfaceCall, Close, CountsIface, Names_of, Open, Put_off, Read, HasFewIfaces, AreOf, AreDistinctIfaces};
ghost use Rattle.ug_kernel.specs.Calls.{Answer, Call, Closed};

use crate::calls::{IfaceHeld, IfaceListing, IfaceOpened, IfaceRead};
use crate::name::IfaceName;
use std::alloc::Global;
use ug_kernel::{Held, Probe, Sysfs, Wrote};
use ug_types::NodeName;

/// The files of the interfaces of USB devices (sysfs-bus-usb). An interface can come or go, and its device with it, at
/// any moment, and each call can fail. The calls are numbered, and their failures counted, together with those of the
/// devices' files.
pub trait Ifaces: Sysfs {
    /// What a call may answer, and what it leaves.
    ghost serves: { Self → (call : IfaceCall) → IfaceAnswer call → Self → Type 0 };

    /// Devices and interfaces together, where they are told.
    ghost bus: { Self → Option Bus };

    /// The interfaces of the device of that name, each once, and at most 1,024.
    fn list_ifaces(&mut self, alloc: Global, name: &NodeName) -> IfaceListing
        ensures serves { serves self.old (Names_of name.now)
            (record {
              answer = result;
              number = Self.calls self.new;
              count = Self.faults self.new;
            }) self.new }
        ensures few { HasFewIfaces result }
        ensures named { AreOf name.now result }
        ensures distinct { AreDistinctIfaces result };

    /// Opens the `authorized` file of the interface of that name.
    fn open_iface(&mut self, alloc: Global, name: &IfaceName) -> IfaceOpened
        ensures { serves self.old (Open name.now)
            (record {
              answer = result;
              number = Self.calls self.new;
              count = Self.faults self.new;
            }) self.new };

    /// Reads class, subclass and protocol of the interface of that name.
    fn read_iface(&mut self, name: &IfaceName) -> IfaceRead
        ensures { serves self.old (Read name.now)
            (record {
              answer = result;
              number = Self.calls self.new;
              count = Self.faults self.new;
            }) self.new };

    /// Whether the device of a held file is there, and its value of `authorized`.
    fn probe_device(&mut self, held: Held) -> Probe
        ensures { serves self.old (Ask_device held.0)
            (record {
              answer = result;
              number = Self.calls self.new;
              count = Self.faults self.new;
            }) self.new };

    /// Whether the interface of a held file is there, and its value of `authorized`.
    fn probe_iface(&mut self, held: IfaceHeld) -> Probe
        ensures { serves self.old (Ask held.0)
            (record {
              answer = result;
              number = Self.calls self.new;
              count = Self.faults self.new;
            }) self.new };

    /// Switches off the interface of a held file. A write that fails may have had its effect.
    fn write_off(&mut self, held: IfaceHeld) -> Wrote
        ensures { serves self.old (Put_off held.0)
            (record {
              answer = result;
              number = Self.calls self.new;
              count = Self.faults self.new;
            }) self.new };

    /// Closes a held file. That is no numbered call.
    fn close_iface(&mut self, held: IfaceHeld)
        ensures { serves self.old (Close held.0) Closed self.new };

    /// Where devices and interfaces are told after a call, they were told before it, and the call did what it may.
    ghost did_so: { (s : Self) (call : IfaceCall) (answer : IfaceAnswer call) (t : Self) (l : Bus)
        → serves s call answer t → bus t ≡ Some l → IfaceFollows call answer (bus s) l };

    /// Where they are told after a call of the devices' files, they were told before it, and interfaces only moved.
    ghost kept_so: { (s : Self) (call : Call) (answer : Answer call) (t : Self) (l : Bus)
        → Self.gives s call answer t → bus t ≡ Some l → OnlyMoves (bus s) l };

    /// The beginning of an event changes nothing of them.
    ghost began_so: { (s t : Self) → Self.begins s t → bus t ≡ bus s };

    /// Where they are told, the kernel that is told is theirs.
    ghost one_kernel: { (s : Self) (b : Bus) → bus s ≡ Some b → Self.told s ≡ Some b.kernel };

    /// Each call is counted, and each failure.
    ghost counts_so: { (s : Self) (call : IfaceCall) (answer : IfaceAnswer call) (t : Self)
        → serves s call answer t
        → CountsIface call answer (Self.calls s) (Self.faults s) (Self.calls t) (Self.faults t) };
}
