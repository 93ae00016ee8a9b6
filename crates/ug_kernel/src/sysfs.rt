// The trait of the outside: what the kernel's files answer.
ghost use Rattle.std.specs.Prelude.{◌≡◌, ℕ, List, [], ◌++◌, Option, Some};
ghost use Rattle.ug_kernel.specs.Calls.{Call, Answer, Names, Open, Read, Ask_alive, Put, Close, Closed, Counts};
ghost use Rattle.ug_kernel.specs.Kernel.{Kernel, IsOpenable};
ghost use Rattle.ug_kernel.specs.Called.{Follows};
ghost use Rattle.ug_kernel.specs.declared.record.CallRecord.{CallRecord};
ghost use Rattle.ug_kernel.specs.Entries.{entry_of};
ghost use Rattle.ug_kernel.specs.Few.{HasFew, AreDistinct};

use crate::calls::{Listing, Opened, Probe, ReadOut, Wrote};
use crate::control::{Attr, Control, Held, Write};
use std::alloc::Global;
use ug_types::NodeName;

/// The files of USB devices in sysfs (sysfs-bus-usb). A device can come or go, or be replaced by another
/// of the same name, at any moment, and each call can fail.
pub trait Sysfs {
    /// What a call may answer, and what it leaves.
    ghost gives: { Self → (call : Call) → Answer call → Self → Type 0 };

    /// What the beginning of an event leaves.
    ghost begins: { Self → Self → Type 0 };

    /// The kernel, where it is told.
    ghost told: { Self → Option Kernel };

    /// The event's calls so far, where the kernel is told: what each was given, and the kind of its answer. Closing isn't listed.
    ghost made: { Self → List CallRecord };

    /// How many calls there were since the event began, and how many failed since the object was made.
    ghost calls: { Self → ℕ };

    ghost faults: { Self → ℕ };

    /// Begins an event: its calls are numbered from 1.
    fn begin(&mut self)
        ensures { begins self.old self.new };

    /// The number of the last call. Closing isn't counted.
    fn calls(&self) -> u64
        ensures { result ≡ calls self.now };

    /// How many calls have failed.
    fn faults(&self) -> u64
        ensures { result ≡ faults self.now };

    /// The names of all devices: distinct, and at most 65,536.
    fn list(&mut self, alloc: Global) -> Listing
        ensures gives { gives self.old Names
            (record {
              answer = result;
              number = calls self.new;
              count = faults self.new;
            }) self.new }
        ensures few { HasFew result }
        ensures distinct { AreDistinct result };

    /// Opens a file of the device of that name. A root hub alone has an `authorized_default`.
    fn open_control(&mut self, alloc: Global, name: &NodeName, control: Control) -> Opened
        requires { IsOpenable control name.now }
        ensures { gives self.old (Open name.now control)
            (record {
              answer = result;
              number = calls self.new;
              count = faults self.new;
            }) self.new };

    /// Reads a file of the device of that name.
    fn read(&mut self, alloc: Global, name: &NodeName, attr: Attr) -> ReadOut
        ensures { gives self.old (Read name.now attr)
            (record {
              answer = result;
              number = calls self.new;
              count = faults self.new;
            }) self.new };

    /// Whether the device of a held file is there, and its value of `authorized`.
    fn probe(&mut self, held: Held) -> Probe
        ensures { gives self.old (Ask_alive held.0)
            (record {
              answer = result;
              number = calls self.new;
              count = faults self.new;
            }) self.new };

    /// Writes through a held file. A write that fails may have had its effect.
    fn write(&mut self, held: Held, what: Write) -> Wrote
        ensures { gives self.old (Put held.0 what)
            (record {
              answer = result;
              number = calls self.new;
              count = faults self.new;
            }) self.new };

    /// Closes a held file.
    fn close(&mut self, held: Held)
        ensures { gives self.old (Close held.0) Closed self.new };

    /// Where a kernel is told after a call, one was told before it, and the call did what it may.
    ghost did: { (s : Self) (call : Call) (answer : Answer call) (t : Self) (l : Kernel)
        → gives s call answer t → told t ≡ Some l → Follows call answer (told s) l };

    /// Where a kernel is told after a call, that call was added to the event's calls, as the last.
    ghost noted: { (s : Self) (call : Call) (answer : Answer call) (t : Self) (l : Kernel)
        → gives s call answer t → told t ≡ Some l → made t ≡ made s ++ entry_of call answer };

    /// Each call is counted, and each failure.
    ghost counted: { (s : Self) (call : Call) (answer : Answer call) (t : Self)
        → gives s call answer t → Counts call answer (calls s) (faults s) (calls t) (faults t) };

    /// A new event begins with no call, and changes nothing else that is told.
    ghost began: { (s t : Self) → begins s t
        → (told t ≡ told s) × (calls t ≡ 0) × (faults t ≡ faults s) };

    /// No call was made yet.
    ghost cleared: { (s t : Self) → begins s t → made t ≡ [] };
}
