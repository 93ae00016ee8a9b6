// The files of USB devices on this machine.
ghost use Rattle.std.specs.Prelude.{◌≡◌, ◌≤◌, ◌<◌, ◌+◌, ◌-◌, ◌^◌, true, [], None, refl};
ghost use Rattle.ug_kernel.specs.Calls.{Counts, raised, failed_listing, failed_open, failed_read, is_probe_failed, failed_put};
ghost use Rattle.ug_kernel.specs.Few.{HasFew, AreDistinct};
ghost use Rattle.ug_files.specs.Untold.{untold};

use crate::folder::Folder;
use std::alloc::Global;
use std::rt::Files;
use ug_kernel::{Attr, Control, Held, Listing, Opened, Probe, ReadOut, Sysfs, Write, Wrote};
use ug_types::NodeName;

/// The folder in which sysfs lists the USB devices, `/sys/bus/usb/devices` (sysfs-bus-usb), or one like it. What it answers is told
/// by the machine alone. A held file is taken for one of a device that is gone where reading it answers ENODEV; and where it answers
/// another error, but the name's folder is missing, or the number in its `devnum` is another than at the opening.
/// A control, `devnum` or `descriptors` that is missing though its device's folder stands is a failed
/// call.
/// A hub's descriptors, product and serial are read once for as long as its `authorized` is held, and given again where that answers.
#[derive(Drop)]
pub struct SysfsFolder<R: Files> {
    folder: Folder<R>,
    calls: u64,
    faults: u64,
}

impl<R: Files + AllocGlobal + Clone + Drop> SysfsFolder<R> {
    /// The devices of that folder, whose path has no slash at its end. It takes no memory.
    pub fn new(rt: R, alloc: Global, root: String) -> SysfsFolder<R>
        ensures calls { result.calls ≡ 0 }
        ensures faults { result.faults ≡ 0 }
    {
        SysfsFolder {
            folder: Folder::new(rt, alloc, root),
            calls: 0,
            faults: 0,
        }
    }

    // A call more, and a failure if it is one.
    fn count(&mut self, failed: bool)
        ensures calls { self.new.calls ≡ raised self.old.calls }
        ensures never_falls { self.old.faults ≤ self.new.faults }
        ensures by_one { self.new.faults ≤ self.old.faults + 1 }
        ensures rises { failed ≡ true → self.old.faults < 2 ^ 64 - 1
            → self.old.faults < self.new.faults }
    {
        self.calls = self.calls.saturating_add(1);
        if failed {
            self.faults = self.faults.saturating_add(1);
        }
    }
}

fn is_failed_listing(answer: &Listing) -> bool
    ensures { result ≡ failed_listing answer.now }
{
    matches!(answer, Listing::Failed)
}

fn is_failed_open(answer: Opened) -> bool
    ensures { result ≡ failed_open answer }
{
    matches!(answer, Opened::Failed)
}

fn is_failed_read(answer: &ReadOut) -> bool
    ensures { result ≡ failed_read answer.now }
{
    matches!(answer, ReadOut::Failed)
}

fn is_failed_probe(answer: Probe) -> bool
    ensures { result ≡ is_probe_failed answer }
{
    matches!(answer, Probe::Failed)
}

fn is_failed_write(answer: Wrote) -> bool
    ensures { result ≡ failed_put answer }
{
    matches!(answer, Wrote::Failed)
}

impl<R: Files + AllocGlobal + Clone + Drop> Sysfs for SysfsFolder<R> {
    ghost gives = { λ s call answer t. Counts call answer s.calls s.faults t.calls t.faults };

    ghost begins = { λ s t. (t.calls ≡ 0) × (t.faults ≡ s.faults) };

    ghost told = { λ s. None };

    ghost made = { λ s. [] };

    ghost calls = { λ s. s.calls };

    ghost faults = { λ s. s.faults };

    ghost did = { λ s call answer t l given told. untold l told };

    ghost noted = { λ s call answer t l given told. untold l told };

    ghost counted = { λ s call answer t given. given };

    ghost began = { λ s t begins. (refl, begins.0, begins.1) };

    ghost cleared = { λ s t begins. refl };

    fn begin(&mut self) {
        self.calls = 0;
    }

    fn calls(&self) -> u64 {
        self.calls
    }

    fn faults(&self) -> u64 {
        self.faults
    }

    #[tactic(auto, using(crate::proofs::Counting::counted_so))]
    fn list(&mut self, _alloc: Global) -> Listing {
        let answer = self.folder.list();
        self.count(is_failed_listing(&answer));
        answer
    }

    #[tactic(auto, using(crate::proofs::Counting::counted_so))]
    fn open_control(&mut self, alloc: Global, name: &NodeName, control: Control) -> Opened {
        let answer = self.folder.open_control(alloc, name, control);
        self.count(is_failed_open(answer));
        answer
    }

    #[tactic(auto, using(crate::proofs::Counting::counted_so))]
    fn read(&mut self, alloc: Global, name: &NodeName, attr: Attr) -> ReadOut {
        let answer = self.folder.read(alloc, name, attr);
        self.count(is_failed_read(&answer));
        answer
    }

    #[tactic(auto, using(crate::proofs::Counting::counted_so))]
    fn probe(&mut self, held: Held) -> Probe {
        let answer = self.folder.probe(held);
        self.count(is_failed_probe(answer));
        answer
    }

    #[tactic(auto, using(crate::proofs::Counting::counted_so))]
    fn write(&mut self, held: Held, what: Write) -> Wrote {
        let answer = self.folder.write(held, what);
        self.count(is_failed_write(answer));
        answer
    }

    fn close(&mut self, held: Held) {
        self.folder.close(held);
    }
}
