// What the auditors are given, and what devices are written, in one list in the order in which it comes.
ghost use Rattle.std.specs.Prelude.{None};

use crate::devices::plug;
use crate::serve::{USUAL, files, make_given, no_links, run_over};
use std::alloc::Global;
use std::cell::RefCell;
use std::rc::Rc;
use ug_audit::{Auditor, Noted, Panel};
use ug_kernel::{Attr, Control, Held, Listing, Opened, Probe, ReadOut, Sysfs, Write, Wrote};
use ug_sysfs::SimKernel;
use ug_types::NodeName;

// Appends a line to the list. One that finds no memory is missing there.
fn append(list: &Rc<RefCell<Vec<u8>>>, line: &[u8]) {
    if let Ok(mut text) = list.try_borrow_mut() {
        let _line = text.extend_from_slice(line).is_ok();
        let _end = text.push(b'\n').is_ok();
    }
}

// An auditor that appends to the list.
#[derive(Drop)]
struct ListAuditor {
    list: Rc<RefCell<Vec<u8>>>,
}

impl Auditor for ListAuditor {
    ghost text = { λ a. None };

    ghost faults = { λ a. 0 };

    fn note(&mut self, line: &[u8]) -> Noted {
        append(&self.list, line);
        Noted::Done
    }

    fn taken(&self) -> Option<&[u8]> {
        None
    }

    fn faults(&self) -> u64 {
        0
    }
}

// A kernel's files, whose writes append to the list before they are made.
#[derive(Drop)]
struct Watched<Y> {
    files: Y,
    list: Rc<RefCell<Vec<u8>>>,
}

impl<Y: Sysfs + Drop> Sysfs for Watched<Y> {
    ghost gives = { λ s call answer t. Y.gives s.files call answer t.files };

    ghost begins = { λ s t. Y.begins s.files t.files };

    ghost told = { λ s. Y.told s.files };

    ghost made = { λ s. Y.made s.files };

    ghost calls = { λ s. Y.calls s.files };

    ghost faults = { λ s. Y.faults s.files };

    ghost did = { λ s call answer t l. Y.did s.files call answer t.files l };

    ghost noted = { λ s call answer t l. Y.noted s.files call answer t.files l };

    ghost counted = { λ s call answer t. Y.counted s.files call answer t.files };

    ghost began = { λ s t. Y.began s.files t.files };

    ghost cleared = { λ s t. Y.cleared s.files t.files };

    fn begin(&mut self) {
        self.files.begin();
    }

    fn calls(&self) -> u64 {
        self.files.calls()
    }

    fn faults(&self) -> u64 {
        self.files.faults()
    }

    fn list(&mut self, alloc: Global) -> Listing {
        self.files.list(alloc)
    }

    fn open_control(&mut self, alloc: Global, name: &NodeName, control: Control) -> Opened {
        self.files.open_control(alloc, name, control)
    }

    fn read(&mut self, alloc: Global, name: &NodeName, attr: Attr) -> ReadOut {
        self.files.read(alloc, name, attr)
    }

    fn probe(&mut self, held: Held) -> Probe {
        self.files.probe(held)
    }

    fn write(&mut self, held: Held, what: Write) -> Wrote {
        let word: &[u8] = match what {
            Write::On => b"call on",
            Write::Off => b"call off",
            Write::Remove => b"call remove",
            Write::DefaultOff => b"call default-off",
            Write::DefaultOn => b"call default-on",
        };
        append(&self.list, word);
        self.files.write(held, what)
    }

    fn close(&mut self, held: Held) {
        self.files.close(held);
    }
}

/// The name, the class, the vendor and the product of a root hub, and of three devices at it.
const DEVICES: [(&[u8], u8, u8, u8); 4] = [
    (b"usb1", 9, 0, 0),
    (b"1-1", 0, 80, 17),
    (b"1-2", 0, 80, 18),
    (b"1-3", 0, 80, 19),
];

// The hub is on, and the devices are off.
fn kernel(alloc: Global) -> Option<SimKernel> {
    let mut kernel = SimKernel::new(alloc);
    for (name, class, vendor, product) in DEVICES {
        let descriptors = [
            18, 1, 0, 2, class, 0, 0, 64, vendor, 16, product, 0, 0, 1, 0, 0, 0, 1,
        ];
        plug(alloc, &mut kernel, name, &descriptors, class == 9)?;
    }
    Some(kernel)
}

fn make_watched(alloc: Global, list: &Rc<RefCell<Vec<u8>>>) -> Option<Watched<SimKernel>> {
    let files = kernel(alloc)?;
    let list = list.clone().ok()?;
    Some(Watched { files, list })
}

fn panel(alloc: Global, list: &Rc<RefCell<Vec<u8>>>) -> Option<Panel> {
    let list = list.clone().ok()?;
    let mut members: Vec<Box<dyn Auditor>> = Vec::new(alloc);
    members
        .push(Box::new(alloc, ListAuditor { list }).ok()?)
        .ok()?;
    Some(Panel::new(members))
}

const SETTINGS: [(&[u8], &[u8]); 1] = [(USUAL, b"PresentDevicePolicy=apply-policy")];

const RULES: &[u8] = b"allow 1050:0011\nreject 1050:0013\n";

// One turn of the daemon, whose rules allow the first device and reject the third.
fn run(alloc: Global, list: &Rc<RefCell<Vec<u8>>>) -> Option<u8> {
    let mut kernel = make_watched(alloc, list)?;
    let mut files = files(alloc, &SETTINGS)?;
    let mut given = make_given(alloc, RULES, no_links(alloc))?;
    let mut panel = panel(alloc, list)?;
    Some(run_over(
        alloc,
        &[],
        &mut files,
        &mut kernel,
        &mut given,
        1,
        &mut panel,
    ))
}

const LIST: &[u8] = b"event 1 sweep 100
judged 1 usb1 allow keep
judged 2 1-1 allow rule 1
intent 2 1-1 on
call on
wrote 2 1-1 on done
judged 3 1-2 block implicit
judged 4 1-3 reject rule 2
intent 4 1-3 remove
call remove
wrote 4 1-3 remove done
end 1
";

fn is_listed(list: &Rc<RefCell<Vec<u8>>>, wanted: &[u8]) -> bool {
    match list.try_borrow() {
        Ok(text) => text.as_slice() == wanted,
        Err(_) => false,
    }
}

#[test]
fn intent_first(rt: HostRuntime) {
    let alloc = rt.alloc();
    let list = Rc::new(alloc, RefCell::new(Vec::new(alloc)));
    let list = list.ok().expect(&rt, "memory");
    assert!(rt; run(alloc, &list) == Some(0));
    assert!(rt; is_listed(&list, LIST));
}
