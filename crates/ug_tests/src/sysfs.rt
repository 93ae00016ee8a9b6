// A hub and a device come, are opened and written, and go.
use crate::devices::{HUB, KEY, device, plug};
use std::alloc::Global;
use ug_kernel::{Attr, Control, Held, Kind, Listing, Opened, Probe, ReadOut, Sysfs, Write, Wrote};
use ug_sysfs::{Move, SimKernel};
use ug_types::NodeName;

fn plan(kernel: &mut SimKernel, call: u64, after: bool, action: Move) -> Option<()> {
    kernel.schedule(call, after, action).ok()
}

// A hub, and a device that comes at the first call; the third call fails, and the fourth with its effect; the hub goes after the
// seventh.
fn scripted(alloc: Global) -> Option<SimKernel> {
    let mut kernel = SimKernel::new(alloc);
    plug(alloc, &mut kernel, b"usb1", HUB, false)?;
    let key = device(alloc, b"1-1", KEY, false)?;
    plan(&mut kernel, 1, false, Move::Plug(key))?;
    let hub = NodeName::parse(b"usb1").ok()?;
    plan(&mut kernel, 7, true, Move::Unplug(hub))?;
    kernel.fail(3, false).ok()?;
    kernel.fail(4, true).ok()?;
    Some(kernel)
}

// The hub and the device are listed, and the device's file is opened.
fn comes(alloc: Global, kernel: &mut SimKernel, key: &NodeName) -> bool {
    let listed = match kernel.list(alloc) {
        Listing::Names(names) => names.as_slice().len() == 2,
        _ => false,
    };
    let opened = kernel.open_control(alloc, key, Control::Authorized);
    listed && matches!(opened, Opened::Token(Held(0)))
}

// One write fails without its effect, and one with it.
fn fails(kernel: &mut SimKernel) -> bool {
    let first = kernel.write(Held(0), Write::On);
    let without = kernel.log().is_empty();
    let second = kernel.write(Held(0), Write::On);
    first == Wrote::Failed && without && second == Wrote::Failed
}

// It is probed, read and written while the hub is there.
fn answers(alloc: Global, kernel: &mut SimKernel, key: &NodeName) -> bool {
    let alive = matches!(kernel.probe(Held(0)), Probe::Alive(true));
    let read = matches!(
        kernel.read(alloc, key, Attr::Descriptors),
        ReadOut::Bytes(_)
    );
    alive && read && kernel.write(Held(0), Write::Off) == Wrote::Done
}

// It is gone with its hub.
fn goes(alloc: Global, kernel: &mut SimKernel, key: &NodeName) -> bool {
    let gone = matches!(kernel.probe(Held(0)), Probe::Gone);
    gone && matches!(kernel.read(alloc, key, Attr::Descriptors), ReadOut::Absent)
}

fn counts(kernel: &SimKernel) -> bool {
    let failed = match kernel.made().get(3) {
        Some(made) => made.kind == Kind::Failed,
        None => false,
    };
    failed && kernel.log().len() == 2 && kernel.calls() == 9 && kernel.faults() == 2
}

// The next event begins with no calls.
fn ends(kernel: &mut SimKernel) -> bool {
    kernel.close(Held(0));
    kernel.end_event();
    kernel.begin();
    kernel.devices().len() == 2 && kernel.made().is_empty() && !kernel.ran_out()
}

#[test]
fn a_script_runs(rt: HostRuntime) {
    let alloc = rt.alloc();
    let mut kernel = scripted(alloc).expect(&rt, "memory");
    let key = NodeName::parse(b"1-1").ok().expect(&rt, "a name");
    assert!(rt; comes(alloc, &mut kernel, &key));
    assert!(rt; fails(&mut kernel));
    assert!(rt; answers(alloc, &mut kernel, &key));
    assert!(rt; goes(alloc, &mut kernel, &key));
    assert!(rt; counts(&kernel));
    assert!(rt; ends(&mut kernel));
}
