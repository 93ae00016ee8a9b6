// A daemon starts from a rule file.
use crate::devices::hub_and_key;
use rand_chacha::ChaCha20Rng;
use rand_core::SeedableRng;
use std::alloc::Global;
use ug_acl::Acl;
use ug_audit::{Panel, line_of};
use ug_cond::FixedZone;
use ug_conf::default_settings;
use ug_core::{Daemon, StartFault};
use ug_store::{MemDisk, RuleDisk};
use ug_sysfs::{SimKernel, Sysfs};
use ug_types::{Event, List, Moment};

// Settings by default, nobody may do anything, the clock of UTC, and a seed of zeros.
fn start(alloc: Global, disk: &mut MemDisk) -> Result<Daemon<FixedZone, ChaCha20Rng>, StartFault> {
    let Ok(settings) = default_settings(alloc) else {
        return Err(StartFault::Memory);
    };
    let rng = ChaCha20Rng::from_seed([0; 32]);
    let acl = Acl::new(alloc);
    let folder = List::new(alloc);
    Daemon::start(alloc, settings, acl, rng, FixedZone::UTC, 7, folder, disk)
}

// Handles a sweep, before a panel without members.
fn sweeps(
    alloc: Global,
    daemon: &mut Daemon<FixedZone, ChaCha20Rng>,
    kernel: &mut SimKernel,
    disk: &mut MemDisk,
) -> bool {
    if !daemon.has_numbers(kernel.faults(), disk.faults()) {
        return false;
    }
    let mut nobody = Panel::new(Vec::new(alloc));
    let event = Event::Sweep(Moment(1700000000));
    daemon.handle(alloc, &event, kernel, disk, &mut nobody);
    true
}

fn notes(daemon: &Daemon<FixedZone, ChaCha20Rng>, lines: &[&[u8]]) -> bool {
    let entries = daemon.report().entries.as_slice();
    let same = entries
        .iter()
        .zip(lines.iter())
        .all(|(entry, line)| line_of(entry).bytes() == *line);
    same && entries.len() == lines.len()
}

#[test]
fn keeps_a_hub_and_allows_by_a_rule(rt: HostRuntime) {
    let alloc = rt.alloc();
    let mut kernel = hub_and_key(alloc, false).expect(&rt, "memory");
    let text = b"# keys\nblock 1050:0012\nallow 1050:0011\n\nblock 1050:0011";
    let mut disk = MemDisk::with_text(alloc, text).expect(&rt, "memory");
    let Ok(mut daemon) = start(alloc, &mut disk) else {
        panic!(rt; "the daemon didn't start");
    };
    assert!(rt; sweeps(alloc, &mut daemon, &mut kernel, &mut disk));
    let lines: [&[u8]; 6] = [
        b"event 7 sweep 1700000000",
        b"judged 1 usb1 allow keep",
        b"judged 2 1-1 allow rule 2",
        b"intent 2 1-1 on",
        b"wrote 2 1-1 on done",
        b"end 7",
    ];
    assert!(rt; notes(&daemon, &lines));
}

#[test]
fn tells_what_keeps_it_from_its_start(rt: HostRuntime) {
    let alloc = rt.alloc();
    let text = b"allow 1d6b:0002\nallow id\n";
    let mut disk = MemDisk::with_text(alloc, text).expect(&rt, "memory");
    match start(alloc, &mut disk) {
        Err(StartFault::BadRules(bad)) => assert!(rt; bad.line == 2),
        _ => panic!(rt; "a bad line was taken"),
    }
}
