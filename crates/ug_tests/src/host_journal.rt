// A journal's output, the zone and the seed of this machine.
use crate::folders::{holds, make_folder, put, remove_folder};
use std::fs;
use std::fs::{File, OpenOptions};
use ug_audit::{Auditor, Noted};
use ug_cond::Zone;
use ug_host::{LocalZone, WriterAuditor, read_seed};
use ug_types::Moment;

const JOURNAL: &str = "out/journal/lines";

fn notes(auditor: &mut WriterAuditor<File>, line: &[u8]) -> bool {
    auditor.note(line) == Noted::Done
}

fn keeps_nothing(auditor: &WriterAuditor<File>) -> bool {
    auditor.taken().is_none() && auditor.faults() == 0
}

#[test]
fn lines_are_written_at_once(rt: HostRuntime) {
    assert!(rt; make_folder(&rt, "out/journal"));
    let file = fs::create(&rt, JOURNAL).ok().expect(&rt, "no file");
    let mut auditor = WriterAuditor::new(file);
    assert!(rt; notes(&mut auditor, b"event 1 sweep 0"));
    assert!(rt; holds(&rt, JOURNAL, b"event 1 sweep 0\n"));
    assert!(rt; notes(&mut auditor, b"end 1"));
    assert!(rt; holds(&rt, JOURNAL, b"event 1 sweep 0\nend 1\n"));
    assert!(rt; keeps_nothing(&auditor));
    assert!(rt; remove_folder(&rt, "out/journal"));
}

fn fails(full: File) -> bool {
    let mut auditor = WriterAuditor::new(full);
    auditor.note(b"event 1 sweep 0") == Noted::Failed && auditor.faults() == 1
}

#[test]
fn a_full_output_is_a_failure(rt: HostRuntime) {
    let full = OpenOptions::new().write(true).open(&rt, "/dev/full");
    assert!(rt; fails(full.ok().expect(&rt, "no full output")));
}

// A file of one zone, without transitions: RFC 9636, version 1.
const ONE_HOUR_AHEAD: &[u8] =
    b"TZif\0\0\0\0\0\0\0\0\0\0\0\0\0\0\0\0\0\0\0\0\0\0\0\0\0\0\0\0\0\0\0\0\0\0\0\x01\0\0\0\x04\0\0\x0e\x10\0\0CET\0";

const ZONE: &str = "out/zone/localtime";

// Whether a clock in the zone of that file shows that second of the day when it is midnight in UTC.
fn shows(rt: &HostRuntime, second: u32) -> bool {
    let zone = LocalZone::read(rt, rt.alloc(), ZONE);
    zone.civil().local_second(Moment(0)) == second
}

#[test]
fn the_zone_of_a_file(rt: HostRuntime) {
    assert!(rt; make_folder(&rt, "out/zone"));
    assert!(rt; shows(&rt, 0));
    assert!(rt; put(&rt, ZONE, ONE_HOUR_AHEAD));
    assert!(rt; shows(&rt, 3600));
    assert!(rt; put(&rt, ZONE, b"Europe/Vienna\n"));
    assert!(rt; shows(&rt, 0));
    assert!(rt; remove_folder(&rt, "out/zone"));
}

#[test]
fn seeds_differ(rt: HostRuntime) {
    let first = read_seed(&rt).ok();
    assert!(rt; first.is_some() && first != read_seed(&rt).ok());
}
