// The daemon over this machine.
use crate::hub_parameter::tell_parameter;
use crate::hubs_watch::HubsWatch;
use crate::open_hubs::{find_default, tell_open_hubs};
use crate::told::{LastPaths, tell_end};
use std::alloc::AllocError;
use std::cell::Cell;
use std::rc::Rc;
use std::{env, io, mem};
use ug_audit::{Auditor, Panel};
use ug_conf::AuthDefault;
use ug_host::{
    ConfFolder, JournalOutput, LocalZone, RefusalReader, RuleFile, StartRefusal, SysfsFolder,
    SystemClock, WriterAuditor, read_seed,
};
use ug_serve::run_daemon;
use ug_sockets::{SocketFolder, SocketWaiter};

/// Where the devices are, what counts the kernel's announcements, and where the sockets come.
const DEVICES: &str = "/sys/bus/usb/devices";

const ANNOUNCED: &str = "/sys/kernel/uevent_seqnum";

const SOCKETS: &str = "/run/usbguard";

/// Standard output's number.
const OUTPUT: i32 = 1;

type Found = Rc<Cell<Option<StartRefusal>>>;

type Auditors = (
    Box<WriterAuditor<JournalOutput>>,
    Box<RefusalReader>,
    Box<HubsWatch>,
);

// Whether the environment has that variable with that value.
fn has_variable(rt: &HostRuntime, name: &str, wanted: &str) -> bool {
    match env::var(rt, name) {
        Ok(value) => value.as_str() == wanted,
        Err(_) => false,
    }
}

// The journal's output. The environment may ask that an event in which nothing happened leaves nothing there, and that the daemon waits
// until each line is out.
fn make_output(rt: &HostRuntime) -> JournalOutput {
    let omits_idle = has_variable(rt, "USBGUARD_IDLE_EVENTS", "omit");
    let mut output = JournalOutput::new(rt.alloc(), OUTPUT, omits_idle);
    output.set_waits(has_variable(rt, "USBGUARD_JOURNAL", "wait"));
    output
}

// A waiter that tells the service manager which the environment names.
fn make_waiter(rt: HostRuntime) -> io::Result<SocketWaiter<HostRuntime>> {
    let alloc = rt.alloc();
    let announced = String::from_str(alloc, ANNOUNCED)?;
    let mut waiter = SocketWaiter::new(rt, alloc, announced)?;
    if let Ok(manager) = env::var(&rt, "NOTIFY_SOCKET") {
        waiter.set_manager(manager.as_str());
    }
    Ok(waiter)
}

fn make_links(
    rt: HostRuntime,
    waiter: &SocketWaiter<HostRuntime>,
) -> io::Result<SocketFolder<HostRuntime>> {
    let folder = String::from_str(rt.alloc(), SOCKETS)?;
    SocketFolder::new(rt, rt.alloc(), folder, waiter)
}

// The journal goes to standard output, and is read along for a refusal, and for when to look at the
// root hubs.
fn make_auditors(
    rt: &HostRuntime,
    default: Option<AuthDefault>,
    found: &Found,
) -> Result<Auditors, AllocError> {
    let alloc = rt.alloc();
    let output = WriterAuditor::new(make_output(rt));
    let reader = RefusalReader::new(alloc, found.clone()?);
    let devices = String::from_str(alloc, DEVICES)?;
    let closes = matches!(default, Some(AuthDefault::None));
    let watch = HubsWatch::new(*rt, devices, closes);
    Ok((
        Box::new(alloc, output)?,
        Box::new(alloc, reader)?,
        Box::new(alloc, watch)?,
    ))
}

// What there is to tell of root hubs before the start.
fn tell_hubs(rt: &HostRuntime, default: Option<AuthDefault>) {
    if let Some(default) = default {
        tell_open_hubs(rt, default, DEVICES);
        tell_parameter(rt, default);
    }
}

fn make_found(rt: &HostRuntime) -> Result<Found, AllocError> {
    Ok(Rc::new(rt.alloc(), Cell::new(None))?)
}

// The status of a daemon that lacks something before its start.
fn status_without(error: &io::Error) -> u8 {
    if error.kind() == io::ErrorKind::OutOfMemory {
        6
    } else {
        11
    }
}

// Tells why a daemon ended with that status.
fn tell_found(rt: &HostRuntime, status: u8, found: &Found, paths: &LastPaths<'_>) {
    let refusal = found.take();
    tell_end(rt, status, refusal.as_ref(), paths);
    drop(refusal);
}

// The daemon with what waits and listens for it.
fn serve_with(
    rt: HostRuntime,
    words: &[&str],
    seed: [u8; 32],
    devices: String,
    default: Option<AuthDefault>,
    waiter: &mut SocketWaiter<HostRuntime>,
    links: &mut SocketFolder<HostRuntime>,
    found: Found,
) -> u8 {
    let alloc = rt.alloc();
    let Ok((output, reader, watch)) = make_auditors(&rt, default, &found) else {
        drop(found);
        drop(devices);
        return 6;
    };
    let mut members: Vec<Box<dyn Auditor>> = Vec::new(alloc);
    if members.push(output).is_err()
        || members.push(reader).is_err()
        || members.push(watch).is_err()
    {
        drop(members);
        drop(found);
        drop(devices);
        return 6;
    }
    let zone = LocalZone::read(&rt, alloc, "/etc/localtime");
    let mut files = ConfFolder::new(rt);
    let mut disk = RuleFile::new(rt, alloc);
    let mut sysfs = SysfsFolder::new(rt, alloc, devices);
    let mut panel = Panel::new(members);
    let status = run_daemon(
        alloc,
        words,
        seed,
        zone.civil(),
        &mut sysfs,
        &mut disk,
        &mut files,
        links,
        waiter,
        &mut SystemClock::new(rt),
        &mut panel,
        u64::MAX,
    );
    drop(panel);
    drop(sysfs);
    let paths = LastPaths {
        files: files.last_path(),
        rules: disk.path(),
        socket: links.last_path(),
    };
    tell_found(&rt, status, &found, &paths);
    drop(found);
    drop(disk);
    drop(files);
    drop(zone);
    status
}

/// The daemon over this machine's own devices, files, clock and zone, with its journal on standard output, and its status. The words
/// are those behind `daemon`. Where the system has no random bytes, the status is 4, and 11 where it has nothing to wait with.
///
/// Sessions are left to the end of the process, which waits for no peer.
pub fn serve(rt: HostRuntime, words: &[&str]) -> u8 {
    let Ok(devices) = String::from_str(rt.alloc(), DEVICES) else {
        return 6;
    };
    let Ok(found) = make_found(&rt) else {
        drop(devices);
        return 6;
    };
    let Ok(seed) = read_seed(&rt) else {
        drop(found);
        drop(devices);
        return 4;
    };
    let mut waiter = match make_waiter(rt) {
        Ok(waiter) => waiter,
        Err(e) => {
            drop(found);
            drop(devices);
            return status_without(&e);
        }
    };
    let mut links = match make_links(rt, &waiter) {
        Ok(links) => links,
        Err(e) => {
            drop(waiter);
            drop(found);
            drop(devices);
            return status_without(&e);
        }
    };
    let default = find_default(&rt, words);
    tell_hubs(&rt, default);
    let status = serve_with(
        rt,
        words,
        seed,
        devices,
        default,
        &mut waiter,
        &mut links,
        found,
    );
    mem::forget(links);
    drop(waiter);
    status
}
