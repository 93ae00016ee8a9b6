// What the daemon tells a person of root hubs while it runs.
ghost use Rattle.std.specs.Prelude.{◌≡◌, None};
ghost use Rattle.std.specs.Option.{option_copied};
ghost use Rattle.ug_types.specs.Ends.{IsCounted, Rose};
ghost use Rattle.ug_audit.specs.Auditors.{TakesEntryLine};

use crate::folder::names_in;
use crate::shown::read_text;
use std::alloc::Global;
use std::str;
use ug_audit::{Auditor, Noted};
use ug_files::tell;

/// Seconds from one look to the next.
const MINUTE: u64 = 60;

/// The files of a root hub that say what becomes of what comes to it, and below it of interfaces.
const DEFAULT: &str = "authorized_default";

const INTERFACE_DEFAULT: &str = "interface_authorized_default";

/// The root hubs of which a person was told something, with blanks between.
#[derive(Drop)]
struct Told {
    hubs: String,
}

impl Told {
    // Tells it of these, unless it was told of just these.
    fn tell(&mut self, alloc: Global, found: String, before: &str, behind: &str) {
        if found.as_str() == self.hubs.as_str() {
            return;
        }
        self.hubs = found;
        let hubs = self.hubs.as_str();
        if hubs.is_empty() {
            return;
        }
        if let Ok(sentence) = format!(in alloc; "usbguard: {before}: {hubs}. {behind}\n") {
            tell(sentence.as_str());
        }
    }
}

/// Reads along in a journal, and looks at the root hubs behind the first event and then once a minute: whether another hand has opened
/// one that the daemon closed, and whether interfaces below one are off. Each is told once on standard error, for as long as it stays.
#[derive(Drop)]
pub struct HubsWatch {
    rt: HostRuntime,
    devices: String,
    /// Whether the settings have the hubs closed.
    closes: bool,
    /// The moment of the present event, and from which moment on there is to be another look.
    moment: u64,
    due: u64,
    opened: Told,
    bare: Told,
}

// The moment in an event's first line: `event 2 sweep 200`.
fn moment_in(line: &[u8]) -> Option<u64> {
    let mut words = str::from_utf8(line).ok()?.split(' ');
    if words.next()? != "event" {
        return None;
    }
    words.nth(2)?.parse::<u64>().ok()
}

// Whether a text that can be had begins with one of these bytes.
fn begins(text: Option<Vec<u8>>, bytes: &[u8]) -> bool {
    match text {
        Some(text) => match text.first() {
            Some(byte) => bytes.contains(byte),
            None => false,
        },
        None => false,
    }
}

// Adds a name to others, with a blank between.
fn add_name(hubs: &mut String, name: &str) -> Option<()> {
    if !hubs.is_empty() {
        hubs.push(' ').ok()?;
    }
    hubs.push_str(name).ok()
}

impl HubsWatch {
    /// Over that folder of devices. The hubs are to be closed, or it doesn't matter.
    pub fn new(rt: HostRuntime, devices: String, closes: bool) -> HubsWatch {
        let alloc = rt.alloc();
        HubsWatch {
            rt,
            devices,
            closes,
            moment: 0,
            due: 0,
            opened: Told {
                hubs: String::new(alloc),
            },
            bare: Told {
                hubs: String::new(alloc),
            },
        }
    }

    // Whether a file of the hub begins with one of these bytes.
    fn has(&self, hub: &str, file: &str, bytes: &[u8]) -> Option<bool> {
        let path = [self.devices.as_str(), hub, file]
            .join(self.rt.alloc(), "/")
            .ok()?;
        Some(begins(read_text(&self.rt, path.as_str()), bytes))
    }

    // The root hubs of which a file begins so, with blanks between.
    fn hubs_with(&self, names: &[String], file: &str, bytes: &[u8]) -> Option<String> {
        let mut hubs = String::new(self.rt.alloc());
        for name in names {
            let name = name.as_str();
            if name.starts_with("usb") && self.has(name, file, bytes)? {
                add_name(&mut hubs, name)?;
            }
        }
        Some(hubs)
    }

    fn tell_opened(&mut self, names: &[String]) -> Option<()> {
        let found = self.hubs_with(names, DEFAULT, b"12")?;
        self.opened.tell(
            self.rt.alloc(),
            found,
            "root hubs that switch on what comes to them, though AuthorizedDefault is none",
            "The daemon writes 0 to a hub's authorized_default once. Another hand has written it since, or that write failed.",
        );
        Some(())
    }

    fn tell_bare(&mut self, names: &[String]) -> Option<()> {
        let found = self.hubs_with(names, INTERFACE_DEFAULT, b"0")?;
        self.bare.tell(
            self.rt.alloc(),
            found,
            "root hubs whose interface_authorized_default is 0",
            "No driver binds to a device there, not even to one that is allowed.",
        );
        Some(())
    }

    // Looks at all hubs.
    fn look(&mut self) -> Option<()> {
        let mut names = names_in(&self.rt, self.devices.as_str())?;
        names.sort_unstable();
        if self.closes {
            self.tell_opened(names.as_slice())?;
        }
        self.tell_bare(names.as_slice())
    }

    // Whether it is time for a look. A clock that was put back doesn't put it off.
    fn is_due(&self) -> bool {
        self.moment >= self.due || self.due - self.moment > MINUTE
    }
}

impl Auditor for HubsWatch {
    ghost text = { λ a. None };

    ghost faults = { λ a. 0 };

    fn note(&mut self, line: &[u8]) -> Noted {
        if let Some(moment) = moment_in(line) {
            self.moment = moment;
        } else if line.starts_with(b"end ") && self.is_due() {
            self.due = self.moment.saturating_add(MINUTE);
            let _looked = self.look();
        }
        Noted::Done
    }

    fn taken(&self) -> Option<&[u8]>
        ensures { option_copied result ≡ None }
    {
        None
    }

    fn faults(&self) -> u64 {
        0
    }
}
