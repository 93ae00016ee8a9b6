// Why no daemon runs, and what would help.
use crate::refusals::ERROR;
use crate::shown::read_text;
use std::fs;

/// Where the service's unit can lie: systemd.unit(5).
const UNITS: [&str; 5] = [
    "/etc/systemd/system/usbguard.service",
    "/run/systemd/system/usbguard.service",
    "/usr/local/lib/systemd/system/usbguard.service",
    "/usr/lib/systemd/system/usbguard.service",
    "/lib/systemd/system/usbguard.service",
];

/// The link by which the system starts it.
const ENABLED: &str = "/etc/systemd/system/basic.target.wants/usbguard.service";

const SETTINGS: &str = "/etc/usbguard/usbguard-daemon.conf";

const RULES: &str = "/etc/usbguard/rules.conf";

fn is_there(rt: &HostRuntime, path: &str) -> bool {
    fs::metadata(rt, path).is_ok()
}

fn is_installed(rt: &HostRuntime) -> bool {
    for unit in UNITS {
        if is_there(rt, unit) {
            return true;
        }
    }
    false
}

// Whether a line of a text is neither blank nor a comment.
fn has_entry(text: &[u8]) -> bool {
    for line in text.split(|byte| *byte == b'\n') {
        match line.trim_ascii_start().first() {
            None | Some(b'#') => {}
            Some(_) => return true,
        }
    }
    false
}

// Whether the settings name other rules than those of the usual file.
fn names_rules(text: &[u8]) -> bool {
    for line in text.split(|byte| *byte == b'\n') {
        let line = line.trim_ascii_start();
        if line.starts_with(b"RuleFile") || line.starts_with(b"RuleFolder") {
            return true;
        }
    }
    false
}

// Whether the settings, which can be read, have the rules in the usual file alone.
fn has_usual_rules(rt: &HostRuntime) -> bool {
    match read_text(rt, SETTINGS) {
        Some(text) => {
            let names = names_rules(text.as_slice());
            drop(text);
            !names
        }
        None => false,
    }
}

// Whether the usual rule file can be read, and has no rule.
fn lacks_rules(rt: &HostRuntime) -> bool {
    match read_text(rt, RULES) {
        Some(text) => {
            let has = has_entry(text.as_slice());
            drop(text);
            !has && has_usual_rules(rt)
        }
        None => false,
    }
}

/// Tells why no daemon runs, by what is installed, and what would help.
pub fn tell_service(rt: &HostRuntime) {
    if !is_installed(rt) {
        eprintln!(ERROR;
            "usbguard: no daemon runs, and no service usbguard is installed: its package has one. By hand, as root: usbguard daemon"
        );
    } else if lacks_rules(rt) {
        eprintln!(ERROR;
            "usbguard: no daemon runs, and {RULES} has no rule. As root: usbguard-script | usbguard generate-policy > {RULES}, then systemctl start usbguard"
        );
    } else if is_there(rt, ENABLED) {
        eprintln!(ERROR;
            "usbguard: the service is enabled, and no daemon runs: it has failed, or was stopped. systemctl status usbguard says which and why."
        );
    } else {
        eprintln!(ERROR; "usbguard: the service isn't started: systemctl enable --now usbguard");
    }
}
