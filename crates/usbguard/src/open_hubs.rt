// What the daemon tells a person of root hubs that switch new devices on.
ghost use Rattle.std.specs.Prelude.{◌≡◌, is_none};
ghost use Rattle.ug_core.specs.Settings.{hub_default};

use crate::folder::names_in;
use crate::shown::read_text;
use std::str;
use ug_arguments::read_daemon_words;
use ug_conf::{AuthDefault, Settings, parse_conf};
use ug_files::Priority;
use ug_types::Text;

/// Whether a daemon with this setting leaves the default of each root hub as it is.
fn leaves_defaults(default: AuthDefault) -> bool
    ensures { result ≡ is_none (hub_default default) }
{
    matches!(default, AuthDefault::Keep | AuthDefault::Internal)
}

// Whether a root hub whose `authorized_default` has this text switches on what comes to it, or some of it.
fn switches_on(text: &[u8]) -> bool {
    match text.first() {
        Some(byte) => *byte != b'0',
        None => false,
    }
}

// Whether the device of that name in the folder is a root hub that switches on what comes to it.
fn is_open(rt: &HostRuntime, devices: &str, name: &str) -> Option<bool> {
    if !name.starts_with("usb") {
        return Some(false);
    }
    let path = [devices, "/", name, "/authorized_default"]
        .concat(rt.alloc())
        .ok()?;
    let text = read_text(rt, path.as_str());
    drop(path);
    match text {
        Some(text) => {
            let is_on = switches_on(text.as_slice());
            drop(text);
            Some(is_on)
        }
        None => Some(false),
    }
}

// How many of these devices are such hubs.
fn count_of(rt: &HostRuntime, devices: &str, names: &[String]) -> Option<u64> {
    let mut count = 0u64;
    for name in names {
        if is_open(rt, devices, name.as_str())? {
            count = count.saturating_add(1);
        }
    }
    Some(count)
}

// How many root hubs of the folder of devices switch on what comes to them.
fn count_open(rt: &HostRuntime, devices: &str) -> Option<u64> {
    let names = names_in(rt, devices)?;
    let count = count_of(rt, devices, &names);
    drop(names);
    count
}

// The settings in that file, where they are good ones.
fn settings_at(rt: &HostRuntime, path: &Text) -> Option<Settings> {
    let text = read_text(rt, str::from_utf8(path.bytes()).ok()?)?;
    let settings = parse_conf(rt.alloc(), text.as_slice()).ok();
    drop(text);
    settings
}

/// AuthorizedDefault in the settings of a daemon with these words, where they are good ones. It is read before the start, which reads the
/// settings anew.
pub fn find_default(rt: &HostRuntime, words: &[&str]) -> Option<AuthDefault> {
    let path = read_daemon_words(rt.alloc(), words).ok()?;
    let found = settings_at(rt, &path);
    drop(path);
    let settings = found?;
    let default = settings.default;
    drop(settings);
    Some(default)
}

/// Tells on standard error how many root hubs switch on what comes to them, where the setting leaves them so.
pub fn tell_open_hubs(rt: &HostRuntime, default: AuthDefault, devices: &str) {
    if !leaves_defaults(default) {
        return;
    }
    if let Some(count) = count_open(rt, devices)
        && count > 0
    {
        eprintln!(Priority::Warning;
            "usbguard: root hubs that switch on what comes to them: {count}. A device works there before it is judged; with AuthorizedDefault=none it waits."
        );
    }
}
