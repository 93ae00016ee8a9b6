// What the program tells of itself, where it is asked to.
use crate::usage::{is_known, usage_text};

/// The version. A release's tag is `v` and this.
const VERSION: &str = "0.1.0";

/// What the program can be asked of itself: its version, or how one command or each is used.
enum Asked<'a> {
    Version,
    Usage(Option<&'a str>),
    Nothing,
}

fn tell_usage(rt: &HostRuntime, command: Option<&str>) -> std::io::Result<()> {
    let text = usage_text(rt.alloc(), command)?;
    println!(rt; "{text}")
}

// What the words ask for.
fn question_in<'a>(words: &[&'a str]) -> Asked<'a> {
    match words {
        ["--version" | "-V"] => Asked::Version,
        ["--help" | "-h"] => Asked::Usage(None),
        [command, "--help" | "-h"] if is_known(command) => Asked::Usage(Some(command)),
        _ => Asked::Nothing,
    }
}

/// Tells the version or how commands are used, on standard output, and gives the status; None where the words ask for neither.
pub fn tell_about(rt: &HostRuntime, words: &[&str]) -> Option<u8> {
    let told = match question_in(words) {
        Asked::Version => println!(rt; "usbguard {VERSION}"),
        Asked::Usage(command) => tell_usage(rt, command),
        Asked::Nothing => return None,
    };
    match told {
        Ok(()) => Some(0),
        Err(_) => Some(5),
    }
}
