// What the program tells a person who is to type its input.
use crate::input::input_link;
use std::io::IsTerminal;
use ug_arguments::{Command, read_command};
use ug_files::{Priority, Teller};

const NOTICE: Teller = Teller {
    priority: Priority::Notice,
    waits: true,
};

// What a command reads, and the usual way to give it; None where it reads nothing.
fn input_of(command: &Command) -> Option<(&'static str, &'static str)> {
    match command {
        Command::AddUser { .. } => Some((
            "the text of an access file",
            "usbguard add-user joe --devices list < FILE",
        )),
        Command::CheckRules => Some(("rules", "usbguard check-rules < /etc/usbguard/rules.conf")),
        Command::LintRules { .. } => Some((
            "rules",
            "usbguard lint-rules < /etc/usbguard/rules.conf",
        )),
        Command::GeneratePolicy => Some(("a script", "usbguard-script | usbguard generate-policy")),
        Command::ReadDescriptor => Some((
            "the descriptors of a device",
            "usbguard read-descriptor < /sys/bus/usb/devices/1-1/descriptors",
        )),
        Command::Replay | Command::Summarize => Some((
            "a script",
            "usbguard-script -r /etc/usbguard/rules.conf | usbguard replay",
        )),
        Command::MakeScript { .. }
        | Command::Ask { .. }
        | Command::ListChosen { .. }
        | Command::ListLabelled { .. }
        | Command::ListRuleDevices { .. }
        | Command::ChangeParameter { .. }
        | Command::Order { .. }
        | Command::Watch { .. }
        | Command::WatchWaiting { .. } => None,
    }
}

// The same of the command of these words.
fn input_for(rt: &HostRuntime, words: &[&str]) -> Option<(&'static str, &'static str)> {
    match read_command(rt.alloc(), words) {
        Ok(command) => {
            let input = input_of(&command);
            command.discard();
            input
        }
        Err(_) => None,
    }
}

// Tells that a policy is made of nothing, where nothing is what its input has.
fn tell_nothing(rt: &HostRuntime, words: &[&str]) {
    if !matches!(words, ["generate-policy"]) || !is_nothing(rt) {
        return;
    }
    eprintln!(NOTICE;
        "usbguard: standard input is /dev/null, which has no script. The usual way is: usbguard-script | usbguard generate-policy"
    );
}

// Whether standard input is /dev/null.
fn is_nothing(rt: &HostRuntime) -> bool {
    match input_link(rt) {
        Some(path) => {
            let is_nothing = path.as_str() == "/dev/null";
            drop(path);
            is_nothing
        }
        None => false,
    }
}

/// Tells on standard error what a command waits for, where its standard input is a terminal, and what it lacks where that is
/// /dev/null.
pub fn tell_waiting(rt: &HostRuntime, words: &[&str]) {
    if !rt.stdin().is_terminal() {
        return tell_nothing(rt, words);
    }
    if let Some((input, usual)) = input_for(rt, words) {
        eprintln!(NOTICE;
            "usbguard: reading {input} from the terminal, up to Ctrl-D on a line of its own. The usual way is: {usual}"
        );
    }
}
