// What the program tells of an access text that goes to no file.
use std::fs;
use ug_files::{Priority, Teller};

/// A command waits for whoever reads its sentences.
const NOTICE: Teller = Teller {
    priority: Priority::Notice,
    waits: true,
};

/// Standard output, as the kernel shows what is open.
const OUTPUT: &str = "/proc/self/fd/1";

fn goes_to_file(rt: &HostRuntime) -> bool {
    match fs::metadata(rt, OUTPUT) {
        Ok(metadata) => metadata.is_file(),
        Err(_) => false,
    }
}

/// Tells on standard error where the text of a command that ended well belongs, if it is an access text and goes to no file.
pub fn tell_unkept(rt: &HostRuntime, words: &[&str], status: u8) {
    if status != 0 || !matches!(words, ["add-user", ..]) || goes_to_file(rt) {
        return;
    }
    eprintln!(NOTICE;
        "usbguard: this alone grants nothing. The text belongs in a file of that name in /etc/usbguard/IPCAccessControl.d, where usbguard-access add puts it. It counts from the next start on: systemctl restart usbguard"
    );
}
