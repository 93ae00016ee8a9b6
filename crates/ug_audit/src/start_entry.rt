// What the daemon notes of its start.
use crate::file_name::FileName;

/// A part of the daemon's configuration: usbguard-daemon.conf(5), usbguard-rules.conf(5), the folder of rules, and the files that grant
/// access.
#[derive(Clone, Copy)]
pub enum ConfigPart {
    Settings,
    /// The folder of rules, as a whole.
    Folder,
    /// A file of the folder of rules.
    FolderFile(FileName),
    Rules,
    Access,
}

/// One line of the journal, before those of the events.
#[derive(Clone, Copy)]
pub enum StartEntry {
    /// That line of the settings has a key that isn't used.
    UnusedKey {
        line: u64,
    },
    /// This part was refused, by its first bad line. All three numbers are 0 if the part as a whole was refused.
    Refused {
        part: ConfigPart,
        line: u64,
        kind: u8,
        place: u64,
    },
}
