// Why a daemon doesn't start.
ghost use Rattle.std.specs.Prelude.{◌≡◌};
ghost use Rattle.ug_serve.specs.Causes.{part_at, part_of_file, refusal_of_fault, refusal_of_start, refused_whole, start_status};

use ug_audit::{ConfigPart, FileName};
use ug_conf::is_rule_file_name;
use ug_core::StartFault;
use ug_types::{FileFault, NoMemory, Text, TextFault};

/// What keeps a daemon from its first turn.
#[derive(Clone, Copy)]
pub enum NotStarted {
    /// That part of the configuration isn't taken, by its first bad line. All numbers are 0 where the part as a whole isn't.
    Refused(ConfigPart, TextFault),
    /// A file of the configuration couldn't be read.
    FilesFailed,
    /// The rule file couldn't be read.
    DiskFailed,
    Memory,
}

// The folder's file of that name, where the name counts.
fn part_of_file(name: &[u8]) -> ConfigPart
    ensures { result ≡ part_of_file name.now }
{
    if is_rule_file_name(name) {
        ConfigPart::FolderFile(FileName::holding(name))
    } else {
        ConfigPart::Folder
    }
}

// That of the name at that place.
fn part_at(names: &[Text], place: u64) -> ConfigPart
    ensures { result ≡ part_at names.now place }
{
    match names.get(place as usize) {
        Some(name) => part_of_file(name.bytes()),
        None => ConfigPart::Folder,
    }
}

impl NotStarted {
    /// The part as a whole isn't taken.
    pub fn whole(part: ConfigPart) -> NotStarted
        ensures { result ≡ refused_whole part }
    {
        NotStarted::Refused(
            part,
            TextFault {
                line: 0,
                kind: 0,
                place: 0,
            },
        )
    }

    /// An access file isn't taken for that fault.
    pub fn of_access(fault: FileFault) -> NotStarted
        ensures { result ≡ refusal_of_fault fault }
    {
        match fault {
            FileFault::Bad(bad) => NotStarted::Refused(ConfigPart::Access, bad),
            FileFault::Memory => NotStarted::Memory,
        }
    }

    /// No daemon starts, for that fault, with the files of those names in its folder of rules.
    pub fn of_start(names: &[Text], fault: StartFault) -> NotStarted
        ensures { result ≡ refusal_of_start names.now fault }
    {
        match fault {
            StartFault::Disk(_) => NotStarted::DiskFailed,
            StartFault::BadFolder { file, fault } => {
                NotStarted::Refused(part_at(names, file), fault)
            }
            StartFault::FolderTooLong => NotStarted::whole(ConfigPart::Folder),
            StartFault::BadRules(bad) => NotStarted::Refused(ConfigPart::Rules, bad),
            StartFault::TooLong | StartFault::TooMany => NotStarted::whole(ConfigPart::Rules),
            StartFault::Memory => NotStarted::Memory,
        }
    }

    /// The daemon's exit status.
    pub fn status(&self) -> u8
        ensures { result ≡ start_status self.now }
    {
        match self {
            NotStarted::Refused(_, _) => 3,
            NotStarted::FilesFailed => 4,
            NotStarted::Memory => 6,
            NotStarted::DiskFailed => 9,
        }
    }
}

impl From<NoMemory> for NotStarted {
    ghost use Rattle.std.specs.Prelude.{◌≡◌};
    ghost use Rattle.ug_serve.specs.declared.not_started.NotStarted.TheVariants.{Memory};

    ghost from_gives = { λ _ why. why ≡ Memory };

    fn from(_error: NoMemory) -> NotStarted {
        NotStarted::Memory
    }
}
