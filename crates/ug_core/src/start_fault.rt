// What keeps a daemon from its start.
use ug_print::RulesTextFault;
use ug_store::RecoverFault;
use ug_types::{FileFault, NoMemory, TextFault};

/// Why a daemon doesn't start.
#[derive(Clone, Copy)]
pub enum StartFault {
    /// The reading failed; the disk's count of faults after it.
    Disk(u64),
    /// The first bad line.
    BadRules(TextFault),
    /// The rule file has more than 67,108,864 bytes, or the canonical text of its rules would have more.
    TooLong,
    /// More than 65,536 rules in the folder and the rule file together.
    TooMany,
    Memory,
    /// The file of the folder at that place, from 0, isn't rules: its first bad line.
    BadFolder { file: u64, fault: TextFault },
    /// The folder's files have more than 67,108,864 bytes in all.
    FolderTooLong,
}

impl From<NoMemory> for StartFault {
    ghost use Rattle.std.specs.Prelude.{◌≡◌};
    ghost use Rattle.ug_core.specs.declared.start_fault.StartFault.TheVariants.{Memory};

    ghost from_gives = { λ _ fault. fault ≡ Memory };

    fn from(_error: NoMemory) -> StartFault {
        StartFault::Memory
    }
}

impl From<RecoverFault> for StartFault {
    ghost use Rattle.std.specs.Prelude.{◌≡◌};
    ghost use Rattle.ug_core.specs.Starting.{fault_of_recovery};

    ghost from_gives = { λ error fault. fault ≡ fault_of_recovery error };

    fn from(error: RecoverFault) -> StartFault {
        match error {
            RecoverFault::Failed(count) => StartFault::Disk(count),
            RecoverFault::TooLong => StartFault::TooLong,
            RecoverFault::Memory => StartFault::Memory,
        }
    }
}

impl From<FileFault> for StartFault {
    ghost use Rattle.std.specs.Prelude.{◌≡◌};
    ghost use Rattle.ug_core.specs.Starting.{fault_of_file};

    ghost from_gives = { λ error fault. fault ≡ fault_of_file error };

    fn from(error: FileFault) -> StartFault {
        match error {
            FileFault::Bad(bad) => StartFault::BadRules(bad),
            FileFault::Memory => StartFault::Memory,
        }
    }
}

impl From<RulesTextFault> for StartFault {
    ghost use Rattle.std.specs.Prelude.{◌≡◌};
    ghost use Rattle.ug_core.specs.Starting.{fault_of_printing};

    ghost from_gives = { λ error fault. fault ≡ fault_of_printing error };

    fn from(error: RulesTextFault) -> StartFault {
        match error {
            RulesTextFault::TooLong => StartFault::TooLong,
            RulesTextFault::Memory => StartFault::Memory,
        }
    }
}
