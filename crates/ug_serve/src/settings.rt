// The daemon's settings.
ghost use Rattle.std.specs.Prelude.{◌≡◌, List, Err};
ghost use Rattle.ug_types.specs.Ends.{IsCounted, Rose};
ghost use Rattle.ug_serve.specs.Opening.{ReadsSettings, SettingsOf};
ghost use Rattle.ug_serve.specs.declared.not_started.NotStarted.TheVariants.{FilesFailed};

use crate::not_started::NotStarted;
use std::alloc::Global;
use ug_audit::ConfigPart;
use ug_conf::{ConfFiles, FileRead, Settings, parse_conf};
use ug_types::FileFault;

fn settings_of(alloc: Global, text: &[u8]) -> Result<Settings, NotStarted>
    ensures { SettingsOf text.now result }
{
    match parse_conf(alloc, text) {
        Ok(settings) => Ok(settings),
        Err(FileFault::Bad(bad)) => Err(NotStarted::Refused(ConfigPart::Settings, bad)),
        Err(FileFault::Memory) => Err(NotStarted::Memory),
    }
}

/// Reads the settings at that path. An absent file isn't taken.
pub fn read_settings<F: ConfFiles>(
    alloc: Global,
    path: &[u8],
    files: &mut F,
) -> Result<Settings, NotStarted>
    ensures reads { ReadsSettings F.gives path.now files.old result files.new }
    ensures counted { IsCounted (F.faults files.old) (F.faults files.new) }
    ensures cause { result ≡ Err FilesFailed → Rose (F.faults files.old) (F.faults files.new) }
{
    match files.read_file(alloc, path) {
        FileRead::Bytes(text) => settings_of(alloc, text.bytes()),
        FileRead::Absent | FileRead::TooLong => Err(NotStarted::whole(ConfigPart::Settings)),
        FileRead::Failed => Err(NotStarted::FilesFailed),
        FileRead::Memory => Err(NotStarted::Memory),
    }
}
