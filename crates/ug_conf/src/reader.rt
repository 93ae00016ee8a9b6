// Settings that come a line at a time.
ghost use Rattle.std.specs.Prelude.{◌≡◌, [], IfOk};
ghost use Rattle.ug_conf.specs.Draft.{draft_of};
ghost use Rattle.ug_conf.specs.Settings.{defaults};
ghost use Rattle.ug_conf.specs.Reader.{TakesSettingLine};

use crate::defaults::default_settings;
use crate::draft::add_line;
use crate::fault::FaultKind;
use crate::keys::Key;
use crate::settings::Settings;
use std::alloc::Global;
use std::marker::Model;
use ug_types::{LineFault, NoMemory};

/// Settings so far, the keys that were set, and how many lines were taken.
#[derive(Drop)]
pub struct SettingsReader {
    alloc: Global,
    settings: Settings,
    seen: Vec<Key>,
    lines: u64,
}

impl Model for SettingsReader {
    ghost use Rattle.ug_conf.specs.Draft.{draft_of};
    ghost use Rattle.ug_conf.specs.Reader.{Progress};

    ghost Value = { Progress };

    ghost view = { λ r. record { draft = draft_of r.settings r.seen.items; lines = r.lines } };
}

impl SettingsReader {
    /// Drops it, as `Settings::discard`.
    pub fn discard(self) {}

    /// No line yet: the settings are those of `default_settings`.
    pub fn new(alloc: Global) -> Result<SettingsReader, NoMemory>
        ensures { IfOk result (λ reader. reader ≡ record {
          draft = draft_of defaults [];
          lines = 0;
        }) }
    {
        Ok(SettingsReader {
            alloc,
            settings: default_settings(alloc)?,
            seen: Vec::new(alloc),
            lines: 0,
        })
    }

    /// Takes a line without its newline, as `parse_conf` does. No key may be set twice in the lines so far. A refusal changes
    /// nothing.
    pub fn line(&mut self, line: &[u8]) -> Result<(), LineFault<FaultKind>>
        ensures { TakesSettingLine result self.old self.new line.now }
    {
        let number = self.lines.saturating_add(1);
        match add_line(self.alloc, &mut self.settings, &mut self.seen, number, line) {
            Ok(()) => {
                self.lines = number;
                Ok(())
            }
            Err(fault) => Err(fault),
        }
    }

    /// The settings of the lines so far, where more may come.
    pub fn so_far(&self) -> &Settings
        ensures { result.now ≡ self.now.draft.settings }
    {
        &self.settings
    }

    /// The settings of the lines so far.
    pub fn finish(self) -> Settings
        ensures { result ≡ self.draft.settings }
    {
        self.settings
    }
}
