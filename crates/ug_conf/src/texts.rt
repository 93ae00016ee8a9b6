// Texts of settings, a line each.
ghost use Rattle.std.specs.Prelude.{◌≡◌, IfOk, IfErr};
ghost use Rattle.ug_types.specs.TextFaults.{IsTextFault};
ghost use Rattle.ug_conf.specs.Texts.{conf_read};

use crate::defaults::default_settings;
use crate::draft::add_line;
use crate::keys::Key;
use crate::settings::Settings;
use std::alloc::Global;
use ug_lines::{LineReader, read_lines};
use ug_types::FileFault;

/// Settings so far, and the keys that were set.
#[derive(Drop)]
struct Drafting {
    settings: Settings,
    seen: Vec<Key>,
}

impl LineReader for Drafting {
    ghost use Rattle.ug_conf.specs.Draft.{Draft, draft_of};
    ghost use Rattle.ug_conf.specs.Texts.{setting_line};

    ghost State = { Draft };

    ghost state = { λ d. draft_of d.settings d.seen.items };

    ghost reads = { setting_line };

    ghost keeps = { λ _ _. Unit {0} };

    fn read_line(&mut self, alloc: Global, number: u64, line: &[u8]) -> Result<(), FileFault> {
        match add_line(alloc, &mut self.settings, &mut self.seen, number, line) {
            Ok(()) => Ok(()),
            Err(fault) => Err(fault.in_line(number)),
        }
    }
}

/// The settings of a text, or its first bad line: usbguard-daemon.conf(5). A line is empty, a comment that begins with `#`,
/// or `Key=Value`. Spaces and tabs may surround the line and the first `=`. Each key occurs at most once; the others have
/// the values of `default_settings`. A bad line is told by its number, counted from 1, the number of its
/// `FaultKind`, and the place where the value begins for `BadValue`, else 0. Where several things are wrong with it, the
/// first of `NoEquals`, `UnknownKey`, `Repeated` and `BadValue` is told. The last line may lack its newline. Linear in the
/// number of bytes.
pub fn parse_conf(alloc: Global, text: &[u8]) -> Result<Settings, FileFault>
    ensures good { IfOk result (λ settings. conf_read text.now ≡ Ok settings) }
    ensures bad { IfErr result (λ fault. IsTextFault fault (conf_read text.now)) }
{
    let settings = match default_settings(alloc) {
        Ok(settings) => settings,
        Err(_) => return Err(FileFault::Memory),
    };
    let mut draft = Drafting {
        settings,
        seen: Vec::new(alloc),
    };
    match read_lines(alloc, &mut draft, text) {
        Ok(()) => Ok(draft.settings),
        Err(fault) => {
            drop(draft);
            Err(fault)
        }
    }
}
