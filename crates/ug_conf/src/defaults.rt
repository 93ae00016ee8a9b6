// The settings of an empty text.
ghost use Rattle.std.specs.Prelude.{◌≡◌, IfOk};
ghost use Rattle.ug_conf.specs.Settings.{defaults};

use crate::settings::{AuthDefault, Present, Settings};
use std::alloc::Global;
use ug_types::{Inserted, List, NoMemory, Target, Text};

/// The settings of an empty text: rules in `/etc/usbguard/rules.conf`, access files in
/// `/etc/usbguard/IPCAccessControl.d/`, no folder of rules, no users, `block` where no rule matches, and
/// `keep` for controllers.
#[tactic(auto, unfolding(crate::specs::Settings::defaults))]
pub fn default_settings(alloc: Global) -> Result<Settings, NoMemory>
    ensures { IfOk result (λ settings. settings ≡ defaults) }
{
    Ok(Settings {
        rule_file: Text::of(alloc, b"/etc/usbguard/rules.conf")?,
        rule_folder: Text::new(alloc),
        access_folder: Text::of(alloc, b"/etc/usbguard/IPCAccessControl.d/")?,
        implicit: Target::Block,
        present_device: Present::Apply,
        present_controller: Present::Keep,
        inserted: Inserted::Apply,
        default: AuthDefault::Keep,
        users: List::new(alloc),
        with_port: false,
        unused: List::new(alloc),
    })
}
