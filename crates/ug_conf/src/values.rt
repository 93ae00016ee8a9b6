// The values of settings: usbguard-daemon.conf(5).
ghost use Rattle.std.specs.Prelude.{◌≡◌, IfOk};
ghost use Rattle.ug_conf.specs.Values.{present_of, default_of, flag_of, path_of, setting_of};

use crate::keys::Key;
use crate::names::named;
use crate::settings::{AuthDefault, Present};
use crate::spelled::{OneWord, spelled};
use std::alloc::Global;
use ug_types::{Inserted, List, NoMemory, Principal, Target, Text, is_word};

/// A key with its value.
#[derive(Drop)]
pub enum Setting {
    RuleFile(Text),
    RuleFolder(Text),
    Implicit(Target),
    PresentDevice(Present),
    PresentController(Present),
    Inserted(Inserted),
    Default(AuthDefault),
    Users(List<Principal>),
    Groups(List<Principal>),
    AccessFolder(Text),
    WithPort(bool),
    /// Any value of a key that sets nothing.
    Unused,
}

impl OneWord for Present {
    ghost use Rattle.ug_conf.specs.Grammar.{present_word};
    ghost use Rattle.ug_conf.specs.Values.{all_presents};

    ghost all_of = { all_presents };

    ghost word_of = { present_word };

    fn all() -> &'static [Present] {
        &[
            Present::Allow,
            Present::Block,
            Present::Reject,
            Present::Keep,
            Present::Apply,
        ]
    }

    fn word(self) -> &'static [u8] {
        match self {
            Present::Allow => b"allow",
            Present::Block => b"block",
            Present::Reject => b"reject",
            Present::Keep => b"keep",
            Present::Apply => b"apply-policy",
        }
    }
}

impl OneWord for AuthDefault {
    ghost use Rattle.ug_conf.specs.Grammar.{default_word};
    ghost use Rattle.ug_conf.specs.Values.{all_defaults};

    ghost all_of = { all_defaults };

    ghost word_of = { default_word };

    fn all() -> &'static [AuthDefault] {
        &[
            AuthDefault::Keep,
            AuthDefault::None,
            AuthDefault::All,
            AuthDefault::Internal,
        ]
    }

    fn word(self) -> &'static [u8] {
        match self {
            AuthDefault::Keep => b"keep",
            AuthDefault::None => b"none",
            AuthDefault::All => b"all",
            AuthDefault::Internal => b"internal",
        }
    }
}

fn present(word: &[u8]) -> Option<Present>
    ensures { result ≡ present_of word.now }
{
    spelled(word)
}

fn auth_default(word: &[u8]) -> Option<AuthDefault>
    ensures { result ≡ default_of word.now }
{
    spelled(word)
}

#[tactic(auto, unfolding(crate::specs::Values::flag_of))]
fn flag(word: &[u8]) -> Option<bool>
    ensures { result ≡ flag_of word.now }
{
    if is_word(word, b"true") {
        return Some(true);
    }
    if is_word(word, b"false") {
        return Some(false);
    }
    None
}

fn path(alloc: Global, value: &[u8]) -> Result<Option<Text>, NoMemory>
    ensures { IfOk result (λ path. path ≡ path_of value.now) }
{
    if value.is_empty() {
        return Ok(None);
    }
    Ok(Some(Text::of(alloc, value)?))
}

/// The key with the value, unless the key can't have it.
pub fn make_setting(alloc: Global, key: Key, value: &[u8]) -> Result<Option<Setting>, NoMemory>
    ensures { IfOk result (λ setting. setting ≡ setting_of key value.now) }
{
    match key {
        Key::RuleFile => Ok(path(alloc, value)?.map(Setting::RuleFile)),
        Key::RuleFolder => Ok(Some(Setting::RuleFolder(Text::of(alloc, value)?))),
        Key::ImplicitPolicyTarget => Ok(Target::named(value).map(Setting::Implicit)),
        Key::PresentDevicePolicy => Ok(present(value).map(Setting::PresentDevice)),
        Key::PresentControllerPolicy => Ok(present(value).map(Setting::PresentController)),
        Key::InsertedDevicePolicy => Ok(Inserted::named(value).map(Setting::Inserted)),
        Key::AuthorizedDefault => Ok(auth_default(value).map(Setting::Default)),
        Key::IpcAllowedUsers => Ok(named(alloc, false, value)?.map(Setting::Users)),
        Key::IpcAllowedGroups => Ok(named(alloc, true, value)?.map(Setting::Groups)),
        Key::IpcAccessControlFiles => Ok(path(alloc, value)?.map(Setting::AccessFolder)),
        Key::DeviceRulesWithPort => Ok(flag(value).map(Setting::WithPort)),
        Key::RestoreControllerDeviceState
        | Key::DeviceManagerBackend
        | Key::AuditBackend
        | Key::AuditFilePath
        | Key::HidePii => Ok(Some(Setting::Unused)),
    }
}
