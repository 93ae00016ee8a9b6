// The keys of settings: usbguard-daemon.conf(5).
ghost use Rattle.std.specs.Prelude.{◌≡◌};
ghost use Rattle.ug_conf.specs.Keys.{key_of};

use crate::spelled::{OneWord, spelled};

/// A key, named as it is written.
#[derive(Clone, Copy, PartialEq, Eq)]
pub enum Key {
    RuleFile,
    RuleFolder,
    ImplicitPolicyTarget,
    PresentDevicePolicy,
    PresentControllerPolicy,
    InsertedDevicePolicy,
    AuthorizedDefault,
    /// `IPCAllowedUsers`.
    IpcAllowedUsers,
    /// `IPCAllowedGroups`.
    IpcAllowedGroups,
    /// `IPCAccessControlFiles`.
    IpcAccessControlFiles,
    DeviceRulesWithPort,
    RestoreControllerDeviceState,
    DeviceManagerBackend,
    AuditBackend,
    AuditFilePath,
    /// `HidePII`.
    HidePii,
}

impl OneWord for Key {
    ghost use Rattle.ug_conf.specs.Grammar.{word_of_key};
    ghost use Rattle.ug_conf.specs.Keys.{all_keys};

    ghost all_of = { all_keys };

    ghost word_of = { word_of_key };

    fn all() -> &'static [Key] {
        &[
            Key::RuleFile,
            Key::RuleFolder,
            Key::ImplicitPolicyTarget,
            Key::PresentDevicePolicy,
            Key::PresentControllerPolicy,
            Key::InsertedDevicePolicy,
            Key::AuthorizedDefault,
            Key::IpcAllowedUsers,
            Key::IpcAllowedGroups,
            Key::IpcAccessControlFiles,
            Key::DeviceRulesWithPort,
            Key::RestoreControllerDeviceState,
            Key::DeviceManagerBackend,
            Key::AuditBackend,
            Key::AuditFilePath,
            Key::HidePii,
        ]
    }

    fn word(self) -> &'static [u8] {
        match self {
            Key::RuleFile => b"RuleFile",
            Key::RuleFolder => b"RuleFolder",
            Key::ImplicitPolicyTarget => b"ImplicitPolicyTarget",
            Key::PresentDevicePolicy => b"PresentDevicePolicy",
            Key::PresentControllerPolicy => b"PresentControllerPolicy",
            Key::InsertedDevicePolicy => b"InsertedDevicePolicy",
            Key::AuthorizedDefault => b"AuthorizedDefault",
            Key::IpcAllowedUsers => b"IPCAllowedUsers",
            Key::IpcAllowedGroups => b"IPCAllowedGroups",
            Key::IpcAccessControlFiles => b"IPCAccessControlFiles",
            Key::DeviceRulesWithPort => b"DeviceRulesWithPort",
            Key::RestoreControllerDeviceState => b"RestoreControllerDeviceState",
            Key::DeviceManagerBackend => b"DeviceManagerBackend",
            Key::AuditBackend => b"AuditBackend",
            Key::AuditFilePath => b"AuditFilePath",
            Key::HidePii => b"HidePII",
        }
    }
}

/// The key that the word is.
pub fn known_key(word: &[u8]) -> Option<Key>
    ensures { result ≡ key_of word.now }
{
    spelled(word)
}
