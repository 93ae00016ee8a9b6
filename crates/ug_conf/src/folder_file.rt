// The files of a folder of rules: usbguard-daemon.conf(5), RuleFolder.
ghost use Rattle.std.specs.Prelude.{◌≡◌};
ghost use Rattle.std.specs.List.{list_all};
ghost use Rattle.ug_types.specs.Principals.{is_name_byte};
ghost use Rattle.ug_conf.specs.FolderFiles.{is_rule_file_name};

use ug_types::{List, Text};

/// A file of a folder of rules. Its text is as a rule file's.
#[derive(Drop)]
pub struct FolderFile {
    pub name: Text,
    pub text: Text,
}

/// Drops the files of a folder, as `Settings::discard`.
pub fn discard_files(files: List<FolderFile>) {
    drop(files);
}

fn is_name_byte(byte: u8) -> bool
    ensures { result ≡ is_name_byte byte }
{
    byte.is_ascii_alphanumeric() || byte == b'_' || byte == b'-' || byte == b'.'
}

fn are_name_bytes(name: &[u8]) -> bool
    ensures { result ≡ list_all is_name_byte name.now }
{
    for byte in name {
        if !is_name_byte(*byte) {
            return false;
        }
    }
    true
}

/// Whether a folder's file of that name counts: it has at most 255 bytes, all of them ASCII letters, digits, `_`, `-` and `.`, and ends
/// with `.conf`. So `10-a.conf` and `.10.conf` count, and `10-a.conf~`, `10-a.conf.bak` and `10 a.conf` don't.
#[tactic(auto, unfolding(crate::specs::FolderFiles::is_rule_file_name))]
pub fn is_rule_file_name(name: &[u8]) -> bool
    ensures { result ≡ is_rule_file_name name.now }
{
    name.len() <= 255 && are_name_bytes(name) && name.ends_with(b".conf")
}
