// Names of files of configuration.
ghost use Rattle.std.specs.Prelude.{◌≡◌, ◌≤◌, IsTrue, length};
ghost use Rattle.std.specs.List.{list_all};
ghost use Rattle.ug_types.specs.Principals.{is_name_byte};

use std::marker::Model;

/// The name of a file in a folder of configuration: at most 255 ASCII letters, digits, `_`, `-` and `.`.
#[derive(Clone, Copy)]
pub struct FileName {
    bytes: [u8; 255],
    len: u8,
}

impl Model for FileName {
    ghost use Rattle.std.specs.Prelude.{ℕ, List};
    ghost use Rattle.ug_audit.specs.FileNames.{IsFileName, file_name_text, padded_name, zeros_behind};

    ghost Value = { List ℕ };

    ghost view = { file_name_text };

    ghost invariant = { IsFileName };

    ghost inverse = { padded_name };

    ghost inverse_ok = { λ n h. zeros_behind n h.0 };
}

impl FileName {
    /// The file name with these bytes.
    pub fn holding(name: &[u8]) -> FileName
        requires short { length name.now ≤ 255 }
        requires plain { IsTrue (list_all is_name_byte name.now) }
        ensures { result ≡ name.now }
    {
        let mut bytes = [0; 255];
        bytes[..name.len()].copy_from_slice(name);
        FileName {
            bytes,
            len: name.len() as u8,
        }
    }

    pub fn bytes(&self) -> &[u8]
        ensures name { result.now ≡ self.now }
        ensures short { length result.now ≤ 255 }
        ensures plain { IsTrue (list_all is_name_byte self.now) }
    {
        &self.bytes[..self.len as usize]
    }
}
