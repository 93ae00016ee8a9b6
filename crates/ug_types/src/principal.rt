// Users and groups.
ghost use Rattle.std.specs.Prelude.{◌≡◌, ◌≤◌, IsTrue, length, true};
ghost use Rattle.std.specs.List.{list_all};
ghost use Rattle.ug_types.specs.Principals as principals;
ghost use Rattle.ug_types.specs.Principals.{is_name, principal_of, principal_named, same_principal};
ghost use Rattle.std.proofs.Common.{rules};
ghost use Rattle.std.specs.Cmp as Cmp;
ghost use Rattle.std.specs.Cmp.Rules.{comparing};

use std::marker::Model;

/// A user or a group, by a name of 1 to 32 ASCII letters, digits, `_`, `-` and `.`.
#[derive(Clone, Copy)]
pub struct Principal {
    group: bool,
    bytes: [u8; 32],
    len: u8,
}

impl Model for Principal {
    ghost use Rattle.ug_types.specs.Principals.{Named};
    ghost use Rattle.ug_types.specs.PrincipalBytes.{named_of, with_zeros, HoldsPrincipal, padded_principal};

    ghost Value = { Named };

    ghost view = { named_of };

    ghost invariant = { HoldsPrincipal };

    ghost inverse = { with_zeros };

    ghost inverse_ok = { λ n h. padded_principal n h.0 };
}

fn is_name_byte(byte: u8) -> bool
    ensures { result ≡ principals.is_name_byte byte }
{
    byte.is_ascii_alphanumeric() || byte == b'_' || byte == b'-' || byte == b'.'
}

fn are_name_bytes(text: &[u8]) -> bool
    ensures { result ≡ list_all principals.is_name_byte text.now }
{
    for byte in text {
        if !is_name_byte(*byte) {
            return false;
        }
    }
    true
}

fn is_name(text: &[u8]) -> bool
    ensures { result ≡ is_name text.now }
{
    if text.is_empty() {
        return false;
    }
    if text.len() > 32 {
        return false;
    }
    are_name_bytes(text)
}

impl Principal {
    /// Reads a name, or `:` and the name of a group. It takes no memory.
    pub fn parse(text: &[u8]) -> Option<Principal>
        ensures { result ≡ principal_of text.now }
    {
        if text.is_empty() {
            return None;
        }
        if text[0] == b':' {
            return Principal::named(true, &text[1..]);
        }
        Principal::named(false, text)
    }

    /// The user or the group of that name.
    pub fn named(group: bool, name: &[u8]) -> Option<Principal>
        ensures { result ≡ principal_named group name.now }
    {
        if is_name(name) {
            Some(Principal::holding(group, name))
        } else {
            None
        }
    }

    fn holding(group: bool, name: &[u8]) -> Principal
        requires named { IsTrue (is_name name.now) }
        requires short { length name.now ≤ 32 }
        ensures { result ≡ record { group = group; name = name.now } }
    {
        let mut bytes = [0; 32];
        bytes[..name.len()].copy_from_slice(name);
        Principal {
            group,
            bytes,
            len: name.len() as u8,
        }
    }

    /// Whether it is a group.
    pub fn is_group(&self) -> bool
        ensures { result ≡ self.now.group }
    {
        self.group
    }

    /// The name, without the `:` of a group.
    pub fn name(&self) -> &[u8]
        ensures name { result.now ≡ self.now.name }
        ensures short { length result.now ≤ 32 }
    {
        &self.bytes[..self.len as usize]
    }
}

impl PartialEq for Principal {
    ghost eq = { same_principal };

    ghost laws = { Cmp.partial_equiv_from_equiv (Prim.search (comparing, rules)) };

    fn eq(&self, other: &Principal) -> bool {
        self.is_group() == other.is_group() && self.name() == other.name()
    }
}

impl Eq for Principal {
    ghost laws = { Prim.search (comparing, rules) };
}
