// Lists of privileges, as the options of add-user have them.
ghost use Rattle.std.specs.Prelude.{◌≡◌};
ghost use Rattle.std.specs.List.{list_all, list_any};
ghost use Rattle.ug_acl.specs.Lines.{comma_parts};
ghost use Rattle.ug_acl.specs.Pairs.{all_pairs, holds_privilege};
ghost use Rattle.ug_acl.specs.Words.{gives};
ghost use Rattle.ug_acl.specs.Lists as lists;
ghost use Rattle.ug_acl.specs.Lists.{list_read};

use crate::grants::Grants;
use ug_lines::{without_end, without_front};
use ug_types::{Privilege, Section};

/// The privileges that a list names.
#[derive(Clone, Copy)]
pub struct Listed {
    pub modify: bool,
    pub list: bool,
    pub listen: bool,
}

impl Listed {
    /// No privileges.
    pub fn none() -> Listed
        ensures { result ≡ lists.nothing_listed }
    {
        Listed {
            modify: false,
            list: false,
            listen: false,
        }
    }

    pub fn has(self, privilege: Privilege) -> bool
        ensures { result ≡ lists.lists_privilege self privilege }
    {
        match privilege {
            Privilege::Modify => self.modify,
            Privilege::List => self.list,
            Privilege::Listen => self.listen,
        }
    }
}

/// Whether the section has the privilege at all.
pub fn is_privilege(section: Section, privilege: Privilege) -> bool
    ensures { result ≡ holds_privilege all_pairs section privilege }
{
    Grants::all().has(section, privilege)
}

// Whether the word is the privilege's, or `ALL`.
fn word_gives(section: Section, privilege: Privilege, word: &[u8]) -> bool
    ensures { result ≡ gives section privilege word.now }
{
    is_privilege(section, privilege) && (word == b"ALL".as_slice() || word == privilege.word())
}

// Whether a part gives the privilege, with blanks about it.
fn part_gives(section: Section, privilege: Privilege, part: &[u8]) -> bool
    ensures { result ≡ lists.part_gives section privilege part.now }
{
    word_gives(section, privilege, without_end(without_front(part)))
}

fn part_gives_some(section: Section, part: &[u8]) -> bool
    ensures { result ≡ lists.part_gives_some section part.now }
{
    part_gives(section, Privilege::Modify, part)
        || part_gives(section, Privilege::List, part)
        || part_gives(section, Privilege::Listen, part)
}

fn each_part_gives(section: Section, word: &[u8]) -> bool
    ensures { result ≡ list_all (lists.part_gives_some section) (comma_parts word.now) }
{
    word.split(|b| *b == b',')
        .all(|part| part_gives_some(section, part))
}

fn some_part_gives(section: Section, privilege: Privilege, word: &[u8]) -> bool
    ensures { result ≡ list_any (lists.part_gives section privilege) (comma_parts word.now) }
{
    word.split(|b| *b == b',')
        .any(|part| part_gives(section, privilege, part))
}

/// The privileges that a list names, with commas between and blanks about each, where `ALL` stands for all of the section:
/// usbguard(1), add-user. None where a part is empty, or no privilege of the section. It takes no memory.
pub fn read_list(section: Section, word: &[u8]) -> Option<Listed>
    ensures { result ≡ list_read section word.now }
{
    if !each_part_gives(section, word) {
        return None;
    }
    Some(Listed {
        modify: some_part_gives(section, Privilege::Modify, word),
        list: some_part_gives(section, Privilege::List, word),
        listen: some_part_gives(section, Privilege::Listen, word),
    })
}
