// Privileges as the text of an access file.
ghost use Rattle.std.specs.Prelude.{◌≡◌, ◌||◌, ◌≤◌, ◌+◌, ◌++◌, length};
ghost use Rattle.ug_acl.specs.Pairs.{holds_privilege};
ghost use Rattle.ug_acl.specs.Printed.{grant_line, held_in, grants_text};
ghost use Rattle.ug_acl.specs.Asking.{pairs_asked, united};

use crate::asked::Asked;
use crate::grants::Grants;
use crate::lists::is_privilege;
use crate::print::words_held;
use ug_types::{Line, Privilege, Section};

// Whether the privilege was granted or is asked for.
fn is_wanted(granted: &Grants, asked: &Asked, section: Section, privilege: Privilege) -> bool
    ensures { result ≡ holds_privilege granted.now section privilege
        || holds_privilege (pairs_asked asked.now) section privilege }
{
    granted.has(section, privilege) || asked.has(section, privilege)
}

// Whether it is among those that are written.
fn is_united(granted: &Grants, asked: &Asked, section: Section, privilege: Privilege) -> bool
    ensures { result
        ≡ holds_privilege (united granted.now (pairs_asked asked.now)) section privilege }
{
    is_wanted(granted, asked, section, privilege) && is_privilege(section, privilege)
}

fn words_in(granted: &Grants, asked: &Asked, section: Section) -> &'static [u8]
    ensures words { result.now ≡ held_in (united granted.now (pairs_asked asked.now)) section }
    ensures short { length result.now ≤ 18 }
{
    words_held(
        is_united(granted, asked, section, Privilege::Modify),
        is_united(granted, asked, section, Privilege::List),
        is_united(granted, asked, section, Privilege::Listen),
    )
}

// Appends the line of a section, where there are words.
fn push_section(line: &mut Line, section: Section, words: &[u8])
    requires room { length line.old + 30 ≤ 512 }
    requires short { length words.now ≤ 18 }
    ensures text { line.new ≡ line.old ++ grant_line section words.now }
    ensures length { length line.new ≤ length line.old + 30 }
{
    if words.is_empty() {
        return;
    }
    line.push(section.word());
    line.push(b"=");
    line.push(words);
    line.push(b"\n");
}

/// The text of an access file with what was granted and what is asked for.
#[tactic(auto, unfolding(crate::specs::Printed::grants_text))]
pub fn print_united(granted: &Grants, asked: &Asked) -> Line
    ensures { result ≡ grants_text (united granted.now (pairs_asked asked.now)) }
{
    let mut text = Line::new();
    push_section(
        &mut text,
        Section::Devices,
        words_in(granted, asked, Section::Devices),
    );
    push_section(
        &mut text,
        Section::Policy,
        words_in(granted, asked, Section::Policy),
    );
    push_section(
        &mut text,
        Section::Exceptions,
        words_in(granted, asked, Section::Exceptions),
    );
    push_section(
        &mut text,
        Section::Parameters,
        words_in(granted, asked, Section::Parameters),
    );
    text
}
