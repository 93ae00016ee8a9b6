// Grants as a text.
ghost use Rattle.std.specs.Prelude.{◌≡◌, ◌≤◌, ◌∷◌, ◌++◌, [], IfOk, true, length};
ghost use Rattle.ug_types.specs.Access.{section_word};
ghost use Rattle.ug_acl.specs.Kept.{pairs_kept};
ghost use Rattle.ug_acl.specs.Printed as texts;
ghost use Rattle.ug_acl.specs.Printed.{grant_line, held_in, grants_text};

use crate::grants::Kept;
use std::alloc::Global;
use ug_types::{NoMemory, Privilege, Section};

/// The words of the privileges that are held, with commas between.
pub fn words_held(modify: bool, list: bool, listen: bool) -> &'static [u8]
    ensures words { result.now ≡ texts.words_held modify list listen }
    ensures short { length result.now ≤ 18 }
{
    match (modify, list, listen) {
        (false, false, false) => b"",
        (false, false, true) => b"listen",
        (false, true, false) => b"list",
        (false, true, true) => b"list,listen",
        (true, false, false) => b"modify",
        (true, false, true) => b"modify,listen",
        (true, true, false) => b"modify,list",
        (true, true, true) => b"modify,list,listen",
    }
}

fn words_in(kept: &Kept, section: Section) -> &'static [u8]
    ensures { result.now ≡ held_in (pairs_kept kept.now) section }
{
    words_held(
        kept.has(section, Privilege::Modify),
        kept.has(section, Privilege::List),
        kept.has(section, Privilege::Listen),
    )
}

// Appends a line, and tells whether there was memory for it.
fn print_line(out: &mut Vec<u8>, section: Section, words: &[u8]) -> bool
    ensures { result ≡ true
        → out.new.items ≡ out.old.items ++ (section_word section ++ (61 ∷ words.now ++ 10 ∷ [])) }
{
    out.extend_from_slice(section.word()).is_ok()
        && out.extend_from_slice(b"=").is_ok()
        && out.extend_from_slice(words).is_ok()
        && out.extend_from_slice(b"\n").is_ok()
}

// Appends the line of a section, where something is held there, and tells whether there was memory for it.
fn print_section(out: &mut Vec<u8>, kept: &Kept, section: Section) -> bool
    ensures { result ≡ true → out.new.items
        ≡ out.old.items ++ grant_line section (held_in (pairs_kept kept.now) section) }
{
    let words = words_in(kept, section);
    if words.is_empty() {
        return true;
    }
    print_line(out, section, words)
}

/// The text of an access file with these grants.
#[tactic(auto, unfolding(crate::specs::Printed::grants_text))]
pub fn print_all(alloc: Global, kept: &Kept) -> Result<Vec<u8>, NoMemory>
    ensures { IfOk result (λ out. out.items ≡ grants_text (pairs_kept kept.now)) }
{
    let mut out = Vec::new(alloc);
    if print_section(&mut out, kept, Section::Devices)
        && print_section(&mut out, kept, Section::Policy)
        && print_section(&mut out, kept, Section::Exceptions)
        && print_section(&mut out, kept, Section::Parameters)
    {
        return Ok(out);
    }
    drop(out);
    Err(NoMemory)
}
