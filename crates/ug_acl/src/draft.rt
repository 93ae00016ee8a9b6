// What the lines so far give.
ghost use Rattle.std.specs.Prelude.{◌≡◌, ◌+◌, ◌≤◌, ◌<◌, ◌^◌, IfOk, length, map};
ghost use Rattle.ug_types.specs.TextFaults.{IsLineRead};
ghost use Rattle.ug_acl.specs.Lines as lines;
ghost use Rattle.ug_acl.specs.Lines.{comma_parts, parts_read, section_read, grant_read, line_given, LeavesGrants};

use crate::fault::FaultKind;
use crate::privileges::Privileges;
use std::alloc::{AllocError, Global};
use ug_lines::{LineCut, cut_line, without_end, without_front};
use ug_types::{LineFault, Section};

/// What a line gives.
#[derive(Clone, Copy)]
pub struct Given {
    pub section: Section,
    pub privileges: Privileges,
}

fn has_section(given: &[Given], section: Section) -> bool
    ensures { result ≡ lines.has_section given.now section }
{
    for g in given {
        if g.section == section {
            return true;
        }
    }
    false
}

// The section that a word is, unless an earlier line has it.
fn new_section(given: &[Given], word: &[u8]) -> Result<Section, LineFault<FaultKind>>
    ensures { IsLineRead result (section_read given.now word.now) }
{
    match Section::named(word) {
        Some(section) => {
            if has_section(given, section) {
                return Err(LineFault::at(FaultKind::Repeated, 0));
            }
            Ok(section)
        }
        None => Err(LineFault::at(FaultKind::UnknownSection, 0)),
    }
}

fn split_at_commas(alloc: Global, text: &[u8]) -> Result<Vec<&[u8]>, AllocError>
    ensures { IfOk result (λ parts. map (λ part. part.now) parts.items ≡ comma_parts text.now) }
{
    text.split(|b| *b == b',').collect(alloc)
}

// What one part gives, which stands at that place.
fn read_part(section: Section, part: &[u8], place: u64) -> Result<Privileges, LineFault<FaultKind>>
    requires { place + length part.now < 2 ^ 64 }
    ensures { IsLineRead result (lines.part_read section place part.now) }
{
    let begin = without_front(part);
    let privileges = Privileges::of_word(section, without_end(begin));
    if !privileges.is_any() {
        let place = place + (part.len() - begin.len()) as u64;
        return Err(LineFault::at(FaultKind::BadPrivilege, place));
    }
    Ok(privileges)
}

// What a list of privileges gives, which stands at that place.
fn read_list(
    alloc: Global,
    section: Section,
    text: &[u8],
    place: u64,
) -> Result<Privileges, LineFault<FaultKind>>
    requires { place + length text.now + 1 < 2 ^ 64 }
    ensures { IsLineRead result (parts_read section place (comma_parts text.now)) }
{
    let parts = match split_at_commas(alloc, text) {
        Ok(parts) => parts,
        Err(_) => return Err(LineFault::Memory),
    };
    let mut at = place;
    let mut privileges = Privileges::none();
    let slices = parts.as_slice();
    for part in slices {
        match read_part(section, part, at) {
            Ok(more) => privileges = privileges.union(more),
            Err(fault) => return Err(fault),
        }
        at += part.len() as u64 + 1;
    }
    Ok(privileges)
}

// Takes what stands before and behind the first `=`. The list's place is given.
fn add_grant(
    alloc: Global,
    given: &mut Vec<Given>,
    word: &[u8],
    text: &[u8],
    place: u64,
) -> Result<(), LineFault<FaultKind>>
    requires { place + length text.now + 1 < 2 ^ 64 }
    ensures { LeavesGrants result given.old.items given.new.items
        (grant_read given.old.items word.now text.now place) }
{
    let section = new_section(given.as_slice(), word)?;
    let privileges = read_list(alloc, section, text, place)?;
    match given.push(Given {
        section,
        privileges,
    }) {
        Ok(()) => Ok(()),
        Err(_) => Err(LineFault::Memory),
    }
}

/// Takes a line. A refusal changes nothing.
pub fn add_line(
    alloc: Global,
    given: &mut Vec<Given>,
    line: &[u8],
) -> Result<(), LineFault<FaultKind>>
    ensures { LeavesGrants result given.old.items given.new.items
        (line_given given.old.items line.now) }
{
    match cut_line(line) {
        LineCut::Skipped => Ok(()),
        LineCut::NoSign => Err(LineFault::at(FaultKind::NoEquals, 0)),
        LineCut::Equation { word, value, place } => add_grant(alloc, given, word, value, place),
    }
}
