// Messages read from their bytes.
ghost use Rattle.std.specs.Prelude.{◌≡◌, ◌↔◌, ℕ, ◌+◌, ◌≤◌, length, Ok, Err};
ghost use Rattle.ug_types.specs.TextFaults.{fault_of_kind};
ghost use Rattle.ug_uevent.specs.declared.hint.Hint.{Hint as SaidHint};
ghost use Rattle.ug_uevent.specs.declared.fault.UeventKind.{UeventKind as SaidKind};
ghost use Rattle.ug_uevent.specs.Grammar.{IsMessage, IsBadMessage, ReadsAs};
ghost use Rattle.ug_uevent.specs.Reading as reading;

use crate::cut::{length_before, next_string};
use crate::fault::{UeventFault, UeventKind, fault_at};
use crate::fields::{Found, read_string};
use crate::hint::{Action, Hint};
use crate::path::name_in;
use ug_types::is_word;

/// Reads one message without the zero byte that closes it: strings, each with a zero byte behind
/// it, which the last may lack. The first is `ACTION@DEVPATH`, each later one `KEY=VALUE`. The
/// first string with a fault decides, and of its faults the first of: no key, repeated, differs
/// from the header, no number. Linear in the number of bytes, and takes no memory.
pub fn parse_uevent(message: &[u8]) -> Result<Hint, UeventFault>
    ensures good { (hint : SaidHint) → (result ≡ Ok hint) ↔ IsMessage message.now hint }
    ensures bad { (kind : SaidKind) (place : ℕ)
        → (result ≡ Err (fault_of_kind kind place)) ↔ IsBadMessage message.now kind place }
{
    read_message(message)
}

#[tactic(auto, unfolding(crate::specs::Reading::action_of))]
fn action_of(word: &[u8]) -> Action
    ensures { result ≡ reading.action_of word.now }
{
    if is_word(word, b"add") {
        return Action::Add;
    }
    if is_word(word, b"remove") {
        return Action::Remove;
    }
    if is_word(word, b"change") {
        return Action::Change;
    }
    Action::Other
}

fn read_message(message: &[u8]) -> Result<Hint, UeventFault>
    ensures { ReadsAs message.now result }
{
    let (header, others) = next_string(message);
    let length = length_before(header, b'@');
    if length == 0 || length == header.len() {
        return Err(fault_at(UeventKind::NoHeader, 0));
    }
    let action = &header[..length];
    let path = &header[length + 1..];
    match read_strings(action, path, header.len() + 1, others) {
        Ok(found) => Ok(hint_of(action, path, found)),
        Err(fault) => Err(fault),
    }
}

fn hint_of(action: &[u8], path: &[u8], found: Found) -> Hint
    ensures { reading.Hints action.now path.now found result }
{
    let name = if found.usb { name_in(path) } else { None };
    Hint {
        action: action_of(action),
        name,
        seq: found.seq,
    }
}

// What the strings set, of which the first begins at that place.
fn read_strings(
    action: &[u8],
    path: &[u8],
    place: usize,
    strings: &[u8],
) -> Result<Found, UeventFault>
    requires { place + length strings.now ≤ 9223372036854775808 }
    ensures { result ≡ reading.strings_read action.now path.now reading.nothing place
        (reading.strings_of strings.now) }
{
    let mut found = Found {
        action: false,
        path: false,
        subsystem: false,
        usb: false,
        seq: None,
    };
    let mut at = place;
    let mut rest = strings;
    while !rest.is_empty() {
        let (text, more) = next_string(rest);
        match read_string(action, path, found, text) {
            Ok(next) => found = next,
            Err(kind) => return Err(fault_at(kind, at)),
        }
        at += text.len() + 1;
        rest = more;
    }
    Ok(found)
}
