// The strings of a message that set something.
ghost use Rattle.std.specs.Prelude.{◌≡◌};
ghost use Rattle.ug_uevent.specs.Reading as reading;

use crate::cut::length_before;
use crate::fault::UeventKind;
use ug_lines::parse_decimal;
use ug_types::is_word;

/// A key whose value is read. Each is set once at most.
#[derive(Clone, Copy)]
pub enum Field {
    /// `ACTION`.
    Action,
    /// `DEVPATH`.
    Path,
    /// `SUBSYSTEM`.
    Subsystem,
    /// `SEQNUM`.
    Number,
}

/// What the strings so far have set.
#[derive(Clone, Copy)]
pub struct Found {
    pub action: bool,
    pub path: bool,
    pub subsystem: bool,
    /// The subsystem is `usb`.
    pub usb: bool,
    pub seq: Option<u64>,
}

impl Found {
    fn has(&self, field: Field) -> bool
        ensures { result ≡ reading.is_field_set self.now field }
    {
        match field {
            Field::Action => self.action,
            Field::Path => self.path,
            Field::Subsystem => self.subsystem,
            Field::Number => self.seq.is_some(),
        }
    }
}

#[tactic(auto, unfolding(crate::specs::Reading::field_of))]
fn field_of(key: &[u8]) -> Option<Field>
    ensures { result ≡ reading.field_of key.now }
{
    if is_word(key, b"ACTION") {
        return Some(Field::Action);
    }
    if is_word(key, b"DEVPATH") {
        return Some(Field::Path);
    }
    if is_word(key, b"SUBSYSTEM") {
        return Some(Field::Subsystem);
    }
    if is_word(key, b"SEQNUM") {
        return Some(Field::Number);
    }
    None
}

#[tactic(auto, unfolding(crate::specs::Reading::is_usb))]
fn is_usb(value: &[u8]) -> bool
    ensures { result ≡ reading.is_usb value.now }
{
    is_word(value, b"usb")
}

// A field that isn't set yet.
fn first_value(
    action: &[u8],
    path: &[u8],
    found: Found,
    field: Field,
    value: &[u8],
) -> Result<Found, UeventKind>
    ensures { result ≡ reading.first_value action.now path.now found field value.now }
{
    let mut next = found;
    match field {
        Field::Action => {
            if value != action {
                return Err(UeventKind::HeaderDiffers);
            }
            next.action = true;
        }
        Field::Path => {
            if value != path {
                return Err(UeventKind::HeaderDiffers);
            }
            next.path = true;
        }
        Field::Subsystem => {
            next.subsystem = true;
            next.usb = is_usb(value);
        }
        Field::Number => match parse_decimal(value) {
            Some(number) => next.seq = Some(number),
            None => return Err(UeventKind::BadSeq),
        },
    }
    Ok(next)
}

/// Takes a string behind those that have set what was found, or tells its first fault.
pub fn read_string(
    action: &[u8],
    path: &[u8],
    found: Found,
    text: &[u8],
) -> Result<Found, UeventKind>
    ensures { result ≡ reading.string_read action.now path.now found text.now }
{
    let length = length_before(text, b'=');
    if length == 0 || length == text.len() {
        return Err(UeventKind::BadKey);
    }
    match field_of(&text[..length]) {
        Some(field) => {
            if found.has(field) {
                return Err(UeventKind::Repeated);
            }
            first_value(action, path, found, field, &text[length + 1..])
        }
        None => Ok(found),
    }
}
