// `plug` lines.
ghost use Rattle.std.specs.Prelude.{◌≡◌, ◌++◌, ◌∷◌, [], get_or, option_map, IfOk};
ghost use Rattle.ug_steps.specs.Plugs.{plugged_device, device_with, plugged_file, files_in, plugged_files, fill, one_space, start_of, with_product};
ghost use Rattle.ug_steps.specs.Plugs as plugs;
ghost use Rattle.ug_steps.specs.Words.{Parses};

use crate::step::StepFault;
use crate::words::{bytes, name, space};
use std::alloc::Global;
use ug_sysfs::NewDevice;
use ug_types::{NoMemory, NodeName, Text, is_word};
use ug_words::{LexFault, Token, TokenKind, tokens};

/// The texts of a device's files, each with its newline, where it has them.
#[derive(Drop)]
pub struct Files {
    pub product: Option<Text>,
    pub serial: Option<Text>,
    pub connect: Option<Text>,
}

/// A text with a newline behind it.
fn ended(alloc: Global, text: &[u8]) -> Result<Text, NoMemory>
    ensures { IfOk result (λ file. file ≡ text.now ++ 10 ∷ []) }
{
    let mut file = Vec::from_slice(alloc, text)?;
    file.push(b'\n')?;
    Ok(Text::from_vec(file))
}

/// The byte at a place, or 0 behind the end.
fn byte_at(text: &[u8], place: usize) -> u8
    ensures { result ≡ get_or text.now place 0 }
{
    if place < text.len() { text[place] } else { 0 }
}

/// The file that a token stands for: a dash for none, a string for its text.
fn file(alloc: Global, text: &[u8], token: &Token) -> Result<Option<Text>, StepFault>
    ensures { Parses (plugged_file text.now token.now) result }
{
    match &token.kind {
        TokenKind::Word => {
            let dash = token.end.saturating_sub(token.start) == 1
                && byte_at(text, token.start) == b'-';
            if dash { Ok(None) } else { Err(StepFault::Bad) }
        }
        TokenKind::Str(spelled) => match ended(alloc, spelled.bytes()) {
            Ok(file) => Ok(Some(file)),
            Err(_) => Err(StepFault::Memory),
        },
        _ => Err(StepFault::Bad),
    }
}

fn has_one_space(text: &[u8], a: &Token, b: &Token) -> bool
    ensures { result ≡ one_space text.now a.now b.now }
{
    b.start.saturating_sub(a.end) == 1 && byte_at(text, a.end) == b' '
}

/// Whether the tokens are the whole text, with one space between one and the next.
fn do_fill(text: &[u8], a: &Token, b: &Token, c: &Token) -> bool
    ensures { result ≡ fill text.now a.now b.now c.now }
{
    a.start == 0 && has_one_space(text, a, b) && has_one_space(text, b, c) && c.end == text.len()
}

fn three_files(
    alloc: Global,
    text: &[u8],
    a: &Token,
    b: &Token,
    c: &Token,
) -> Result<Files, StepFault>
    ensures { Parses
        (with_product (plugged_file text.now a.now) (plugged_file text.now b.now)
        (plugged_file text.now c.now))
        result }
{
    let product = file(alloc, text, a)?;
    let serial = file(alloc, text, b)?;
    let connect = file(alloc, text, c)?;
    Ok(Files {
        product,
        serial,
        connect,
    })
}

fn files_among(alloc: Global, text: &[u8], tokens: &[Token]) -> Result<Files, StepFault>
    ensures { Parses (files_in text.now tokens.now) result }
{
    match tokens {
        [a, b, c] => {
            if do_fill(text, a, b, c) {
                three_files(alloc, text, a, b, c)
            } else {
                Err(StepFault::Bad)
            }
        }
        _ => Err(StepFault::Bad),
    }
}

/// `PRODUCT SERIAL CONNECT`.
fn read_files(alloc: Global, text: &[u8]) -> Result<Files, StepFault>
    ensures { Parses (plugged_files text.now) result }
{
    match tokens(alloc, text) {
        Ok(tokens) => files_among(alloc, text, tokens.as_slice()),
        Err(LexFault::Memory) => Err(StepFault::Memory),
        Err(_) => Err(StepFault::Bad),
    }
}

/// The device of that name with those descriptors, whose texts are still to be read.
fn described(
    alloc: Global,
    name: NodeName,
    on: bool,
    descriptors: Text,
    text: &[u8],
) -> Result<NewDevice, StepFault>
    ensures { Parses
        (option_map (device_with name on descriptors) (plugged_files text.now)) result }
{
    let files = read_files(alloc, text)?;
    Ok(NewDevice {
        name,
        descriptors,
        product: files.product,
        serial: files.serial,
        connect: files.connect,
        on,
    })
}

/// `DESC PRODUCT SERIAL CONNECT`, of which the first is hexadecimal.
fn with_digits(alloc: Global, name: NodeName, on: bool, text: &[u8]) -> Result<NewDevice, StepFault>
    ensures { Parses (plugs.with_digits name on text.now) result }
{
    match space(text) {
        None => Err(StepFault::Bad),
        Some(at) => {
            let descriptors = bytes(alloc, &text[..at])?;
            described(alloc, name, on, descriptors, &text[at + 1..])
        }
    }
}

/// Whether a device or an interface starts authorised.
#[tactic(auto, unfolding(crate::specs::Plugs::start_of))]
pub fn start(word: &[u8]) -> Option<bool>
    ensures { result ≡ start_of word.now }
{
    if is_word(word, b"0") {
        return Some(false);
    }
    if is_word(word, b"1") {
        return Some(true);
    }
    None
}

/// `START DESC PRODUCT SERIAL CONNECT`.
fn with_start(alloc: Global, name: NodeName, text: &[u8]) -> Result<NewDevice, StepFault>
    ensures { Parses (plugs.with_start name text.now) result }
{
    match space(text) {
        None => Err(StepFault::Bad),
        Some(at) => match start(&text[..at]) {
            None => Err(StepFault::Bad),
            Some(on) => with_digits(alloc, name, on, &text[at + 1..]),
        },
    }
}

/// A device by its name, `1` where it starts authorised, else `0`, its descriptors in hexadecimal, and the texts of its product,
/// its serial number and its connect type: each a dash where the device has no such file, or a string as in a rule.
#[tactic(auto, unfolding(crate::specs::Plugs::plugged_device))]
pub fn device(alloc: Global, text: &[u8]) -> Result<NewDevice, StepFault>
    ensures { Parses (plugged_device text.now) result }
{
    match space(text) {
        None => Err(StepFault::Bad),
        Some(at) => match name(&text[..at]) {
            None => Err(StepFault::Bad),
            Some(name) => with_start(alloc, name, &text[at + 1..]),
        },
    }
}
