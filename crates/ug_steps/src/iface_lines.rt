// Interfaces that come and go.
ghost use Rattle.std.specs.Prelude.{◌≡◌, Some};
ghost use Rattle.ug_steps.specs.IfaceLines as lines;
ghost use Rattle.ug_steps.specs.IfaceLines.{byte_word, iface_name_of, new_iface_of, iface_numbers_of, triple_word, unless_zero, whole_triple};

use crate::plugs::start;
use crate::words::{dot, name, space};
use ug_iface::IfaceName;
use ug_lines::parse_decimal;
use ug_sysfs::NewIface;
use ug_types::{Iface, NodeName, Triple};
use ug_words::interface;

/// A decimal number without sign or leading zero, up to 255.
#[tactic(auto, unfolding(crate::specs::IfaceLines::byte_word))]
fn byte(text: &[u8]) -> Option<u8>
    ensures { result ≡ byte_word text.now }
{
    match parse_decimal(text) {
        Some(number) => if number <= 255 {
            Some(number as u8)
        } else {
            None
        },
        None => None,
    }
}

/// Such a number, from 1 on.
fn config(text: &[u8]) -> Option<u8>
    ensures { result ≡ unless_zero (byte_word text.now) }
{
    match byte(text) {
        Some(config) => if config >= 1 { Some(config) } else { None },
        None => None,
    }
}

/// `C.I`: interface I of configuration C.
fn numbers(device: NodeName, text: &[u8]) -> Option<IfaceName>
    ensures { result ≡ iface_numbers_of device text.now }
{
    match dot(text) {
        None => None,
        Some(at) => match config(&text[..at]) {
            None => None,
            Some(config) => match byte(&text[at + 1..]) {
                None => None,
                Some(number) => Some(IfaceName {
                    device,
                    config,
                    number,
                }),
            },
        },
    }
}

/// `NAME C.I`.
#[tactic(auto, unfolding(crate::specs::IfaceLines::iface_name_of))]
pub fn iface_name(text: &[u8]) -> Option<IfaceName>
    ensures { result ≡ iface_name_of text.now }
{
    match space(text) {
        None => None,
        Some(at) => match name(&text[..at]) {
            None => None,
            Some(device) => numbers(device, &text[at + 1..]),
        },
    }
}

fn whole(iface: Iface) -> Option<Triple>
    ensures { result ≡ whole_triple (Some iface) }
{
    match iface.subclass {
        None => None,
        Some(subclass) => match iface.protocol {
            None => None,
            Some(protocol) => Some(Triple {
                class: iface.class,
                subclass,
                protocol,
            }),
        },
    }
}

/// `cc:ss:pp`.
#[tactic(auto, unfolding(crate::specs::IfaceLines::triple_word))]
fn triple(word: &[u8]) -> Option<Triple>
    ensures { result ≡ triple_word word.now }
{
    match interface(word) {
        None => None,
        Some(iface) => whole(iface),
    }
}

/// `cc:ss:pp START`.
fn with_triple(name: IfaceName, text: &[u8]) -> Option<NewIface>
    ensures { result ≡ lines.with_triple name text.now }
{
    match space(text) {
        None => None,
        Some(at) => match triple(&text[..at]) {
            None => None,
            Some(triple) => match start(&text[at + 1..]) {
                None => None,
                Some(on) => Some(NewIface { name, triple, on }),
            },
        },
    }
}

/// `C.I cc:ss:pp START`.
fn with_numbers(device: NodeName, text: &[u8]) -> Option<NewIface>
    ensures { result ≡ lines.with_numbers device text.now }
{
    match space(text) {
        None => None,
        Some(at) => match numbers(device, &text[..at]) {
            None => None,
            Some(name) => with_triple(name, &text[at + 1..]),
        },
    }
}

/// An interface by its device's name, its configuration and number, its class, subclass and protocol in hexadecimal, and `1` where it
/// starts authorised, else `0`.
#[tactic(auto, unfolding(crate::specs::IfaceLines::new_iface_of))]
pub fn new_iface(text: &[u8]) -> Option<NewIface>
    ensures { result ≡ new_iface_of text.now }
{
    match space(text) {
        None => None,
        Some(at) => match name(&text[..at]) {
            None => None,
            Some(device) => with_numbers(device, &text[at + 1..]),
        },
    }
}
