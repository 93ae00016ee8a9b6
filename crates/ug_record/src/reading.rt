// Descriptors read from their bytes.
ghost use Rattle.std.specs.Prelude.{◌≡◌, ◌<◌, ◌≤◌, [], ◌+◌, length, drop, slice_index, vec_len, OnOk, IfOk, IfErr, ℕ};
ghost use Rattle.ug_record.specs.declared.descriptors.Descr.{Descr};
ghost use Rattle.ug_record.specs.Grammar.{IsWellFormed, IsMalformed, IfMalformed};
ghost use Rattle.ug_record.specs.Reading.{AnswersDescr, decoded, two_bytes_at, triple_at, kind_at, interface_fields, config_of, with_descriptor, with_interface, configs_from};

use crate::descriptors::{Config, Descr, IfaceDescr};
use crate::fault::DescrFault;
use std::alloc::Global;
use ug_types::{List, NoMemory, Triple};

const DEVICE_LENGTH: usize = 18;

const DEVICE: u8 = 1;

const CONFIGURATION: u8 = 2;

const INTERFACE: u8 = 4;
/// The least bLength of a configuration and of an interface descriptor.
const LEAST_LENGTH: u8 = 9;

/// What the bytes of the file `descriptors` say, or their first fault. Linear in the number of bytes.
pub fn decode(alloc: Global, bytes: &[u8]) -> Result<Descr, DescrFault>
    ensures good { IfOk result (λ descr. IsWellFormed bytes.now descr) }
    ensures only_good { (descr : Descr) → IsWellFormed bytes.now descr
        → AnswersDescr result (Ok descr) }
    ensures bad { IfErr result (λ e. IfMalformed e (IsMalformed bytes.now)) }
    ensures only_bad { (kind place : ℕ) → IsMalformed bytes.now kind place
        → AnswersDescr result (Err (record { kind = kind; place = place })) }
    ensures exact { AnswersDescr result (decoded bytes.now) }
{
    read(alloc, bytes)
}

#[tactic(auto, unfolding(crate::specs::Reading::decoded))]
fn read(alloc: Global, bytes: &[u8]) -> Result<Descr, DescrFault>
    ensures { AnswersDescr result (decoded bytes.now) }
{
    if bytes.len() < DEVICE_LENGTH {
        return Err(malformed(1, bytes.len()));
    }
    if bytes[0] != 18 || bytes[1] != DEVICE {
        return Err(malformed(2, 0));
    }
    let configs = configs_of(alloc, bytes)?;
    Ok(Descr {
        vendor: number_from(bytes, 8),
        product: number_from(bytes, 10),
        class: triple_from(bytes, 4),
        configurations: bytes[17],
        configs,
    })
}

fn malformed(kind: u8, place: usize) -> DescrFault
    ensures { result ≡ DescrFault.Malformed kind place }
{
    DescrFault::Malformed {
        kind,
        place: place as u64,
    }
}

fn number_from(bytes: &[u8], at: usize) -> u16
    requires { at + 1 < length bytes.now }
    ensures { result ≡ two_bytes_at bytes.now at }
{
    u16::from_le_bytes([bytes[at], bytes[at + 1]])
}

fn triple_from(bytes: &[u8], at: usize) -> Triple
    requires { at + 2 < length bytes.now }
    ensures { result ≡ triple_at bytes.now at }
{
    Triple {
        class: bytes[at],
        subclass: bytes[at + 1],
        protocol: bytes[at + 2],
    }
}

// The descriptors behind that of the device.
fn configs_of(alloc: Global, bytes: &[u8]) -> Result<List<Config>, DescrFault>
    ensures { AnswersDescr result (configs_from [] 18 0 (drop 18 bytes.now)) }
{
    let mut configs = Vec::new(alloc);
    let mut at = DEVICE_LENGTH;
    while at < bytes.len() {
        let rest = &bytes[at..];
        if let Some(kind) = fault_kind(rest, !configs.is_empty()) {
            return Err(malformed(kind, at));
        }
        let length = rest[0] as usize;
        if let Err(NoMemory) = add_piece(alloc, &mut configs, &rest[..length]) {
            return Err(DescrFault::Memory);
        }
        at += length;
    }
    Ok(List::from_vec(configs))
}

// The fault at the descriptor that begins there.
fn fault_kind(rest: &[u8], configured: bool) -> Option<u8>
    requires { 0 < length rest.now }
    ensures { result ≡ kind_at configured rest.now }
{
    let length = rest[0];
    if length < 2 {
        return Some(3);
    }
    if rest.len() < length as usize {
        return Some(4);
    }
    match rest[1] {
        CONFIGURATION if length < LEAST_LENGTH => Some(5),
        INTERFACE if length < LEAST_LENGTH => Some(6),
        INTERFACE if !configured => Some(7),
        _ => None,
    }
}

fn add_piece(alloc: Global, configs: &mut Vec<Config>, piece: &[u8]) -> Result<(), NoMemory>
    requires two { 2 ≤ length piece.now }
    requires configuration { slice_index piece.now 1 ≡ 2 → 9 ≤ length piece.now }
    requires interface { slice_index piece.now 1 ≡ 4 → 9 ≤ length piece.now }
    requires configured { slice_index piece.now 1 ≡ 4 → 0 < vec_len configs.old }
    ensures { OnOk result (configs.new.items ≡ with_descriptor configs.old.items piece.now) }
{
    match piece[1] {
        CONFIGURATION => {
            configs.push(config_from(alloc, piece))?;
            Ok(())
        }
        INTERFACE => add_interface(configs, interface_from(piece)),
        _ => Ok(()),
    }
}

#[tactic(auto, using(crate::proofs::Steps::with_last))]
fn add_interface(configs: &mut Vec<Config>, interface: IfaceDescr) -> Result<(), NoMemory>
    requires { 0 < vec_len configs.old }
    ensures { OnOk result (configs.new.items ≡ with_interface configs.old.items interface) }
{
    let last = configs.len() - 1;
    let config = &mut configs[last];
    config.items.push(interface)
}

fn config_from(alloc: Global, piece: &[u8]) -> Config
    requires { 9 ≤ length piece.now }
    ensures { result ≡ config_of piece.now [] }
{
    Config {
        value: piece[5],
        count: piece[4],
        items: List::new(alloc),
    }
}

fn interface_from(piece: &[u8]) -> IfaceDescr
    requires { 9 ≤ length piece.now }
    ensures { result ≡ interface_fields piece.now }
{
    IfaceDescr {
        number: piece[2],
        alternate: piece[3],
        endpoints: piece[4],
        triple: triple_from(piece, 5),
    }
}
