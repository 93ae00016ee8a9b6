// The device that a rule tells.
ghost use Rattle.std.specs.Prelude.{◌≡◌, IfOk, length};
ghost use Rattle.ug_rows.specs.Devices as devices;

use std::alloc::Global;
use ug_types::{DeviceRecord, Id, Iface, List, NoMemory, NodeName, Query, Text, Triple, Values};

/// The length of a device's hash.
const HASH_LENGTH: usize = 44;

fn first_told(values: &Option<Values<Text>>) -> &[u8]
    ensures { result.now ≡ devices.first_told values.now }
{
    match values {
        Some(values) => match values.items.as_slice() {
            [first, ..] => first.bytes(),
            [] => b"",
        },
        None => b"",
    }
}

fn part_of_id(part: Option<u16>) -> u16
    ensures { result ≡ devices.given_part part }
{
    match part {
        Some(part) => part,
        None => 0,
    }
}

fn part_of_type(part: Option<u8>) -> u8
    ensures { result ≡ devices.given_part part }
{
    match part {
        Some(part) => part,
        None => 0,
    }
}

fn told_id(values: &Option<Values<Id>>) -> (u16, u16)
    ensures { result ≡ devices.told_id values.now }
{
    match values {
        Some(values) => match values.items.as_slice() {
            [first, ..] => (part_of_id(first.vendor), part_of_id(first.product)),
            [] => (0, 0),
        },
        None => (0, 0),
    }
}

fn told_triple(iface: &Iface) -> Triple
    ensures { result ≡ devices.told_triple iface.now }
{
    Triple {
        class: iface.class,
        subclass: part_of_type(iface.subclass),
        protocol: part_of_type(iface.protocol),
    }
}

fn given_items(values: &Option<Values<Iface>>) -> &[Iface]
    ensures { result.now ≡ devices.given_items values.now }
{
    match values {
        Some(values) => values.items.as_slice(),
        None => &[],
    }
}

fn told_triples(alloc: Global, values: &Option<Values<Iface>>) -> Result<List<Triple>, NoMemory>
    ensures { IfOk result (λ triples. triples ≡ devices.told_triples values.now) }
{
    let mut triples = Vec::new(alloc);
    for iface in given_items(values) {
        triples.push(told_triple(iface))?;
    }
    Ok(List::from_vec(triples))
}

fn told_port(text: &[u8]) -> Option<NodeName>
    ensures { result ≡ devices.told_port text.now }
{
    NodeName::parse(text).ok()
}

fn hash_in(text: &[u8]) -> Option<[u8; 44]>
    ensures { result ≡ devices.hash_in text.now }
{
    if text.len() != HASH_LENGTH {
        return None;
    }
    let mut hash = [0; HASH_LENGTH];
    hash.copy_from_slice(text);
    Some(hash)
}

fn device_at(
    alloc: Global,
    query: &Query,
    port: NodeName,
    hash: [u8; 44],
) -> Result<DeviceRecord, NoMemory>
    ensures { IfOk result (λ device. device ≡ devices.device_at query.now port hash) }
{
    let (vendor, product) = told_id(&query.id);
    let serial = Text::of(alloc, first_told(&query.serial))?;
    let name = Text::of(alloc, first_told(&query.name))?;
    let parent_hash = Text::of(alloc, first_told(&query.parent_hash))?;
    let connect = Text::of(alloc, first_told(&query.connect))?;
    let interfaces = told_triples(alloc, &query.interface)?;
    Ok(DeviceRecord {
        vendor,
        product,
        serial,
        name,
        hash,
        parent_hash,
        via_port: port,
        interfaces,
        connect,
    })
}

/// The device that the attributes of a rule tell, by the first value of each. There is none without a port or a hash.
#[tactic(auto, unfolding(crate::specs::Devices::told_device))]
pub fn told_device(alloc: Global, query: &Query) -> Result<Option<DeviceRecord>, NoMemory>
    ensures { IfOk result (λ device. device ≡ devices.told_device query.now) }
{
    let Some(port) = told_port(first_told(&query.via_port)) else {
        return Ok(None);
    };
    let Some(hash) = hash_in(first_told(&query.hash)) else {
        return Ok(None);
    };
    match device_at(alloc, query, port, hash) {
        Ok(device) => Ok(Some(device)),
        Err(fault) => Err(fault),
    }
}
