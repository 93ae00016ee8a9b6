// The record of a device, and the hash that its children see.
ghost use Rattle.std.specs.Prelude.{◌≡◌, false, IfOk, option_copied};
ghost use Rattle.ug_types.specs.declared.record.DeviceRecord.{DeviceRecord};
ghost use Rattle.ug_types.specs.declared.record.Judged.TheVariants.{Good};
ghost use Rattle.ug_record.specs.Records.{child_hash_of, hash_under, judged_of, judged_under, parent_hash_of, record_with};

use crate::descriptors::Descr;
use crate::device::device_hash;
use crate::fault::DescrFault;
use crate::files::{text_of, without_newline};
use crate::interfaces::ifaces;
use crate::reading::decode;
use std::alloc::Global;
use ug_types::{Attrs, DeviceRecord, Judged, NoMemory, NodeName, Text};

/// What is known of a device by its node name, from its files and those of its parent. A parent that is malformed or
/// has a file that was too long makes the parent hash empty, and isn't a fault of the device.
#[tactic(auto, unfolding(crate::specs::Records::judged_of))]
pub fn record_of(
    alloc: Global,
    name: &NodeName,
    attrs: &Attrs,
    parent: Option<&Attrs>,
) -> Result<Judged, NoMemory>
    ensures { IfOk result
        (λ judged. judged ≡ judged_of name.now attrs.now (option_copied parent.entry)) }
{
    let hash = parent_hash(alloc, parent)?;
    record_under(alloc, name, attrs, hash.bytes())
}

/// The hash of a device's parent, by the parent's files: empty for a root hub, which has none.
#[tactic(auto, unfolding(crate::specs::Records::parent_hash_of))]
pub fn parent_hash(alloc: Global, parent: Option<&Attrs>) -> Result<Text, NoMemory>
    ensures { IfOk result (λ hash. hash ≡ parent_hash_of (option_copied parent.entry)) }
{
    match parent {
        Some(parent) => child_hash(alloc, parent, parent.too_long),
        None => Ok(Text::new(alloc)),
    }
}

/// What is known of a device from its own files and its parent's hash, and the hash that its children see as their parent's.
/// `core_long` tells whether a file that a hash is made of was too long: the descriptors, the product or the serial number.
pub fn record_and_hash(
    alloc: Global,
    name: &NodeName,
    attrs: &Attrs,
    core_long: bool,
    parent_hash: &[u8],
) -> Result<(Judged, Text), NoMemory>
    ensures judged { IfOk result
        (λ made. made.0 ≡ judged_under name.now attrs.now parent_hash.now) }
    ensures hash { IfOk result (λ made. made.1 ≡ child_hash_of attrs.now core_long) }
{
    let judged = record_under(alloc, name, attrs, parent_hash)?;
    let hash = hash_beside(alloc, attrs, core_long, &judged)?;
    Ok((judged, hash))
}

// The hash that a device's children see, which is that of its record where it has one.
fn hash_beside(
    alloc: Global,
    attrs: &Attrs,
    core_long: bool,
    judged: &Judged,
) -> Result<Text, NoMemory>
    requires own { (r : DeviceRecord) → judged.now ≡ Good r
        → r.hash ≡ child_hash_of attrs.now false }
    ensures { IfOk result (λ hash. hash ≡ child_hash_of attrs.now core_long) }
{
    match judged {
        Judged::Good(record) if !core_long => Text::of(alloc, record.hash.as_slice()),
        _ => child_hash(alloc, attrs, core_long),
    }
}

// From a device's own files and its parent's hash.
fn record_under(
    alloc: Global,
    name: &NodeName,
    attrs: &Attrs,
    parent_hash: &[u8],
) -> Result<Judged, NoMemory>
    ensures value { IfOk result
        (λ judged. judged ≡ judged_under name.now attrs.now parent_hash.now) }
    ensures own { IfOk result (λ judged. (r : DeviceRecord) → judged ≡ Good r
        → r.hash ≡ child_hash_of attrs.now false) }
{
    if attrs.too_long {
        return Ok(Judged::Malformed { kind: 8, place: 0 });
    }
    match decode(alloc, attrs.descriptors.bytes()) {
        Ok(descr) => {
            let record = record_from(alloc, name, attrs, parent_hash, &descr)?;
            Ok(Judged::Good(record))
        }
        Err(DescrFault::Malformed { kind, place }) => Ok(Judged::Malformed { kind, place }),
        Err(DescrFault::Memory) => Err(NoMemory),
    }
}

// The hash that a device's children see, from its files.
fn child_hash(alloc: Global, attrs: &Attrs, core_long: bool) -> Result<Text, NoMemory>
    ensures { IfOk result (λ hash. hash ≡ child_hash_of attrs.now core_long) }
{
    if core_long {
        return Ok(Text::new(alloc));
    }
    match decode(alloc, attrs.descriptors.bytes()) {
        Ok(descr) => Text::of(alloc, hash_from(attrs, &descr).as_slice()),
        Err(DescrFault::Malformed { .. }) => Ok(Text::new(alloc)),
        Err(DescrFault::Memory) => Err(NoMemory),
    }
}

fn record_from(
    alloc: Global,
    name: &NodeName,
    attrs: &Attrs,
    parent_hash: &[u8],
    descr: &Descr,
) -> Result<DeviceRecord, NoMemory>
    ensures { IfOk result
        (λ made. made ≡ record_with name.now attrs.now parent_hash.now descr.now) }
{
    let name_text = text_of(alloc, attrs.product.bytes())?;
    let serial = text_of(alloc, attrs.serial.bytes())?;
    let connect = text_of(alloc, attrs.connect.bytes())?;
    let interfaces = ifaces(alloc, descr)?;
    let parent_hash = Text::of(alloc, parent_hash)?;
    Ok(DeviceRecord {
        vendor: descr.vendor,
        product: descr.product,
        hash: hash_from(attrs, descr),
        serial,
        name: name_text,
        parent_hash,
        via_port: *name,
        interfaces,
        connect,
    })
}

fn hash_from(attrs: &Attrs, descr: &Descr) -> [u8; 44]
    ensures { result ≡ hash_under attrs.now descr.now }
{
    device_hash(
        without_newline(attrs.product.bytes()),
        descr.vendor,
        descr.product,
        without_newline(attrs.serial.bytes()),
        attrs.descriptors.bytes(),
    )
}
