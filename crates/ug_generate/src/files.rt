// What is known of a device that is held in memory.
ghost use Rattle.std.specs.Prelude.{◌≡◌, IfOk};
ghost use Rattle.ug_kernel.specs.Called.{text_within, within_limit};
ghost use Rattle.ug_kernel.specs.Bound.{attrs_of, file_bytes, is_too_long, parent_attrs_of};
ghost use Rattle.ug_generate.specs.Policies.{judged_in as judged_there, parent_files as files_above};

use std::alloc::Global;
use ug_kernel::Device;
use ug_record::record_of;
use ug_types::{Attrs, Judged, NoMemory, Text};

/// The bytes of a file, none where there are too many.
#[derive(Drop)]
struct FileRead {
    bytes: Text,
    too_long: bool,
}

fn read_within(alloc: Global, bytes: &[u8], limit: usize) -> Result<FileRead, NoMemory>
    ensures bytes { IfOk result (λ file. file.bytes ≡ file_bytes (within_limit limit bytes.now)) }
    ensures too_long { IfOk result (λ file. file.too_long
        ≡ is_too_long (within_limit limit bytes.now)) }
{
    if bytes.len() > limit {
        return Ok(FileRead {
            bytes: Text::new(alloc),
            too_long: true,
        });
    }
    Ok(FileRead {
        bytes: Text::of(alloc, bytes)?,
        too_long: false,
    })
}

fn read_descriptors(alloc: Global, bytes: &[u8]) -> Result<FileRead, NoMemory>
    ensures bytes { IfOk result (λ file. file.bytes ≡ file_bytes (within_limit 131072 bytes.now)) }
    ensures too_long { IfOk result (λ file. file.too_long
        ≡ is_too_long (within_limit 131072 bytes.now)) }
{
    read_within(alloc, bytes, 131_072)
}

fn read_text(alloc: Global, text: &Option<Text>) -> Result<FileRead, NoMemory>
    ensures bytes { IfOk result (λ file. file.bytes ≡ file_bytes (text_within text.now)) }
    ensures too_long { IfOk result (λ file. file.too_long
        ≡ is_too_long (text_within text.now)) }
{
    match text {
        Some(text) => read_within(alloc, text.bytes(), 4096),
        None => Ok(FileRead {
            bytes: Text::new(alloc),
            too_long: false,
        }),
    }
}

fn own_files(alloc: Global, device: &Device) -> Result<Attrs, NoMemory>
    ensures { IfOk result (λ attrs. attrs ≡ attrs_of device.now) }
{
    let attrs = files_for_child(alloc, device)?;
    let Ok(connect) = read_text(alloc, &device.connect) else {
        attrs.discard();
        return Err(NoMemory);
    };
    Ok(Attrs {
        descriptors: attrs.descriptors,
        product: attrs.product,
        serial: attrs.serial,
        connect: connect.bytes,
        too_long: attrs.too_long | connect.too_long,
    })
}

fn files_for_child(alloc: Global, device: &Device) -> Result<Attrs, NoMemory>
    ensures { IfOk result (λ attrs. attrs ≡ parent_attrs_of device.now) }
{
    let descriptors = read_descriptors(alloc, device.descriptors.bytes())?;
    let Ok(product) = read_text(alloc, &device.product) else {
        return Err(NoMemory);
    };
    let Ok(serial) = read_text(alloc, &device.serial) else {
        return Err(NoMemory);
    };
    Ok(Attrs {
        descriptors: descriptors.bytes,
        product: product.bytes,
        serial: serial.bytes,
        connect: Text::new(alloc),
        too_long: descriptors.too_long | product.too_long | serial.too_long,
    })
}

fn parent_files(
    alloc: Global,
    devices: &[Device],
    parent: Option<usize>,
) -> Result<Option<Attrs>, NoMemory>
    ensures { IfOk result (λ attrs. attrs ≡ files_above devices.now parent) }
{
    let Some(place) = parent else {
        return Ok(None);
    };
    match devices.get(place) {
        Some(device) => Ok(Some(files_for_child(alloc, device)?)),
        None => Ok(None),
    }
}

/// What is known of a device from its own files and its parent's.
pub fn judged_in(alloc: Global, devices: &[Device], device: &Device) -> Result<Judged, NoMemory>
    ensures { IfOk result (λ judged. judged ≡ judged_there devices.now device.now) }
{
    let attrs = own_files(alloc, device)?;
    let Ok(parent) = parent_files(alloc, devices, device.parent) else {
        attrs.discard();
        return Err(NoMemory);
    };
    let judged = record_of(alloc, &device.name, &attrs, parent.as_ref());
    attrs.discard();
    if let Some(parent) = parent {
        parent.discard();
    }
    judged
}
