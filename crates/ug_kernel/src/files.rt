// Reads the files of a device by its name.
ghost use Rattle.std.specs.Prelude.{◌≡◌, []};
ghost use Rattle.ug_kernel.specs.Tree.{Runs};
ghost use Rattle.ug_kernel.specs.Files.{reading, reading_own, reading_parent};

use crate::calls::{FailedCall, ReadOut};
use crate::control::{Attr, Held};
use crate::failed::failed_call;
use crate::sysfs::Sysfs;
use std::alloc::Global;
use ug_types::{Attrs, NodeName, Text};

/// A file's bytes. One that is absent or too long counts as empty.
#[derive(Drop)]
pub struct File {
    pub bytes: Text,
    pub too_long: bool,
}

/// A device's own files.
#[derive(Drop)]
pub struct OwnFiles {
    pub attrs: Attrs,
    /// A file was too long that the hash of the device is made of: its descriptors, its product or its serial number.
    pub core_long: bool,
}

/// Why the reading of a device's files ended early. The held file is closed.
#[derive(Clone, Copy)]
pub enum Stop {
    /// There is no `descriptors` file: no device of the name lived through.
    Vanished,
    Fault(FailedCall),
    Memory,
}

fn no_bytes(alloc: Global, too_long: bool) -> File
    ensures { result ≡ record { bytes = []; too_long = too_long } }
{
    File {
        bytes: Text::new(alloc),
        too_long,
    }
}

/// Reads one file. The held file is closed where this ends the reading.
#[tactic(auto, unfolding(crate::specs::Files::reading))]
pub fn read_file<Y: Sysfs>(
    alloc: Global,
    sysfs: &mut Y,
    name: &NodeName,
    attr: Attr,
    held: Held,
) -> Result<File, Stop>
    ensures { Runs Y.gives sysfs.old (reading name.now attr held.0) result sysfs.new }
{
    match sysfs.read(alloc, name, attr) {
        ReadOut::Bytes(bytes) => Ok(File {
            bytes,
            too_long: false,
        }),
        ReadOut::TooLong => Ok(no_bytes(alloc, true)),
        ReadOut::Absent => match attr {
            Attr::Descriptors => {
                sysfs.close(held);
                Err(Stop::Vanished)
            }
            _ => Ok(no_bytes(alloc, false)),
        },
        ReadOut::Failed => {
            let failed = failed_call(sysfs);
            sysfs.close(held);
            Err(Stop::Fault(failed))
        }
        ReadOut::Memory => {
            sysfs.close(held);
            Err(Stop::Memory)
        }
    }
}

/// Reads the four files of a device.
#[tactic(auto, unfolding(crate::specs::Files::reading_own), using(crate::proofs::Runs::runs_then))]
pub fn read_own<Y: Sysfs>(
    alloc: Global,
    sysfs: &mut Y,
    name: &NodeName,
    held: Held,
) -> Result<OwnFiles, Stop>
    ensures { Runs Y.gives sysfs.old (reading_own name.now held.0) result sysfs.new }
{
    let descriptors = match read_file(alloc, sysfs, name, Attr::Descriptors, held) {
        Ok(descriptors) => descriptors,
        Err(why) => return Err(why),
    };
    let product = match read_file(alloc, sysfs, name, Attr::Product, held) {
        Ok(product) => product,
        Err(why) => return Err(why),
    };
    let serial = match read_file(alloc, sysfs, name, Attr::Serial, held) {
        Ok(serial) => serial,
        Err(why) => return Err(why),
    };
    let connect = match read_file(alloc, sysfs, name, Attr::Connect, held) {
        Ok(connect) => connect,
        Err(why) => return Err(why),
    };
    let core_long = descriptors.too_long || product.too_long || serial.too_long;
    Ok(OwnFiles {
        attrs: Attrs {
            too_long: core_long || connect.too_long,
            descriptors: descriptors.bytes,
            product: product.bytes,
            serial: serial.bytes,
            connect: connect.bytes,
        },
        core_long,
    })
}

/// Reads the files of a parent that its children's records need.
#[tactic(auto, unfolding(crate::specs::Files::reading_parent), using(crate::proofs::Runs::runs_then))]
pub fn read_parent<Y: Sysfs>(
    alloc: Global,
    sysfs: &mut Y,
    name: &NodeName,
    held: Held,
) -> Result<Attrs, Stop>
    ensures { Runs Y.gives sysfs.old (reading_parent name.now held.0) result sysfs.new }
{
    let descriptors = match read_file(alloc, sysfs, name, Attr::Descriptors, held) {
        Ok(descriptors) => descriptors,
        Err(why) => return Err(why),
    };
    let product = match read_file(alloc, sysfs, name, Attr::Product, held) {
        Ok(product) => product,
        Err(why) => return Err(why),
    };
    let serial = match read_file(alloc, sysfs, name, Attr::Serial, held) {
        Ok(serial) => serial,
        Err(why) => return Err(why),
    };
    Ok(Attrs {
        too_long: descriptors.too_long || product.too_long || serial.too_long,
        descriptors: descriptors.bytes,
        product: product.bytes,
        serial: serial.bytes,
        connect: Text::new(alloc),
    })
}
