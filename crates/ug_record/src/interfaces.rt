// The interfaces of a device.
ghost use Rattle.std.specs.Prelude.{◌≡◌, ◌++◌, IfOk, OnOk};
ghost use Rattle.ug_record.specs.Reading.{triples_of, config_triples};

use crate::descriptors::{Config, Descr};
use std::alloc::Global;
use ug_types::{List, NoMemory, Triple};

/// One triple for each interface descriptor, alternate settings too, in file order.
pub fn ifaces(alloc: Global, descr: &Descr) -> Result<List<Triple>, NoMemory>
    ensures { IfOk result (λ triples. triples ≡ triples_of descr.now) }
{
    let mut triples = List::new(alloc);
    for config in descr.configs.as_slice() {
        add_triples(&mut triples, config)?;
    }
    Ok(triples)
}

fn add_triples(triples: &mut List<Triple>, config: &Config) -> Result<(), NoMemory>
    ensures { OnOk result (triples.new ≡ triples.old ++ config_triples config.now) }
{
    for interface in config.items.as_slice() {
        triples.push(interface.triple)?;
    }
    Ok(())
}
