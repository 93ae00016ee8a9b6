// Where the live devices stand.
ghost use Rattle.std.specs.Prelude.{◌≡◌, ◌++◌, length, IfOk, OnOk, Some};
ghost use Rattle.ug_generate.specs.Policies.{live_at, live_below, AreLiveInOrder};

use std::alloc::Global;
use ug_kernel::Device;
use ug_types::{NoMemory, NodeName};

fn push_live(
    alloc: Global,
    places: &mut Vec<(NodeName, usize)>,
    device: &Device,
    place: usize,
) -> Result<(), NoMemory>
    ensures { OnOk result (places.new.items
        ≡ places.old.items ++ live_at place (Some device.now)) }
{
    if !device.gone {
        places.push((device.name, place))?;
    }
    Ok(())
}

fn live_places(alloc: Global, devices: &[Device]) -> Result<Vec<(NodeName, usize)>, NoMemory>
    ensures { IfOk result (λ places. places.items
        ≡ live_below devices.now (length devices.now)) }
{
    let mut places = Vec::new(alloc);
    for place in 0..devices.len() {
        push_live(alloc, &mut places, &devices[place], place)?;
    }
    Ok(places)
}

/// The names and places of the live devices, in the order of a sweep.
pub fn places_in_order(
    alloc: Global,
    devices: &[Device],
) -> Result<Vec<(NodeName, usize)>, NoMemory>
    ensures { IfOk result (λ places. AreLiveInOrder devices.now places.items) }
{
    let mut places = live_places(alloc, devices)?;
    places.sort_unstable();
    Ok(places)
}
