// A query against a device.
ghost use Rattle.std.specs.Prelude.{◌≡◌, [], ◌∷◌};
ghost use Rattle.ug_match.specs.Covers.{covers_id, covers_interface, covers_text};
ghost use Rattle.ug_match.specs.Queries.{attribute, query_matches};

use crate::covers::DeviceId;
use crate::operators::holds;
use ug_types::{DeviceRecord, Id, Iface, Query, Text, Triple, Values};

fn id_holds(values: &Option<Values<Id>>, vendor: u16, product: u16) -> bool
    ensures { result ≡ attribute covers_id values.now
        (record { vendor = vendor; product = product } ∷ []) }
{
    match values {
        Some(values) => holds(values, &[DeviceId { vendor, product }]),
        None => true,
    }
}

fn text_holds(values: &Option<Values<Text>>, text: &[u8]) -> bool
    ensures { result ≡ attribute covers_text values.now (text.now ∷ []) }
{
    match values {
        Some(values) => holds(values, &[text]),
        None => true,
    }
}

fn interfaces_hold(values: &Option<Values<Iface>>, interfaces: &[Triple]) -> bool
    ensures { result ≡ attribute covers_interface values.now interfaces.now }
{
    match values {
        Some(values) => holds(values, interfaces),
        None => true,
    }
}

/// Whether each attribute that the query gives holds of the device. A label holds of every device. It takes no
/// memory.
#[tactic(auto, unfolding(crate::specs::Queries::query_matches))]
pub fn matches(query: &Query, device: &DeviceRecord) -> bool
    ensures { result ≡ query_matches query.now device.now }
{
    id_holds(&query.id, device.vendor, device.product)
        && text_holds(&query.serial, device.serial.bytes())
        && text_holds(&query.name, device.name.bytes())
        && text_holds(&query.hash, &device.hash)
        && text_holds(&query.parent_hash, device.parent_hash.bytes())
        && text_holds(&query.via_port, device.via_port.bytes())
        && interfaces_hold(&query.interface, device.interfaces.as_slice())
        && text_holds(&query.connect, device.connect.bytes())
}
