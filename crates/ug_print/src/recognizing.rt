// Whether a rule is one that is made of a device.
ghost use Rattle.std.specs.Prelude.{◌≡◌};
ghost use Rattle.ug_print.specs.Made as made;

use ug_types::{DeviceRecord, Id, Iface, Op, Query, Rule, Text, Triple, Values};

fn is_just_text(items: &[Text], text: &[u8]) -> bool
    ensures { result ≡ made.is_just_text text.now items.now }
{
    match items {
        [item] => item.bytes() == text,
        _ => false,
    }
}

fn is_one_text(values: &Option<Values<Text>>, text: &[u8]) -> bool
    ensures { result ≡ made.is_one_text text.now values.now }
{
    match values {
        Some(values) => values.op == Op::Equals && is_just_text(values.items.as_slice(), text),
        None => false,
    }
}

fn is_port(values: &Option<Values<Text>>, port: &[u8], with_port: bool) -> bool
    ensures { result ≡ made.is_port with_port port.now values.now }
{
    if with_port {
        is_one_text(values, port)
    } else {
        values.is_none()
    }
}

fn is_number(value: Option<u16>, number: u16) -> bool
    ensures { result ≡ made.is_number number value }
{
    match value {
        Some(value) => value == number,
        None => false,
    }
}

fn is_just_id(items: &[Id], vendor: u16, product: u16) -> bool
    ensures { result ≡ made.is_just_id vendor product items.now }
{
    match items {
        [item] => is_number(item.vendor, vendor) && is_number(item.product, product),
        _ => false,
    }
}

fn is_one_id(values: &Option<Values<Id>>, vendor: u16, product: u16) -> bool
    ensures { result ≡ made.is_one_id vendor product values.now }
{
    match values {
        Some(values) => {
            values.op == Op::Equals && is_just_id(values.items.as_slice(), vendor, product)
        }
        None => false,
    }
}

fn is_byte(value: Option<u8>, byte: u8) -> bool
    ensures { result ≡ made.is_number byte value }
{
    match value {
        Some(value) => value == byte,
        None => false,
    }
}

fn is_interface(item: &Iface, triple: &Triple) -> bool
    ensures { result ≡ made.is_interface item.now triple.now }
{
    item.class == triple.class
        && is_byte(item.subclass, triple.subclass)
        && is_byte(item.protocol, triple.protocol)
}

fn are_interfaces(items: &[Iface], triples: &[Triple]) -> bool
    ensures { result ≡ made.are_interfaces items.now triples.now }
{
    if items.len() != triples.len() {
        return false;
    }
    for place in 0..items.len() {
        if !is_interface(&items[place], &triples[place]) {
            return false;
        }
    }
    true
}

fn is_for_interfaces(values: &Option<Values<Iface>>, triples: &[Triple]) -> bool
    ensures { result ≡ made.is_for_interfaces triples.now values.now }
{
    if triples.is_empty() {
        return values.is_none();
    }
    match values {
        Some(values) => {
            values.op == Op::Equals && are_interfaces(values.items.as_slice(), triples)
        }
        None => false,
    }
}

fn is_query_of(query: &Query, device: &DeviceRecord, with_port: bool) -> bool
    ensures { result ≡ made.is_query_of device.now with_port query.now }
{
    is_one_id(&query.id, device.vendor, device.product)
        && is_one_text(&query.serial, device.serial.bytes())
        && is_one_text(&query.name, device.name.bytes())
        && is_one_text(&query.hash, &device.hash)
        && is_one_text(&query.parent_hash, device.parent_hash.bytes())
        && is_port(&query.via_port, device.via_port.bytes(), with_port)
        && is_for_interfaces(&query.interface, device.interfaces.as_slice())
        && is_one_text(&query.connect, device.connect.bytes())
        && query.label.is_none()
}

/// Whether a rule is the one that `generated_rule` makes of the device, whatever its target. It takes no memory.
#[tactic(auto, unfolding(crate::specs::Made::is_made_of))]
pub fn is_made_of(rule: &Rule, device: &DeviceRecord, with_port: bool) -> bool
    ensures { result ≡ made.is_made_of device.now with_port rule.now }
{
    is_query_of(&rule.query, device, with_port) && rule.conds.is_none()
}
