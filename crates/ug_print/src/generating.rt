// Rules made of devices.
ghost use Rattle.std.specs.Prelude.{◌≡◌, ◌↔◌, ◌<◌, ◌^◌, ◌++◌, ◌∷◌, [], All, IfOk, IsTrue, OnOk, List, None, Some, if◌then◌else◌, map};
ghost use Rattle.ug_types.specs.declared.record.DeviceRecord.{DeviceRecord};
ghost use Rattle.ug_match.specs.Queries.{query_matches};
ghost use Rattle.ug_rule.specs.Grammar.{WellFormed};
ghost use Rattle.ug_rule.specs.Queries.{no_query};
ghost use Rattle.ug_print.specs.Alike.{IsAlike};
ghost use Rattle.ug_words.specs.WordGrammar.{id_with};
ghost use Rattle.ug_print.specs.Bytes.{AreBytes, RuleOfBytes};
ghost use Rattle.ug_print.specs.Generated.{equals, generated_of, interface_of_triple, interfaces_value, device_query};
ghost use Rattle.ug_print.specs.Ranges.{RecordInRange, TripleInRange};

use std::alloc::Global;
use std::mem::replace;
use ug_rule::empty_query;
use ug_types::{
    DeviceRecord, Id, Iface, List, NoMemory, Op, Query, Rule, Target, Text, Triple, Values,
};

fn set_values<T: Drop>(values: &mut Option<Values<T>>, items: List<T>)
    ensures { values.new ≡ equals items }
{
    let given = Values {
        op: Op::Equals,
        items,
    };
    drop(replace(values, Some(given)));
}

fn set_id(
    alloc: Global,
    vendor: u16,
    product: u16,
    values: &mut Option<Values<Id>>,
) -> Result<(), NoMemory>
    ensures values { OnOk result
        (values.new ≡ equals (id_with (Some vendor) (Some product) ∷ [])) }
    ensures vendor { vendor < 2 ^ 16 }
    ensures product { product < 2 ^ 16 }
{
    let mut items = List::new(alloc);
    items.push(Id {
        vendor: Some(vendor),
        product: Some(product),
    })?;
    set_values(values, items);
    Ok(())
}

fn set_text(alloc: Global, text: &[u8], values: &mut Option<Values<Text>>) -> Result<(), NoMemory>
    ensures values { OnOk result (values.new ≡ equals (text.now ∷ [])) }
    ensures bytes { AreBytes text.now }
{
    let item = Text::of(alloc, text)?;
    let mut items = List::new(alloc);
    items.push(item)?;
    set_values(values, items);
    Ok(())
}

fn set_port(
    alloc: Global,
    port: &[u8],
    with_port: bool,
    values: &mut Option<Values<Text>>,
) -> Result<(), NoMemory>
    requires { values.old ≡ None }
    ensures values { OnOk result
        (values.new ≡ (if with_port then equals (port.now ∷ []) else None)) }
    ensures bytes { AreBytes port.now }
{
    if with_port {
        return set_text(alloc, port, values);
    }
    Ok(())
}

fn interface(triple: Triple) -> Iface
    ensures interface { result ≡ interface_of_triple triple }
    ensures range { TripleInRange triple }
{
    Iface {
        class: triple.class,
        subclass: Some(triple.subclass),
        protocol: Some(triple.protocol),
    }
}

fn put_interfaces(items: &mut List<Iface>, triples: &[Triple]) -> Result<(), NoMemory>
    ensures items { OnOk result (items.new ≡ items.old ++ map interface_of_triple triples.now) }
    ensures range { OnOk result (All TripleInRange triples.now) }
{
    for triple in triples {
        items.push(interface(*triple))?;
    }
    Ok(())
}

fn set_interfaces(
    alloc: Global,
    triples: &[Triple],
    values: &mut Option<Values<Iface>>,
) -> Result<(), NoMemory>
    requires { values.old ≡ None }
    ensures values { OnOk result (values.new ≡ interfaces_value triples.now) }
    ensures range { OnOk result (All TripleInRange triples.now) }
{
    if triples.is_empty() {
        return Ok(());
    }
    let mut items = List::new(alloc);
    put_interfaces(&mut items, triples)?;
    set_values(values, items);
    Ok(())
}

// Gives an empty query what is known of a device.
#[tactic(auto, unfolding(crate::specs::Generated::device_query))]
fn set_attributes(
    alloc: Global,
    device: &DeviceRecord,
    with_port: bool,
    query: &mut Query,
) -> Result<(), NoMemory>
    requires { query.old ≡ no_query }
    ensures query { OnOk result (query.new ≡ device_query device.now with_port) }
    ensures range { OnOk result (RecordInRange device.now) }
{
    set_id(alloc, device.vendor, device.product, &mut query.id)?;
    set_text(alloc, device.serial.bytes(), &mut query.serial)?;
    set_text(alloc, device.name.bytes(), &mut query.name)?;
    set_text(alloc, &device.hash, &mut query.hash)?;
    set_text(alloc, device.parent_hash.bytes(), &mut query.parent_hash)?;
    set_port(
        alloc,
        device.via_port.bytes(),
        with_port,
        &mut query.via_port,
    )?;
    set_interfaces(alloc, device.interfaces.as_slice(), &mut query.interface)?;
    set_text(alloc, device.connect.bytes(), &mut query.connect)?;
    Ok(())
}

/// The rule generated from a device: every attribute that is known, each with `equals`, and the port only where it is asked
/// for. Interfaces are in the device's order; a device without any gets no `with-interface`. Some line reads as the rule.
#[tactic(auto, unfolding(crate::specs::Generated::generated_of))]
pub fn generated_rule(
    alloc: Global,
    device: &DeviceRecord,
    target: Target,
    with_port: bool,
) -> Result<Rule, NoMemory>
    ensures rule { IfOk result (λ rule. rule ≡ generated_of device.now target with_port) }
    ensures well_formed { IfOk result (λ rule. WellFormed rule) }
    ensures bytes { IfOk result (λ rule. RuleOfBytes rule) }
    ensures own { IfOk result (λ rule. IsTrue (query_matches rule.query device.now)) }
    ensures alike { IfOk result (λ rule. (other : DeviceRecord)
        → IsTrue (query_matches rule.query other) ↔ IsAlike with_port device.now other) }
{
    let mut rule = Rule {
        target,
        query: empty_query(),
        conds: None,
    };
    match set_attributes(alloc, device, with_port, &mut rule.query) {
        Ok(()) => Ok(rule),
        Err(_) => {
            rule.discard();
            Err(NoMemory)
        }
    }
}
