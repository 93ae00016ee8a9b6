// Copies of queries, and whether two are the same.
ghost use Rattle.std.specs.Prelude.{◌≡◌, ◌++◌, ◌∷◌, [], true, IfOk};

use std::alloc::Global;
use std::mem::replace;
use ug_types::{Id, Iface, List, NoMemory, Query, Text, Values};

/// A value of a query's attribute.
trait Value: Drop + Sized {
    fn is_same(&self, other: &Self) -> bool
        ensures { result ≡ true → self.now ≡ other.now };

    fn copy(&self, alloc: Global) -> Result<Self, NoMemory>
        ensures { IfOk result (λ made. made ≡ self.now) };
}

fn same_word(one: Option<u16>, other: Option<u16>) -> bool
    ensures { result ≡ true → one ≡ other }
{
    match (one, other) {
        (None, None) => true,
        (Some(a), Some(b)) => a == b,
        _ => false,
    }
}

fn same_byte(one: Option<u8>, other: Option<u8>) -> bool
    ensures { result ≡ true → one ≡ other }
{
    match (one, other) {
        (None, None) => true,
        (Some(a), Some(b)) => a == b,
        _ => false,
    }
}

impl Value for Id {
    fn is_same(&self, other: &Id) -> bool {
        same_word(self.vendor, other.vendor) && same_word(self.product, other.product)
    }

    fn copy(&self, _alloc: Global) -> Result<Id, NoMemory> {
        Ok(*self)
    }
}

impl Value for Iface {
    fn is_same(&self, other: &Iface) -> bool {
        self.class == other.class
            && same_byte(self.subclass, other.subclass)
            && same_byte(self.protocol, other.protocol)
    }

    fn copy(&self, _alloc: Global) -> Result<Iface, NoMemory> {
        Ok(*self)
    }
}

impl Value for Text {
    fn is_same(&self, other: &Text) -> bool {
        self.bytes() == other.bytes()
    }

    fn copy(&self, alloc: Global) -> Result<Text, NoMemory> {
        Text::of(alloc, self.bytes())
    }
}

fn same_items<T: Value>(one: &[T], other: &[T]) -> bool
    ensures { result ≡ true → one.now ≡ other.now }
{
    if one.len() != other.len() {
        return false;
    }
    for i in 0..one.len() {
        if !one[i].is_same(&other[i]) {
            return false;
        }
    }
    true
}

fn same_values<T: Value>(one: &Option<Values<T>>, other: &Option<Values<T>>) -> bool
    ensures { result ≡ true → one.now ≡ other.now }
{
    match (one, other) {
        (None, None) => true,
        (Some(a), Some(b)) => a.op == b.op && same_items(a.items.as_slice(), b.items.as_slice()),
        _ => false,
    }
}

fn same_label(one: &Option<Text>, other: &Option<Text>) -> bool
    ensures { result ≡ true → one.now ≡ other.now }
{
    match (one, other) {
        (None, None) => true,
        (Some(a), Some(b)) => a.is_same(b),
        _ => false,
    }
}

/// Whether two queries have the same attributes.
pub fn is_same(one: &Query, other: &Query) -> bool
    ensures { result ≡ true → one.now ≡ other.now }
{
    same_values(&one.id, &other.id)
        && same_values(&one.serial, &other.serial)
        && same_values(&one.name, &other.name)
        && same_values(&one.hash, &other.hash)
        && same_values(&one.parent_hash, &other.parent_hash)
        && same_values(&one.via_port, &other.via_port)
        && same_values(&one.interface, &other.interface)
        && same_values(&one.connect, &other.connect)
        && same_label(&one.label, &other.label)
}

// Puts a copy of the item behind others, where there is memory for it.
fn copy_behind<T: Value>(alloc: Global, item: &T, made: &mut List<T>) -> bool
    ensures { result ≡ true → made.new ≡ made.old ++ item.now ∷ [] }
{
    match item.copy(alloc) {
        Ok(copied) => made.push(copied).is_ok(),
        Err(_) => false,
    }
}

fn copy_items<T: Value>(alloc: Global, items: &[T]) -> Result<List<T>, NoMemory>
    ensures { IfOk result (λ made. made ≡ items.now) }
{
    let mut made = List::new(alloc);
    for item in items {
        if !copy_behind(alloc, item, &mut made) {
            drop(made);
            return Err(NoMemory);
        }
    }
    Ok(made)
}

fn copy_values<T: Value>(
    alloc: Global,
    values: &Option<Values<T>>,
) -> Result<Option<Values<T>>, NoMemory>
    ensures { IfOk result (λ made. made ≡ values.now) }
{
    match values {
        Some(values) => Ok(Some(Values {
            op: values.op,
            items: copy_items(alloc, values.items.as_slice())?,
        })),
        None => Ok(None),
    }
}

// Puts a copy of the values in place of others, where there is memory for it.
fn copy_into<T: Value>(
    alloc: Global,
    values: &Option<Values<T>>,
    made: &mut Option<Values<T>>,
) -> bool
    ensures { result ≡ true → made.new ≡ values.now }
{
    match copy_values(alloc, values) {
        Ok(copied) => {
            drop(replace(made, copied));
            true
        }
        Err(_) => false,
    }
}

fn copy_label(alloc: Global, label: &Option<Text>) -> Result<Option<Text>, NoMemory>
    ensures { IfOk result (λ made. made ≡ label.now) }
{
    match label {
        Some(label) => Ok(Some(label.copy(alloc)?)),
        None => Ok(None),
    }
}

// Puts a copy of the label in place of another, where there is memory for it.
fn copy_label_into(alloc: Global, label: &Option<Text>, made: &mut Option<Text>) -> bool
    ensures { result ≡ true → made.new ≡ label.now }
{
    match copy_label(alloc, label) {
        Ok(copied) => {
            drop(replace(made, copied));
            true
        }
        Err(_) => false,
    }
}

fn empty_query() -> Query {
    Query {
        id: None,
        serial: None,
        name: None,
        hash: None,
        parent_hash: None,
        via_port: None,
        interface: None,
        connect: None,
        label: None,
    }
}

// Puts a copy of each attribute in place of those of another query, where there is memory for it.
fn copy_attributes(alloc: Global, query: &Query, made: &mut Query) -> bool
    ensures { result ≡ true → made.new ≡ query.now }
{
    copy_into(alloc, &query.id, &mut made.id)
        && copy_into(alloc, &query.serial, &mut made.serial)
        && copy_into(alloc, &query.name, &mut made.name)
        && copy_into(alloc, &query.hash, &mut made.hash)
        && copy_into(alloc, &query.parent_hash, &mut made.parent_hash)
        && copy_into(alloc, &query.via_port, &mut made.via_port)
        && copy_into(alloc, &query.interface, &mut made.interface)
        && copy_into(alloc, &query.connect, &mut made.connect)
        && copy_label_into(alloc, &query.label, &mut made.label)
}

/// The same query once more.
pub fn copy_query(alloc: Global, query: &Query) -> Result<Query, NoMemory>
    ensures { IfOk result (λ made. made ≡ query.now) }
{
    let mut made = empty_query();
    if copy_attributes(alloc, query, &mut made) {
        return Ok(made);
    }
    drop(made);
    Err(NoMemory)
}
