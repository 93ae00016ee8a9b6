// The index of rules: few candidates among many rules, and places that move.
use std::alloc::Global;
use ug_policy::Index;
use ug_types::{Id, List, Op, Query, Values};

fn query_of(alloc: Global, vendor: u16, product: u16) -> Option<Query> {
    let mut items = List::new(alloc);
    let id = Id {
        vendor: Some(vendor),
        product: Some(product),
    };
    items.push(id).ok()?;
    Some(Query {
        id: Some(Values {
            op: Op::Equals,
            items,
        }),
        serial: None,
        name: None,
        hash: None,
        parent_hash: None,
        via_port: None,
        interface: None,
        connect: None,
        label: None,
    })
}

// A refusal changes nothing, so that it can be tried again.
fn has_room(index: &mut Index) -> bool {
    let before = index.len();
    if index.reserve().is_ok() {
        return true;
    }
    index.len() == before && index.reserve().is_ok()
}

// Puts a rule at the end.
fn put(index: &mut Index, query: &Query) -> bool {
    let end = index.len();
    if end == 65536 || index.reserve().is_err() {
        return false;
    }
    index.insert(end, query);
    true
}

// An index of rules with that many ids, `0000:0001` and so on.
fn filled(alloc: Global, count: u16) -> Option<Index> {
    let mut index = Index::new(alloc);
    for vendor in 0..count {
        let query = query_of(alloc, vendor, 1)?;
        if !has_room(&mut index) || !put(&mut index, &query) {
            return None;
        }
    }
    Some(index)
}

#[test]
fn a_device_has_few_candidates(rt: HostRuntime) {
    let index = filled(rt.alloc(), 4096).expect(&rt, "memory");
    let candidates = index.candidates(5, 1);
    assert!(rt; index.len() == 4096);
    assert!(rt; candidates.len() == 64);
    assert!(rt; candidates.contains(&5));
}

// Takes the first rule out.
fn shifts(mut index: Index) -> bool {
    if index.len() == 0 {
        return false;
    }
    index.remove(0);
    index.candidates(5, 1) == [4, 68].as_slice() && index.candidates(0, 1) == [63].as_slice()
}

#[test]
fn places_move(rt: HostRuntime) {
    let index = filled(rt.alloc(), 70).expect(&rt, "memory");
    assert!(rt; index.candidates(5, 1) == [5, 69].as_slice());
    assert!(rt; shifts(index));
}
