// Names of devices.
use std::alloc::Global;
use ug_casefile::Answer;
use ug_types::{NameFault, NodeName, sort_names};

fn add_name(told: &mut Answer, name: &NodeName) {
    told.add(b"depth ");
    told.add_number(u64::from(name.depth()));
    if name.is_root() {
        told.add(b", a root hub");
    }
    if let Some(parent) = name.parent() {
        told.add(b", below ");
        told.add(parent.bytes());
    }
}

/// The depth of a name and its parent, or why it's none.
pub fn tell(told: &mut Answer, line: &[u8]) {
    match NodeName::parse(line) {
        Ok(name) => add_name(told, &name),
        Err(NameFault::Empty) => told.add(b"empty"),
        Err(NameFault::TooLong) => told.add(b"too long"),
        Err(NameFault::BadForm(place)) => {
            told.add(b"bad form ");
            told.add_number(place);
        }
    }
}

// The names of a line, as far as they are names.
fn names_of(alloc: Global, line: &[u8]) -> Option<Vec<NodeName>> {
    let mut names = Vec::new(alloc);
    for word in line.split(|byte| *byte == b' ') {
        names.push(NodeName::parse(word).ok()?).ok()?;
    }
    Some(names)
}

fn add_names(told: &mut Answer, names: &[NodeName]) {
    for name in names {
        if !told.is_empty() {
            told.add(b" ");
        }
        told.add(name.bytes());
    }
}

/// The names of a line from the hubs down.
pub fn tell_order(alloc: Global, told: &mut Answer, line: &[u8]) {
    match names_of(alloc, line) {
        Some(mut names) => {
            sort_names(&mut names);
            add_names(told, names.as_slice());
        }
        None => told.add(b"no name"),
    }
}
