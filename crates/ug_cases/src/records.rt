// Descriptors and files of devices, the rules made of them, and which rules match them.
use std::alloc::Global;
use ug_casefile::{Answer, Case, bytes_of_hex};
use ug_match::matches;
use ug_print::{device_line, generated_rule, malformed_line, print_rule};
use ug_record::{Descr, DescrFault, decode, ifaces, record_of, text_of};
use ug_rule::parse_query;
use ug_types::{Attrs, DeviceRecord, Judged, NoMemory, NodeName, Target, Text, Triple};

// Bytes of hexadecimal digits, or nothing where there's no such file.
fn bytes_given(alloc: Global, told: &mut Answer, case: &Case, key: &[u8]) -> Text {
    match bytes_of_hex(alloc, case.setting(key).unwrap_or(&[])) {
        Ok(Some(bytes)) => Text::from_vec(bytes),
        Ok(None) => Text::new(alloc),
        Err(_) => {
            told.fall_short();
            Text::new(alloc)
        }
    }
}

fn line_of(alloc: Global, text: &[u8]) -> Result<Text, NoMemory> {
    let mut line = Answer::new(alloc);
    line.add(text);
    line.add(b"\n");
    Ok(Text::from_vec(line.finish()?))
}

// A line, or nothing where there's no such file.
fn file_given(alloc: Global, told: &mut Answer, case: &Case, key: &[u8]) -> Text {
    let Some(text) = case.setting(key) else {
        return Text::new(alloc);
    };
    match line_of(alloc, text) {
        Ok(line) => line,
        Err(_) => {
            told.fall_short();
            Text::new(alloc)
        }
    }
}

fn device(alloc: Global, told: &mut Answer, case: &Case) -> Attrs {
    Attrs {
        descriptors: bytes_given(alloc, told, case, b"descriptors"),
        product: file_given(alloc, told, case, b"product"),
        serial: file_given(alloc, told, case, b"serial"),
        connect: file_given(alloc, told, case, b"connect"),
        too_long: case.setting(b"too-long").is_some(),
    }
}

fn parent(alloc: Global, told: &mut Answer, case: &Case) -> Attrs {
    Attrs {
        descriptors: bytes_given(alloc, told, case, b"parent-descriptors"),
        product: file_given(alloc, told, case, b"parent-product"),
        serial: file_given(alloc, told, case, b"parent-serial"),
        connect: Text::new(alloc),
        too_long: case.setting(b"parent-too-long").is_some(),
    }
}

// The device that the settings of a case describe.
fn judged(
    alloc: Global,
    told: &mut Answer,
    case: &Case,
    name: &NodeName,
) -> Result<Judged, NoMemory> {
    let attrs = device(alloc, told, case);
    if case.setting(b"parent-descriptors").is_none() {
        return record_of(alloc, name, &attrs, None);
    }
    let hub = parent(alloc, told, case);
    record_of(alloc, name, &attrs, Some(&hub))
}

fn name_given(case: &Case) -> Option<NodeName> {
    NodeName::parse(case.setting(b"name").unwrap_or(b"1-1")).ok()
}

fn add_malformed(told: &mut Answer, kind: u8, place: u64) {
    told.add(b"malformed ");
    told.add_number(u64::from(kind));
    told.add(b" ");
    told.add_number(place);
}

// The record of the device of a case; where there is none, that is told.
fn record(alloc: Global, told: &mut Answer, case: &Case) -> Option<DeviceRecord> {
    let Some(name) = name_given(case) else {
        told.add(b"no name");
        return None;
    };
    match judged(alloc, told, case, &name) {
        Ok(Judged::Good(record)) => Some(record),
        Ok(Judged::Malformed { kind, place }) => {
            add_malformed(told, kind, place);
            None
        }
        Err(_) => {
            told.fall_short();
            None
        }
    }
}

fn target(case: &Case) -> Target {
    let word = case.setting(b"target").unwrap_or(&[]);
    Target::named(word).unwrap_or(Target::Allow)
}

fn line_of_device(
    alloc: Global,
    told: &mut Answer,
    case: &Case,
    name: &NodeName,
) -> Result<Text, NoMemory> {
    match judged(alloc, told, case, name)? {
        Judged::Good(record) => device_line(alloc, &record, target(case)),
        Judged::Malformed { kind, place } => {
            malformed_line(alloc, name, kind, place, target(case))
        }
    }
}

/// The line of a device with its verdict.
pub fn tell_device_line(alloc: Global, told: &mut Answer, case: &Case) {
    match name_given(case) {
        Some(name) => {
            let line = line_of_device(alloc, told, case, &name);
            told.add_text(line);
        }
        None => told.add(b"no name"),
    }
}

fn rule_for(alloc: Global, case: &Case, record: &DeviceRecord) -> Result<Text, NoMemory> {
    let with_port = case.setting(b"port").is_some();
    let rule = generated_rule(alloc, record, target(case), with_port)?;
    print_rule(alloc, &rule)
}

/// The rule for a device, with its port where the setting `port` stands.
pub fn tell_generated_rule(alloc: Global, told: &mut Answer, case: &Case) {
    if let Some(record) = record(alloc, told, case) {
        told.add_text(rule_for(alloc, case, &record));
    }
}

// Whether the query of a line matches the device.
fn answer_of(alloc: Global, line: &[u8], device: &DeviceRecord) -> &'static [u8] {
    match parse_query(alloc, line) {
        Ok(query) => {
            if matches(&query, device) {
                b"yes"
            } else {
                b"no"
            }
        }
        Err(_) => b"no query",
    }
}

/// Whether the query of the line matches the device, `yes` or `no`.
pub fn tell_match(alloc: Global, told: &mut Answer, case: &Case) {
    if let Some(device) = record(alloc, told, case) {
        told.add(answer_of(alloc, case.line_given(), &device));
    }
}

fn add_triples(told: &mut Answer, triples: &[Triple]) {
    for triple in triples {
        if !told.is_empty() {
            told.add(b" ");
        }
        told.add_digits(triple.class);
        told.add(b":");
        told.add_digits(triple.subclass);
        told.add(b":");
        told.add_digits(triple.protocol);
    }
}

fn add_interfaces(alloc: Global, told: &mut Answer, descriptors: &Descr) {
    match ifaces(alloc, descriptors) {
        Ok(triples) => add_triples(told, triples.as_slice()),
        Err(_) => told.fall_short(),
    }
}

fn add_decoded(alloc: Global, told: &mut Answer, bytes: &[u8]) {
    match decode(alloc, bytes) {
        Ok(descriptors) => add_interfaces(alloc, told, &descriptors),
        Err(DescrFault::Malformed { kind, place }) => {
            told.add(b"fault ");
            told.add_number(u64::from(kind));
            told.add(b" ");
            told.add_number(place);
        }
        Err(DescrFault::Memory) => told.fall_short(),
    }
}

/// The classes of a device's interfaces in order, or `fault KIND PLACE`.
pub fn tell_interfaces(alloc: Global, told: &mut Answer, digits: &[u8]) {
    match bytes_of_hex(alloc, digits) {
        Ok(Some(bytes)) => add_decoded(alloc, told, &bytes),
        Ok(None) => told.add(b"no digits"),
        Err(_) => told.fall_short(),
    }
}

/// The text of a file, in quotes.
pub fn tell_file_text(alloc: Global, told: &mut Answer, file: &[u8]) {
    match text_of(alloc, file) {
        Ok(text) => told.add_quoted(text.bytes()),
        Err(_) => told.fall_short(),
    }
}
