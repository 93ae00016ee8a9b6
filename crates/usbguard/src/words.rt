// What the kinds of faults say in words.
use crate::rule_place::expected_at;
use std::str;

// A part of a line, up to the `=`.
fn key_of(line: &[u8]) -> &str {
    let text = str::from_utf8(line).unwrap_or("");
    match text.split_once('=') {
        Some((key, _value)) => key.trim(),
        None => "",
    }
}

/// Keys of the settings, and what was expected as their value. The others have a path.
const KEYS: [(&str, &str); 8] = [
    (
        "ImplicitPolicyTarget",
        "a target was expected: allow, block or reject",
    ),
    (
        "PresentDevicePolicy",
        "allow, block, reject, keep or apply-policy was expected",
    ),
    (
        "PresentControllerPolicy",
        "allow, block, reject, keep or apply-policy was expected",
    ),
    (
        "InsertedDevicePolicy",
        "block, reject or apply-policy was expected",
    ),
    (
        "AuthorizedDefault",
        "none, all, keep or internal was expected",
    ),
    ("DeviceRulesWithPort", "true or false was expected"),
    (
        "IPCAllowedUsers",
        "names of users were expected, with blanks between",
    ),
    (
        "IPCAllowedGroups",
        "names of groups were expected, with blanks between",
    ),
];

// What a key of the settings can have.
fn value_of_key(key: &str) -> &'static str {
    for (known, expected) in KEYS {
        if key == known {
            return expected;
        }
    }
    "a path was expected"
}

// The privileges of a section.
fn privileges_of(section: &str) -> &'static str {
    match section {
        "Policy" => "a privilege was expected: modify, list or ALL",
        "Exceptions" => "a privilege was expected: listen or ALL",
        _ => "a privilege was expected: modify, list, listen or ALL",
    }
}

/// What is wrong with a line of the settings.
pub fn settings_fault(kind: u64, line: &[u8]) -> &'static str {
    match kind {
        1 => "a = is missing: Key=Value was expected",
        2 => "there is no such key: usbguard-daemon.conf(5) has them",
        3 => value_of_key(key_of(line)),
        4 => "an earlier line sets the key",
        _ => "the file is absent, or has more than 67,108,864 bytes",
    }
}

/// What is wrong with a line of an access file.
pub fn access_fault(kind: u64, line: &[u8]) -> &'static str {
    match kind {
        1 => "a = is missing: a section, = and its privileges were expected",
        2 => "a section was expected: Devices, Policy, Exceptions or Parameters",
        3 => privileges_of(key_of(line)),
        4 => "an earlier line has the section",
        5 => "the file's name is none of a user or a group",
        _ => "the file has more than 67,108,864 bytes",
    }
}

/// What is wrong with a rule, or with a query of one.
pub fn rule_fault(kind: u64, line: &[u8], place: u64, is_query: bool) -> &'static str {
    let place = usize::try_from(place).unwrap_or(usize::MAX);
    match kind {
        1 => "a backslash begins no escape: write \\\" or \\\\ or \\x and two digits",
        2 => "a string has no end",
        3 => "this begins no word, string or mark",
        4 => "a target was expected: allow, block or reject",
        5 => {
            "there is no such attribute: id, serial, name, hash, parent-hash, via-port, with-interface, with-connect-type, label or if was expected"
        }
        6 => "an attribute, or if, stands here for the second time",
        7 | 10 => expected_at(line, place, is_query),
        8 => "a set is empty: leave the attribute out",
        9 => "a set has no end: } was expected",
        11 => "if can't stand in a query",
        12 => "an attribute, or if, was expected in place of a string or mark",
        _ => {
            "the rules have more than 67,108,864 bytes, or with those of the folder are more than 65,536"
        }
    }
}

/// What is wrong with the descriptors of a device.
pub fn descriptor_fault(kind: u64) -> &'static str {
    match kind {
        1 => "the device descriptor has 18 bytes, and there are fewer",
        2 => "a device descriptor begins with the bytes 18 and 1",
        3 => "a descriptor's length is below 2",
        4 => "a descriptor goes beyond the end",
        5 => "a configuration has less than 9 bytes",
        6 => "an interface has less than 9 bytes",
        7 => "an interface stands before the first configuration",
        _ => "there are more than 67,108,864 bytes",
    }
}

/// Why a daemon refused an order.
pub fn order_fault(reason: u64) -> &'static str {
    match reason {
        1 => "the daemon takes no such request",
        2 => "the user or group of the socket lacks that privilege: an access file can grant it",
        3 => "the rule is bad",
        4 => "no device has that number, or it has gone: list-devices shows them",
        5 => "no rule has that id: list-rules shows them",
        6 => "only ImplicitPolicyTarget and InsertedDevicePolicy can be asked for and set",
        7 => "the setting has no such value",
        8 => "the device's descriptors are bad, so no rule can be made of it: leave -p out",
        9 => "there are 65,536 rules, or their text would be too long",
        10 => "the rule file couldn't be saved: the daemon's standard error says why",
        11 => "the verdict stands, but a call on the device failed: the daemon tries again",
        12 => "the daemon's memory was short",
        13 => "the device couldn't be looked at, and nothing was changed",
        14 => "the rules of the folder stay in front, and only their files change them",
        _ => "the daemon gave no reason that is known",
    }
}
