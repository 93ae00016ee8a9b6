// Settings, and the faults of their lines.
use crate::rules::add_file_fault;
use std::alloc::Global;
use ug_casefile::Answer;
use ug_conf::{
    AuthDefault, FaultKind, LineFault, Present, Settings, SettingsReader, default_settings,
    parse_conf,
};
use ug_types::Numbered;

fn present_word(present: Present) -> &'static [u8] {
    match present {
        Present::Allow => b"allow",
        Present::Block => b"block",
        Present::Reject => b"reject",
        Present::Keep => b"keep",
        Present::Apply => b"apply-policy",
    }
}

fn default_word(default: AuthDefault) -> &'static [u8] {
    match default {
        AuthDefault::Keep => b"keep",
        AuthDefault::None => b"none",
        AuthDefault::All => b"all",
        AuthDefault::Internal => b"internal",
    }
}

fn add_users(told: &mut Answer, settings: &Settings) {
    told.add(b"users");
    for user in settings.users.as_slice() {
        told.add(if user.is_group() { b" :" } else { b" " });
        told.add(user.name());
    }
    told.add(b"\n");
}

fn add_unused(told: &mut Answer, settings: &Settings) {
    told.add(b"unused");
    for line in settings.unused.as_slice() {
        told.add(b" ");
        told.add_number(*line);
    }
}

fn add_texts(told: &mut Answer, texts: &[(&[u8], &[u8])]) {
    for (key, text) in texts {
        told.add(key);
        told.add(b" ");
        told.add_quoted(text);
        told.add(b"\n");
    }
}

fn add_words(told: &mut Answer, words: &[(&[u8], &[u8])]) {
    for (key, word) in words {
        told.add(key);
        told.add(b" ");
        told.add(word);
        told.add(b"\n");
    }
}

fn word_of_bool(value: bool) -> &'static [u8] {
    if value { b"true" } else { b"false" }
}

fn add_settings(told: &mut Answer, settings: &Settings) {
    let device = present_word(settings.present_device);
    let controller = present_word(settings.present_controller);
    let with_port = word_of_bool(settings.with_port);
    add_texts(
        told,
        &[
            (b"RuleFile", settings.rule_file.bytes()),
            (b"RuleFolder", settings.rule_folder.bytes()),
            (b"IPCAccessControlFiles", settings.access_folder.bytes()),
        ],
    );
    add_words(
        told,
        &[
            (b"ImplicitPolicyTarget", settings.implicit.word()),
            (b"PresentDevicePolicy", device),
            (b"PresentControllerPolicy", controller),
            (b"InsertedDevicePolicy", settings.inserted.word()),
            (b"AuthorizedDefault", default_word(settings.default)),
            (b"DeviceRulesWithPort", with_port),
        ],
    );
    add_users(told, settings);
    add_unused(told, settings);
}

/// The settings of a text, or `fault LINE KIND PLACE`.
pub fn tell(alloc: Global, told: &mut Answer, text: &[u8]) {
    match parse_conf(alloc, text) {
        Ok(settings) => add_settings(told, &settings),
        Err(fault) => add_file_fault(told, fault),
    }
}

pub fn tell_defaults(alloc: Global, told: &mut Answer) {
    match default_settings(alloc) {
        Ok(settings) => add_settings(told, &settings),
        Err(_) => told.fall_short(),
    }
}

/// How long the path of the rule file is, or `fault LINE KIND PLACE`.
pub fn tell_length(alloc: Global, told: &mut Answer, text: &[u8]) {
    match parse_conf(alloc, text) {
        Ok(settings) => {
            told.add_number(settings.rule_file.bytes().len() as u64);
            told.add(b" bytes");
        }
        Err(fault) => add_file_fault(told, fault),
    }
}

fn add_answer(told: &mut Answer, answer: Result<(), LineFault<FaultKind>>) {
    match answer {
        Ok(()) => told.add(b"good\n"),
        Err(LineFault::Bad(fault)) => {
            told.add(b"fault ");
            told.add_number(u64::from(fault.kind.number()));
            told.add(b" ");
            told.add_number(fault.place);
            told.add(b"\n");
        }
        Err(LineFault::Memory) => told.fall_short(),
    }
}

fn add_lines(told: &mut Answer, mut reader: SettingsReader, text: &[u8]) {
    for line in text.split(|byte| *byte == b'\n') {
        add_answer(told, reader.line(line));
    }
    add_unused(told, &reader.finish());
}

/// The answer to each line, and the lines that are unused.
pub fn tell_lines(alloc: Global, told: &mut Answer, text: &[u8]) {
    match SettingsReader::new(alloc) {
        Ok(reader) => add_lines(told, reader, text),
        Err(_) => told.fall_short(),
    }
}
