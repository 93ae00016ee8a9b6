// The kinds of cases.
use crate::{
    commands, control, disks, each_byte, each_call, entries, inputs, machines, names, policies,
    principals, records, rules, settings, single_lines, tokens, zones,
};
use std::alloc::Global;
use ug_casefile::{Answer, Case};

/// What the program answers to a case. Each group of kinds hands on what it doesn't have.
pub fn tell(alloc: Global, told: &mut Answer, case: &Case) {
    tell_of_rules(alloc, told, str::from_utf8(&case.kind).unwrap_or(""), case);
}

fn tell_of_rules(alloc: Global, told: &mut Answer, kind: &str, case: &Case) {
    match kind {
        "tokens" => tokens::tell(alloc, told, case.line_given()),
        "token-counts" => tokens::count(alloc, told, case.line_given()),
        "each-byte" => tokens::tell_each_byte(alloc, told, case),
        "rule" => rules::tell(alloc, told, case.line_given()),
        "rule-bytes" => rules::answer_every_byte(alloc, told, case.line_given()),
        "query" => rules::tell_query(alloc, told, case.line_given()),
        "rule-file" => rules::tell_file(alloc, told, &case.input),
        "saved-rules" => rules::tell_saved(alloc, told, &case.input),
        _ => tell_of_lists(alloc, told, kind, case),
    }
}

fn tell_of_lists(alloc: Global, told: &mut Answer, kind: &str, case: &Case) {
    match kind {
        "policy" => policies::tell(alloc, told, case.line_given()),
        "local-second" => zones::tell(told, case.line_given()),
        "start" => disks::tell(alloc, told, &case.input),
        "kept-rules" => disks::tell_kept(alloc, told, &case.input),
        "saves" => disks::tell_saves(alloc, told, case.line_given()),
        _ => tell_of_settings(alloc, told, kind, case),
    }
}

fn tell_of_settings(alloc: Global, told: &mut Answer, kind: &str, case: &Case) {
    match kind {
        "settings" => settings::tell(alloc, told, &case.input),
        "default-settings" => settings::tell_defaults(alloc, told),
        "setting-lines" => settings::tell_lines(alloc, told, &case.input),
        "rule-file-length" => settings::tell_length(alloc, told, &case.input),
        "principal" => principals::tell(told, case.line_given()),
        _ => tell_of_records(alloc, told, kind, case),
    }
}

fn tell_of_records(alloc: Global, told: &mut Answer, kind: &str, case: &Case) {
    match kind {
        "node-name" => names::tell(told, case.line_given()),
        "sweep-order" => names::tell_order(alloc, told, case.line_given()),
        "interfaces" => records::tell_interfaces(alloc, told, case.line_given()),
        "file-text" => records::tell_file_text(alloc, told, &case.input),
        "device-line" => records::tell_device_line(alloc, told, case),
        "generated-rule" => records::tell_generated_rule(alloc, told, case),
        "match" => records::tell_match(alloc, told, case),
        _ => tell_of_input(alloc, told, kind, case),
    }
}

fn tell_of_input(alloc: Global, told: &mut Answer, kind: &str, case: &Case) {
    match kind {
        "journal-line" => entries::tell(alloc, told, case.line_given()),
        "input" => inputs::tell(alloc, told, case),
        "machine" => machines::tell(alloc, told, case),
        "machine-length" => machines::tell_length(alloc, told, case),
        _ => tell_of_control(alloc, told, kind, case),
    }
}

fn tell_of_control(alloc: Global, told: &mut Answer, kind: &str, case: &Case) {
    match kind {
        "request" => control::tell_line(alloc, told, case.line_given()),
        "request-fronts" => control::tell_fronts(alloc, told, case.line_given(), false),
        "reply" => control::tell_text(alloc, told, &case.input),
        "reply-fronts" => control::tell_fronts(alloc, told, &case.input, true),
        "frame" => control::tell_stream(alloc, told, case),
        _ => tell_of_scripts(alloc, told, kind, case),
    }
}

fn tell_of_scripts(alloc: Global, told: &mut Answer, kind: &str, case: &Case) {
    match kind {
        "replay" => commands::tell_replay(alloc, told, case),
        "replay-counts" => commands::count_replay(alloc, told, case),
        "script-line" => commands::tell_line(alloc, told, b"", &case.input),
        "script-line-behind-event" => {
            commands::tell_line(alloc, told, b"sweep 250000000000\n", &case.input)
        }
        "single-lines" => single_lines::tell(alloc, told, case, false),
        "single-policy-lines" => single_lines::tell(alloc, told, case, true),
        "each-call" => each_call::tell(alloc, told, case),
        "each-two-calls" => each_call::tell_pairs(alloc, told, case),
        _ => tell_of_commands(alloc, told, kind, case),
    }
}

fn tell_of_commands(alloc: Global, told: &mut Answer, kind: &str, case: &Case) {
    match kind {
        "check-rules" => commands::tell_tool(alloc, told, kind, case),
        "generate-policy" => commands::tell_tool(alloc, told, kind, case),
        "lint-rules" => commands::tell_tool(alloc, told, kind, case),
        "read-descriptor" => commands::tell_tool(alloc, told, kind, case),
        "read-descriptor-counts" => commands::count_tool(alloc, told, "read-descriptor", case),
        "tool" => commands::tell_tool(alloc, told, "", case),
        "ask" => commands::tell_ask(alloc, told, case),
        "ask-each-byte" => each_byte::tell(alloc, told, case),
        _ => told.add(b"no such kind"),
    }
}
