// Rules and queries as they are read and printed.
use std::alloc::Global;
use ug_casefile::Answer;
use ug_print::{RulesTextFault, print_rule, rules_text};
use ug_rule::{RuleFault, count_rules, parse_file, parse_query, parse_rule};
use ug_types::{FileFault, Query, Rule, Target};

fn add_fault(told: &mut Answer, fault: RuleFault) {
    match fault {
        RuleFault::Bad { kind, place } => {
            told.add(b"fault ");
            told.add_number(u64::from(kind));
            told.add(b" ");
            told.add_number(place);
        }
        RuleFault::Memory => told.fall_short(),
    }
}

// Adds what stands behind so many bytes of a text that is read as that rule, if the rule prints so.
fn add_same(alloc: Global, told: &mut Answer, text: &[u8], rule: &Rule, behind: usize) {
    match print_rule(alloc, rule) {
        Ok(again) if again.bytes() == text => told.add(text.get(behind..).unwrap_or(&[])),
        Ok(_) => add_not_read(told, text),
        Err(_) => told.fall_short(),
    }
}

fn add_not_read(told: &mut Answer, text: &[u8]) {
    told.add(b"not read again: ");
    told.add_escaped(text);
}

// The same where the text is read at all.
fn add_read(alloc: Global, told: &mut Answer, text: &[u8], behind: usize) {
    match parse_rule(alloc, text) {
        Ok(rule) => add_same(alloc, told, text, &rule, behind),
        Err(_) => add_not_read(told, text),
    }
}

fn add_printed(alloc: Global, told: &mut Answer, rule: &Rule, behind: usize) {
    match print_rule(alloc, rule) {
        Ok(text) => add_read(alloc, told, text.bytes(), behind),
        Err(_) => told.fall_short(),
    }
}

/// The rule of a line as it is printed, or `fault KIND PLACE`.
pub fn tell(alloc: Global, told: &mut Answer, line: &[u8]) {
    match parse_rule(alloc, line) {
        Ok(rule) => add_printed(alloc, told, &rule, 0),
        Err(fault) => add_fault(told, fault),
    }
}

fn add_query(alloc: Global, told: &mut Answer, query: Query) {
    let rule = Rule {
        target: Target::Allow,
        query,
        conds: None,
    };
    add_printed(alloc, told, &rule, 6);
}

/// The attributes of a query as they are printed in a rule, or `fault KIND PLACE`.
pub fn tell_query(alloc: Global, told: &mut Answer, line: &[u8]) {
    match parse_query(alloc, line) {
        Ok(query) => add_query(alloc, told, query),
        Err(fault) => add_fault(told, fault),
    }
}

/// `fault LINE KIND PLACE`
pub fn add_file_fault(told: &mut Answer, fault: FileFault) {
    match fault {
        FileFault::Bad(fault) => {
            told.add(b"fault ");
            told.add_number(fault.line);
            told.add(b" ");
            told.add_number(u64::from(fault.kind));
            told.add(b" ");
            told.add_number(fault.place);
        }
        FileFault::Memory => told.fall_short(),
    }
}

/// How many rules a text has, or `fault LINE KIND PLACE`.
pub fn tell_file(alloc: Global, told: &mut Answer, text: &[u8]) {
    match count_rules(alloc, text) {
        Ok(count) => {
            told.add_number(count);
            told.add(b" rules");
        }
        Err(fault) => add_file_fault(told, fault),
    }
}

fn add_rules(alloc: Global, told: &mut Answer, rules: &[Rule]) {
    match rules_text(alloc, rules) {
        Ok(text) => told.add(text.bytes()),
        Err(RulesTextFault::TooLong) => told.add(b"too long"),
        Err(RulesTextFault::Memory) => told.fall_short(),
    }
}

/// The rules of a text as a rule file has them, or `fault LINE KIND PLACE`.
pub fn tell_saved(alloc: Global, told: &mut Answer, text: &[u8]) {
    match parse_file(alloc, text) {
        Ok(rules) => add_rules(alloc, told, &rules),
        Err(fault) => add_file_fault(told, fault),
    }
}

fn put_byte(line: &mut [u8], place: usize, byte: u8) {
    if let Some(at) = line.get_mut(place) {
        *at = byte;
    }
}

// A line for which memory was short has no answer.
fn is_answered(alloc: Global, line: &[u8]) -> bool {
    !matches!(parse_rule(alloc, line), Err(RuleFault::Memory))
}

// How many lines with another byte at that place got an answer.
fn answer_each_byte(alloc: Global, line: &mut [u8], place: usize) -> u64 {
    let mut count: u64 = 0;
    for byte in 0..=255u8 {
        put_byte(line, place, byte);
        if is_answered(alloc, line) {
            count = count.saturating_add(1);
        }
    }
    count
}

// The same of a copy of the line.
fn answer_copies(alloc: Global, line: &[u8], place: usize) -> u64 {
    match Vec::from_slice(alloc, line) {
        Ok(mut copy) => answer_each_byte(alloc, &mut copy, place),
        Err(_) => 0,
    }
}

/// How many lines with one other byte got an answer.
pub fn answer_every_byte(alloc: Global, told: &mut Answer, line: &[u8]) {
    let mut count: u64 = 0;
    for place in 0..line.len() {
        count = count.saturating_add(answer_copies(alloc, line, place));
    }
    told.add_number(count);
    told.add(b" lines answered");
}
