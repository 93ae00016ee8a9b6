// Tokens of lines.
use std::alloc::Global;
use ug_casefile::{Answer, Case};
use ug_types::NoMemory;
use ug_words::{LexFault, Token, TokenKind, tokens};

fn letter(token: &Token) -> u8 {
    match &token.kind {
        TokenKind::Word => b'w',
        TokenKind::Str(_) => b's',
        TokenKind::Open => b'{',
        TokenKind::Close => b'}',
        TokenKind::ParenOpen => b'(',
        TokenKind::ParenClose => b')',
        TokenKind::Bang => b'!',
    }
}

// `LETTER START END`, and the text of a string that has one
fn add_token(told: &mut Answer, token: &Token) {
    told.add(&[letter(token)]);
    told.add(b" ");
    told.add_number(token.start as u64);
    told.add(b" ");
    told.add_number(token.end as u64);
    if let TokenKind::Str(text) = &token.kind
        && !text.bytes().is_empty()
    {
        told.add(b" ");
        told.add_escaped(text.bytes());
    }
}

// None where memory was short.
fn fault_words(fault: LexFault) -> Option<(&'static str, u64)> {
    match fault {
        LexFault::BadEscape(place) => Some(("bad escape", place)),
        LexFault::OpenString(place) => Some(("open string", place)),
        LexFault::BadByte(place) => Some(("bad byte", place)),
        LexFault::Memory => None,
    }
}

fn add_fault(told: &mut Answer, fault: LexFault) {
    match fault_words(fault) {
        Some((words, place)) => {
            told.add(words.as_bytes());
            told.add(b" ");
            told.add_number(place);
        }
        None => told.fall_short(),
    }
}

fn add_tokens(told: &mut Answer, list: &[Token]) {
    for token in list {
        if !told.is_empty() {
            told.add(b", ");
        }
        add_token(told, token);
    }
    if told.is_empty() {
        told.add(b"none");
    }
}

/// Each token, with commas between.
pub fn tell(alloc: Global, told: &mut Answer, line: &[u8]) {
    match tokens(alloc, line) {
        Ok(list) => add_tokens(told, list.as_slice()),
        Err(fault) => add_fault(told, fault),
    }
}

fn bytes_of(token: &Token) -> usize {
    match &token.kind {
        TokenKind::Str(text) => text.bytes().len(),
        _ => 0,
    }
}

fn add_counts(told: &mut Answer, list: &[Token]) {
    let mut bytes: usize = 0;
    for token in list {
        bytes = bytes.saturating_add(bytes_of(token));
    }
    told.add_number(list.len() as u64);
    told.add(b" tokens, ");
    told.add_number(bytes as u64);
    told.add(b" bytes of text");
}

/// How many tokens there are, and how many bytes their strings spell.
pub fn count(alloc: Global, told: &mut Answer, line: &[u8]) {
    match tokens(alloc, line) {
        Ok(list) => add_counts(told, list.as_slice()),
        Err(fault) => add_fault(told, fault),
    }
}

fn add_fault_mark(told: &mut Answer, fault: LexFault) {
    let Some((words, place)) = fault_words(fault) else {
        told.fall_short();
        return;
    };
    let mark = match words {
        "bad escape" => b'e',
        "open string" => b'o',
        _ => b'b',
    };
    told.add(&[mark, b'0'.saturating_add(place.min(9) as u8)]);
}

// The letter of the one token, and `=` where it's a string of that byte alone; `..` for none.
fn mark_of_tokens(list: &[Token], byte: u8) -> [u8; 2] {
    match list {
        [] => *b"..",
        [token] => match &token.kind {
            TokenKind::Str(text) if text.bytes() == [byte].as_slice() => *b"s=",
            _ => [letter(token), b'1'],
        },
        _ => *b"++",
    }
}

fn add_mark(alloc: Global, told: &mut Answer, line: &[u8], byte: u8) {
    match tokens(alloc, line) {
        Ok(list) => told.add(&mark_of_tokens(list.as_slice(), byte)),
        Err(fault) => add_fault_mark(told, fault),
    }
}

// The byte between the two texts.
fn line_with(alloc: Global, case: &Case, byte: u8) -> Result<Vec<u8>, NoMemory> {
    let mut line = Answer::new(alloc);
    line.add(case.setting(b"before").unwrap_or(&[]));
    line.add(&[byte]);
    line.add(case.setting(b"behind").unwrap_or(&[]));
    line.finish()
}

fn add_row(alloc: Global, told: &mut Answer, case: &Case, first: u8) {
    for place in 0..16u8 {
        let byte = first | place;
        if place != 0 {
            told.add(b" ");
        }
        match line_with(alloc, case, byte) {
            Ok(line) => add_mark(alloc, told, &line, byte),
            Err(_) => told.fall_short(),
        }
    }
}

/// Sixteen rows of marks for what each byte gives between two texts.
pub fn tell_each_byte(alloc: Global, told: &mut Answer, case: &Case) {
    for row in 0..16u8 {
        if row != 0 {
            told.add(b"\n");
        }
        add_row(alloc, told, case, row * 16);
    }
}
