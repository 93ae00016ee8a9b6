// The lines that make an input.
use crate::answer::Answer;
use crate::words::{bytes_of_hex, number_of, split_word};
use std::alloc::Global;
use ug_types::NoMemory;

/// A pattern with numbers for each `%` and each `&`.
pub fn add_pattern(text: &mut Answer, pattern: &[u8], first: u64, second: u64) {
    for byte in pattern {
        match *byte {
            b'%' => text.add_number(first),
            b'&' => text.add_number(second),
            other => text.add(&[other]),
        }
    }
}

// Two numbers, and what stands behind them.
fn range(text: &[u8]) -> Option<(u64, u64, &[u8])> {
    let (first, rest) = split_word(text);
    let (last, rest) = split_word(rest);
    Some((number_of(first)?, number_of(last)?, rest))
}

// `HEX`, so many times.
fn add_copies(
    alloc: Global,
    input: &mut Answer,
    count: u64,
    digits: &[u8],
) -> Result<bool, NoMemory> {
    let Some(bytes) = bytes_of_hex(alloc, digits)? else {
        return Ok(false);
    };
    for _ in 0..count {
        input.add(&bytes);
    }
    Ok(true)
}

// `FIRST LAST PATTERN`
fn add_lines(input: &mut Answer, text: &[u8]) -> bool {
    let Some((first, last, pattern)) = range(text) else {
        return false;
    };
    for number in first..=last {
        add_pattern(input, pattern, number, number);
        input.add(b"\n");
    }
    true
}

// `FIRST LAST FIRST LAST PATTERN`
fn add_pairs(input: &mut Answer, text: &[u8]) -> bool {
    let Some((first, last, rest)) = range(text) else {
        return false;
    };
    let Some((begin, end, pattern)) = range(rest) else {
        return false;
    };
    for number in first..=last {
        for second in begin..=end {
            add_pattern(input, pattern, number, second);
            input.add(b"\n");
        }
    }
    true
}

/// What a line with that mark adds to an input, and whether it's in the format.
pub fn add_input(
    alloc: Global,
    input: &mut Answer,
    mark: u8,
    text: &[u8],
) -> Result<bool, NoMemory> {
    match mark {
        b'<' | b'+' => {
            input.add(text);
            if mark == b'<' {
                input.add(b"\n");
            }
            Ok(true)
        }
        b'x' => add_copies(alloc, input, 1, text),
        b'*' => {
            let (count, digits) = split_word(text);
            match number_of(count) {
                Some(count) => add_copies(alloc, input, count, digits),
                None => Ok(false),
            }
        }
        b'%' => Ok(add_lines(input, text)),
        b'&' => Ok(add_pairs(input, text)),
        _ => Ok(false),
    }
}
