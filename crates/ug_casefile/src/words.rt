// Words, numbers and bytes of lines.
use hex::FromHexError;
use std::alloc::Global;
use ug_types::NoMemory;

/// What stands before the first space, and what stands behind it.
pub fn split_word(text: &[u8]) -> (&[u8], &[u8]) {
    match text.iter().position(|byte| *byte == b' ') {
        Some(at) => (&text[..at], text.get(at + 1..).unwrap_or(&[])),
        None => (text, &[]),
    }
}

/// A decimal number below 2^64. No digits are 0.
pub fn number_of(digits: &[u8]) -> Option<u64> {
    let mut number: u64 = 0;
    for digit in digits {
        if !digit.is_ascii_digit() {
            return None;
        }
        number = number
            .checked_mul(10)?
            .checked_add(u64::from(*digit - b'0'))?;
    }
    Some(number)
}

/// The bytes of an even number of hexadecimal digits.
pub fn bytes_of_hex(alloc: Global, digits: &[u8]) -> Result<Option<Vec<u8>>, NoMemory> {
    match hex::decode(alloc, digits) {
        Ok(bytes) => Ok(Some(bytes)),
        Err(FromHexError::OutOfMemory) => Err(NoMemory),
        Err(_) => Ok(None),
    }
}
