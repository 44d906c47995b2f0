//! Numbers and addresses that words write. None if a word writes none, or one that is too large.
use log_fields::{MICROS, SECOND, cut_at};
use pgn_ids::Address;
use text_digits::read_numeral;

/// The highest number of 18 bits.
pub(crate) const PGN_MOST: u32 = 0x3_FFFF;

/// The highest address, which as a destination is all.
pub(crate) const ADDRESS_MOST: u8 = Address::GLOBAL.0;

/// The highest address of a node.
pub(crate) const NODE_MOST: u8 = Address::NULL.0 - 1;

/// The number that hexadecimal digits write, if it is at most `most`.
pub(crate) fn hexadecimal(digits: &[u8], most: u32) -> Option<u32> {
    if digits.is_empty() {
        return None;
    }
    let number = read_numeral(16, digits)?;
    if number > u64::from(most) {
        return None;
    }
    Some(number as u32)
}

/// The address that hexadecimal digits write, if it is at most `most`.
pub(crate) fn address(digits: &[u8], most: u8) -> Option<u8> {
    let number = hexadecimal(digits, u32::from(most))?;
    if number > u32::from(most) {
        return None;
    }
    Some(number as u8)
}

/// The number that decimal digits write.
fn decimal(digits: &[u8]) -> Option<u64> {
    if digits.is_empty() {
        return None;
    }
    read_numeral(10, digits)
}

/// Ten to the power of the number of digits of microseconds that are missing behind a fraction.
fn missing(digits: usize) -> Option<u64> {
    match digits {
        1 => Some(100_000),
        2 => Some(10_000),
        3 => Some(1_000),
        4 => Some(100),
        5 => Some(10),
        MICROS => Some(1),
        _ => None,
    }
}

fn micros(seconds: &[u8], fraction: &[u8]) -> Option<u64> {
    let micros = decimal(fraction)?.checked_mul(missing(fraction.len())?)?;
    decimal(seconds)?.checked_mul(SECOND)?.checked_add(micros)
}

/// How many microseconds a word of seconds writes.
pub(crate) fn time(word: &[u8]) -> Option<u64> {
    match cut_at(b'.', word) {
        Some((seconds, fraction)) => micros(seconds, fraction),
        None => micros(word, b"0"),
    }
}

/// The two addresses that a word writes.
pub(crate) fn pair(word: &[u8]) -> Option<(u8, u8)> {
    let (first, second) = cut_at(b'-', word)?;
    Some((
        address(first, ADDRESS_MOST)?,
        address(second, ADDRESS_MOST)?,
    ))
}
