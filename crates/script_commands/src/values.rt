//! What the words of a command mean: addresses, numbers, ports and data. A word that isn't what its place asks for is a bad one.
ghost use Rattle.std.specs.Prelude.{◌≡◌, ◌≤◌, ◌<◌, ◌+◌, ◌-◌, ◌^◌, IfOk};
ghost use Rattle.std.specs.Str.{bytes_eq};
ghost use Rattle.tp_wire.specs.declared.constants.TheConstants.{ETP_MAX_SIZE};
ghost use Rattle.script_commands.specs.Words.{texts};
ghost use Rattle.script_commands.specs.Values.{Gives, address_of, addresses_of, bounded_word, number_of, pgn_of, id_of, data_of, port_of, room_of, payload_of, filling};

use crate::addresses::Addresses;
use crate::words::{data, decimal, hex, place_of_dot};
use line_faults::{Fault, LineError};
use message_events::Bytes;
use pgn_ids::Address;
use port_table::PortId;
use std::alloc::{AllocError, Global};
use tp_wire::constants::ETP_MAX_SIZE;

const BAD_WORD: LineError = LineError::Fault(Fault::BadWord);

/// A command has fewer or more words than its form.
pub const WRONG_NUMBER: LineError = LineError::Fault(Fault::WrongNumberOfWords);

/// The most bytes that `fill` makes: one more than a message may have.
const MOST_FILLED: u64 = ETP_MAX_SIZE as u64 + 1;

/// Whether a word is this name.
pub fn is(word: &[u8], name: &str) -> bool
    ensures { result ≡ bytes_eq word.now name.now }
{
    word == name.as_bytes()
}

/// A decimal number up to a bound. Any other word is a bad one.
#[tactic(auto, unfolding(crate::specs::Values::bounded_word))]
pub fn bounded(most: u64, word: &[u8]) -> Result<u64, LineError>
    ensures value { Gives (λ n. n) result (number_of most word.now) }
    ensures within { IfOk result (λ n. n ≤ most) }
{
    match decimal(word) {
        Some(number) if number <= most => Ok(number),
        _ => Err(BAD_WORD),
    }
}

/// A decimal number below 2^64. Any other word is a bad one.
pub fn number(word: &[u8]) -> Result<u64, LineError>
    ensures { Gives (λ n. n) result (number_of (2 ^ 64 - 1) word.now) }
{
    bounded(u64::MAX, word)
}

/// An address, of at most two hexadecimal digits. Any other word is a bad one.
pub fn address(word: &[u8]) -> Result<Address, LineError>
    ensures { Gives (λ a. a) result (address_of word.now) }
{
    match hex(2, word) {
        Some(number) if number <= 0xFF => Ok(Address(number as u8)),
        _ => Err(BAD_WORD),
    }
}

/// The number of a PGN, of at most five hexadecimal digits: whether it is one that a message can have is not asked. Any other word is a bad
/// one.
pub fn pgn(word: &[u8]) -> Result<u32, LineError>
    ensures { Gives (λ n. n) result (pgn_of word.now) }
{
    match hex(5, word) {
        Some(number) if number <= 0xF_FFFF => Ok(number as u32),
        _ => Err(BAD_WORD),
    }
}

/// The number of an identifier, of at most eight digits.
pub(crate) fn id(word: &[u8]) -> Result<u32, LineError>
    ensures { Gives (λ n. n) result (id_of word.now) }
{
    match hex(8, word) {
        Some(number) if number <= 0xFFFF_FFFF => Ok(number as u32),
        _ => Err(BAD_WORD),
    }
}

/// A port: the address of its station, a point, its number there.
#[tactic(auto, unfolding(crate::specs::Values::port_of))]
pub(crate) fn port(word: &[u8]) -> Result<PortId, LineError>
    ensures { Gives (λ p. p) result (port_of word.now) }
{
    let Some(dot) = place_of_dot(word) else {
        return Err(BAD_WORD);
    };
    let station = address(&word[..dot])?;
    let number = number(&word[dot + 1..])?;
    Ok(PortId { station, number })
}

/// Whether there is room: no further word, or the word `noroom`.
pub(crate) fn room(words: &[&[u8]]) -> Result<bool, LineError>
    ensures { Gives (λ r. r) result (room_of (texts words.now)) }
{
    match words {
        [] => Ok(true),
        [word] if is(*word, "noroom") => Ok(false),
        [_] => Err(BAD_WORD),
        _ => Err(WRONG_NUMBER),
    }
}

/// Each word as an address.
pub(crate) fn addresses(alloc: Global, words: &[&[u8]]) -> Result<Addresses, LineError>
    ensures { Gives (λ a. a) result (addresses_of (texts words.now)) }
{
    let mut found = Addresses::none(alloc);
    for word in words {
        found.push(address(*word)?)?;
    }
    Ok(found)
}

/// `len` bytes, byte i being i modulo 256, from 1.
fn fill(alloc: Global, len: u64) -> Result<Bytes, AllocError>
    requires { len ≤ ETP_MAX_SIZE + 1 }
    ensures { IfOk result (λ bytes. bytes ≡ filling len) }
{
    let mut bytes = Vec::with_capacity(alloc, len as usize)?;
    for place in 0..len {
        bytes.push_reserved(((place + 1) % 256) as u8);
    }
    Ok(Bytes::new(bytes))
}

/// Data in pairs of hexadecimal digits.
pub(crate) fn data_word(alloc: Global, word: &[u8]) -> Result<Bytes, LineError>
    ensures { Gives (λ b. b) result (data_of word.now) }
{
    match data(alloc, word)? {
        Some(bytes) => Ok(Bytes::new(bytes)),
        None => Err(BAD_WORD),
    }
}

/// The bytes of a message: data in pairs of hexadecimal digits, or `fill` and how many, up to one more than a message may have. With no
/// word or more than two the number is wrong, and any other words are bad. Otherwise it fails only if memory is refused.
#[tactic(auto, unfolding(crate::specs::Values::payload_of))]
pub fn payload(alloc: Global, words: &[&[u8]]) -> Result<Bytes, LineError>
    ensures { Gives (λ b. b) result (payload_of (texts words.now)) }
{
    match words {
        [word] => data_word(alloc, *word),
        [word, len] if is(*word, "fill") => {
            let len = bounded(MOST_FILLED, *len)?;
            Ok(fill(alloc, len)?)
        }
        [_, _] => Err(BAD_WORD),
        _ => Err(WRONG_NUMBER),
    }
}
