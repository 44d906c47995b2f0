//! Words of a line, and the numbers and data that words write.
ghost use Rattle.std.specs.Prelude.{◌≡◌, ◌<◌, IfOk, ◌++◌, OnOk, length, IfSome, option_map};
ghost use Rattle.text_digits.specs.Numerals.{pairs_of};
ghost use Rattle.script_commands.specs.Words.{is_ascii, texts, some_word, words_of, decimal_word, hex_word, dot_in};

use std::alloc::{AllocError, Global};
use text_digits::{read_numeral, read_pair};

/// Whether each byte of a line is below 128.
pub fn is_ascii(line: &[u8]) -> bool
    ensures { result ≡ is_ascii line.now }
{
    for byte in line {
        if *byte >= 128 {
            return false;
        }
    }
    true
}

/// Puts a word behind the others, if it has a byte.
fn push_word<'a>(words: &mut Vec<&'a [u8]>, word: &'a [u8]) -> Result<(), AllocError>
    ensures { OnOk result (texts words.new.items ≡ texts words.old.items ++ some_word word.entry.now) }
{
    if !word.is_empty() {
        words.push(word)?;
    }
    Ok(())
}

/// The words of a line, parted by one or more spaces. It fails only if memory is refused.
pub fn split_words(alloc: Global, line: &[u8]) -> Result<Vec<&[u8]>, AllocError>
    ensures { IfOk result (λ words. texts words.items ≡ words_of line.now) }
{
    let mut words = Vec::new(alloc);
    let mut start = 0;
    for (at, byte) in line.iter().enumerate() {
        if *byte == b' ' {
            push_word(&mut words, &line[start..at])?;
            start = at + 1;
        }
    }
    push_word(&mut words, &line[start..])?;
    Ok(words)
}

/// A decimal number.
#[tactic(auto, unfolding(crate::specs::Words::decimal_word))]
pub(crate) fn decimal(word: &[u8]) -> Option<u64>
    ensures { result ≡ decimal_word word.now }
{
    if word.is_empty() {
        return None;
    }
    read_numeral(10, word)
}

/// A hexadecimal number of at most `most` digits.
#[tactic(auto, unfolding(crate::specs::Words::hex_word))]
pub(crate) fn hex(most: usize, word: &[u8]) -> Option<u64>
    ensures { result ≡ hex_word most word.now }
{
    if word.is_empty() || word.len() > most {
        return None;
    }
    read_numeral(16, word)
}

/// Data in pairs of hexadecimal digits.
pub(crate) fn data(alloc: Global, word: &[u8]) -> Result<Option<Vec<u8>>, AllocError>
    ensures { IfOk result (λ found. option_map (λ v. v.items) found ≡ pairs_of word.now) }
{
    let mut bytes = Vec::with_capacity(alloc, word.len() / 2)?;
    let mut rest = word;
    while let Some((first, after)) = rest.split_first() {
        let Some((second, after)) = after.split_first() else {
            return Ok(None);
        };
        let Some(byte) = read_pair(*first, *second) else {
            return Ok(None);
        };
        bytes.push(byte)?;
        rest = after;
    }
    Ok(Some(bytes))
}

/// The place of the first point, from 0.
pub(crate) fn place_of_dot(word: &[u8]) -> Option<usize>
    ensures value { result ≡ dot_in word.now }
    ensures within { IfSome result (λ at. at < length word.now) }
{
    for (at, byte) in word.iter().enumerate() {
        if *byte == b'.' {
            return Some(at);
        }
    }
    None
}
