//! A set of addresses, with a bit for each.
ghost use Rattle.std.specs.Prelude.{◌≡◌, ◌≢◌, ◌+◌, ◌<◌, ◌==◌, ℕ, None, IsTrue};
ghost use Rattle.std.specs.Int.{bit_at};
ghost use Rattle.address_set.specs.Sets.{no_address, has, IsNext, IsLowest};

use std::marker::Model;

/// How many words hold a set.
const WORDS: usize = 4;

/// How many addresses each word holds.
const WIDTH: usize = 64;

/// A set of addresses, each of 0 to 255.
#[derive(Clone, Copy, Debug, PartialEq, Eq)]
pub struct AddressSet {
    words: [u64; WORDS],
}

impl Model for AddressSet {
    ghost use Rattle.address_set.specs.Sets.{AddressSet};
    ghost use Rattle.std.specs.Prelude.{◌≡◌, length};

    ghost Value = { AddressSet };

    ghost view = { λ s. record { words = s.words } };

    ghost invariant = { λ s. length s.words ≡ 4 };

    ghost inverse = { λ s. record { words = s.words } };
}

impl AddressSet {
    /// The set without an address.
    pub const fn new() -> AddressSet
        ensures { result ≡ no_address }
    {
        AddressSet { words: [0; WORDS] }
    }

    /// Whether an address is in the set.
    #[inline]
    pub fn has(&self, address: u8) -> bool
        ensures { result ≡ has self.now address }
    {
        let at = usize::from(address);
        is_set(self.words[at / WIDTH], at % WIDTH)
    }

    /// Puts an address in, or takes it out.
    #[inline]
    pub fn set(&mut self, address: u8, is_in: bool)
        ensures this { has self.new address ≡ is_in }
        ensures others { (other : ℕ) → other < 256 → other ≢ address → has self.new other ≡ has self.old other }
    {
        let at = usize::from(address);
        self.words[at / WIDTH] = with_bit(self.words[at / WIDTH], at % WIDTH, is_in);
    }

    // Whether no address is in the set.
    #[inline]
    fn is_empty(&self) -> bool
        ensures { IsTrue result → (from : ℕ) → IsNext self.now from None }
    {
        self.words[0] == 0 && self.words[1] == 0 && self.words[2] == 0 && self.words[3] == 0
    }

    /// The lowest address of the set from one on, 0 to 256, if there is one.
    #[inline]
    pub fn next(&self, from: usize) -> Option<u8>
        ensures { IsNext self.now from result }
    {
        // As a rule a set that is asked is empty.
        if self.is_empty() {
            return None;
        }
        for place in from / WIDTH..WORDS {
            let word = self.words[place];
            if word == 0 {
                continue;
            }
            let first = from.saturating_sub(WIDTH * place);
            if let Some(at) = lowest(word, first) {
                return Some((WIDTH * place + at) as u8);
            }
        }
        None
    }
}

// Whether a bit of a word is set.
#[inline]
fn is_set(word: u64, at: usize) -> bool
    requires { at < 64 }
    ensures { result ≡ (bit_at word at == 1) }
{
    (word >> at) & 1 == 1
}

// A word with this bit set or not.
#[inline]
fn with_bit(word: u64, at: usize, is_in: bool) -> u64
    requires { at < 64 }
    ensures this { (bit_at result at == 1) ≡ is_in }
    ensures others { (i : ℕ) → i < 64 → i ≢ at → bit_at result i ≡ bit_at word i }
{
    let mask = 1u64 << at;
    if is_in { word | mask } else { word & !mask }
}

// The lowest bit of a word that is set, from one on.
#[inline]
fn lowest(word: u64, from: usize) -> Option<usize>
    requires { from < 64 }
    ensures { IsLowest word from result }
{
    let rest = word >> from;
    if rest == 0 {
        return None;
    }
    Some(from + rest.trailing_zeros() as usize)
}
