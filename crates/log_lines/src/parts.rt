//! Texts that are put one behind the other, and the parts of a line.
ghost use Rattle.std.specs.Prelude.{◌≡◌, ◌++◌, List, ℕ, flat_map, replicate, OnOk};
ghost use Rattle.log_lines.specs.Parts.{column, part_text};

use crate::strings::put_quoted;
use itoa::Buffer;
use log_fields::put_time;
use pgn_ids::{Address, Pgn};
use std::alloc::AllocError;
use text_digits::{put_bytes, put_decimal, put_digits, put_text};

/// What has a text.
pub(crate) trait Printed {
    ghost text: { Self → List ℕ };

    /// Puts its text.
    fn put(&self, out: &mut Vec<u8>) -> Result<(), AllocError>
        ensures { OnOk result (out.new.items ≡ out.old.items ++ text self.now) };
}

/// Puts the texts, one behind the other.
pub(crate) fn put_each<T: Printed>(out: &mut Vec<u8>, items: &[T]) -> Result<(), AllocError>
    ensures { OnOk result (out.new.items ≡ out.old.items ++ flat_map T.text items.now) }
{
    for item in items {
        item.put(out)?;
    }
    Ok(())
}

/// A part of a line.
#[derive(Clone, Copy)]
pub(crate) enum Part<'a> {
    Text(&'a str),
    /// A text, as its bytes.
    Bytes(&'a [u8]),
    /// A number in decimal digits.
    Number(u64),
    /// A time in microseconds.
    Time(u64),
    Address(Address),
    Pgn(Pgn),
    /// Bytes in hexadecimal digits.
    Hex(&'a [u8]),
    /// A number at the right side of a column of so many characters, behind a blank.
    Column(usize, u64),
    /// A text as JSON quotes it.
    Quoted(&'a str),
}

pub(crate) fn put_blanks(out: &mut Vec<u8>, n: usize) -> Result<(), AllocError>
    ensures { OnOk result (out.new.items ≡ out.old.items ++ replicate n 32) }
{
    for _at in 0..n {
        out.push(b' ')?;
    }
    Ok(())
}

/// A text behind a blank and, if it is shorter than its column, as many blanks as it is shorter.
#[tactic(auto, unfolding(crate::specs::Parts::column))]
fn put_column(out: &mut Vec<u8>, width: usize, text: &[u8]) -> Result<(), AllocError>
    ensures { OnOk result (out.new.items ≡ out.old.items ++ column width text.now) }
{
    put_text(out, " ")?;
    put_blanks(out, width.saturating_sub(text.len()))?;
    out.extend_from_slice(text)
}

impl<'a> Printed for Part<'a> {
    ghost text = { part_text };

    #[tactic(auto, unfolding(crate::specs::Parts::address_text, crate::specs::Parts::pgn_text))]
    fn put(&self, out: &mut Vec<u8>) -> Result<(), AllocError> {
        match self {
            Part::Text(text) => put_text(out, *text),
            Part::Bytes(bytes) => out.extend_from_slice(*bytes),
            Part::Number(n) => put_decimal(out, *n),
            Part::Time(now) => put_time(out, *now),
            Part::Address(address) => put_digits(out, 16, 2, u64::from(address.0)),
            Part::Pgn(pgn) => put_digits(out, 16, 5, u64::from(pgn.raw())),
            Part::Hex(bytes) => put_bytes(out, *bytes),
            Part::Column(width, n) => put_column(out, *width, Buffer::new().format(*n).as_bytes()),
            Part::Quoted(text) => put_quoted(out, (*text).as_bytes()),
        }
    }
}
