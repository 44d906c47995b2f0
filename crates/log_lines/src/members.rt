//! The members of a JSON object, as a list that one call puts.
ghost use Rattle.std.specs.Prelude.{◌≡◌, ◌++◌, OnOk};
ghost use Rattle.std.specs.Fmt.{decimal};
ghost use Rattle.json.specs.Print.{quoted};
ghost use Rattle.serde_json.specs.Written.{compact_text};
ghost use Rattle.text_digits.specs.Digits.{unspaced};
ghost use Rattle.log_lines.specs.Json.{place_object};
ghost use Rattle.log_lines.specs.Counts.{counts_object};
ghost use Rattle.log_lines.specs.Members.{text_of};

use crate::counts::put_counts;
use crate::explained::put_meaning;
use crate::frames::put_frames;
use crate::parts::{Part, Printed, put_each};
use crate::strings::{put_digits, put_quoted};
use log_courses::{ReasonCount, Row};
use log_fields::Iface;
use log_reports::{Cause, Detail, Line, Marks, Place, cause_words};
use pgn_ids::{Address, Pgn};
use std::alloc::AllocError;
use text_digits::{put_decimal, put_text};

/// A member of the object of a message, of a frame or of a row. Where a text is given, it stands before the value: what opens the object or a
/// comma, the name and a colon.
#[derive(Clone, Copy)]
pub(crate) enum Member<'a> {
    /// A text alone.
    Text(&'a str),
    Number(&'a str, u64),
    /// The bytes, of two hexadecimal digits each.
    Data(&'a str, &'a [u8]),
    /// How many bytes there are.
    Length(&'a [u8]),
    /// The place of a frame in the log.
    Place(&'a str, Place),
    Address(&'a str, Address),
    Pgn(Pgn),
    Interface(Iface),
    Cause(Cause),
    /// What the bytes mean in words, if there are lines.
    Explained(&'a [Line]),
    /// The frames, if they are listed.
    Frames(Detail, &'a Marks),
    /// How many messages weren't given, by the reason.
    Counts(&'a str, &'a [ReasonCount]),
    /// The mean time of a row.
    Mean(&'a Row),
    /// The share of so many frames.
    Share(&'a Row, u64),
}

fn put_number(out: &mut Vec<u8>, start: &str, n: u64) -> Result<(), AllocError>
    ensures { OnOk result (out.new.items ≡ out.old.items ++ (start.now ++ decimal n)) }
{
    put_text(out, start)?;
    put_decimal(out, n)
}

fn put_string(out: &mut Vec<u8>, start: &str, text: &[u8]) -> Result<(), AllocError>
    ensures { OnOk result (out.new.items ≡ out.old.items ++ (start.now ++ quoted text.now)) }
{
    put_text(out, start)?;
    put_quoted(out, text)
}

fn put_data(out: &mut Vec<u8>, start: &str, bytes: &[u8]) -> Result<(), AllocError>
    ensures { OnOk result (out.new.items ≡ out.old.items ++ (start.now ++ quoted (unspaced bytes.now))) }
{
    put_text(out, start)?;
    put_digits(out, bytes)
}

fn put_place(out: &mut Vec<u8>, start: &str, place: Place) -> Result<(), AllocError>
    ensures { OnOk result (out.new.items ≡ out.old.items ++ (start.now ++ compact_text (place_object place))) }
{
    let parts = [
        Part::Text(start),
        Part::Text("{\"number\":"),
        Part::Number(place.number),
        Part::Text(",\"time\":"),
        Part::Number(place.time),
        Part::Text("}"),
    ];
    put_each(out, &parts)
}

fn put_total(out: &mut Vec<u8>, start: &str, counts: &[ReasonCount]) -> Result<(), AllocError>
    ensures { OnOk result (out.new.items ≡ out.old.items ++ (start.now ++ compact_text (counts_object counts.now))) }
{
    put_text(out, start)?;
    put_counts(out, counts)
}

impl<'a> Printed for Member<'a> {
    ghost text = { text_of };

    fn put(&self, out: &mut Vec<u8>) -> Result<(), AllocError> {
        match self {
            Member::Text(text) => put_text(out, *text),
            Member::Number(start, n) => put_number(out, *start, *n),
            Member::Data(start, bytes) => put_data(out, *start, *bytes),
            Member::Length(bytes) => put_number(out, ",\"length\":", (*bytes).len() as u64),
            Member::Place(start, place) => put_place(out, *start, *place),
            Member::Address(start, address) => put_number(out, *start, u64::from(address.0)),
            Member::Pgn(pgn) => put_number(out, ",\"pgn\":", u64::from(pgn.raw())),
            Member::Interface(iface) => put_string(out, ",\"interface\":", iface.name()),
            Member::Cause(cause) => {
                put_string(out, ",\"cause\":", cause_words(*cause).as_bytes())
            }
            Member::Explained(lines) => put_meaning(out, *lines),
            Member::Frames(detail, marks) => put_frames(out, *detail, (*marks).as_slice()),
            Member::Counts(start, counts) => put_total(out, *start, *counts),
            Member::Mean(row) => put_number(out, ",\"mean\":", (*row).mean()),
            Member::Share(row, all) => put_number(out, ",\"share\":", (*row).share(*all)),
        }
    }
}
