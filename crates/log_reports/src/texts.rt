//! The lines of an identification.
ghost use Rattle.std.specs.Prelude.{◌≡◌, ◌++◌, IfOk, OnOk};
ghost use Rattle.log_reports.specs.Fields.{fields_of};
ghost use Rattle.log_reports.specs.Texts.{behind_colon, field_line, field_lines, identification, found_text, count_line, software_identification};

use crate::escapes::put_escaped;
use crate::line::{Line, plain_line, wrong_length};
use crate::naming::{Kind, put_name};
use crate::padding::is_filled;
use std::alloc::{AllocError, Global};
use text_digits::{put_decimal, put_text};

/// A colon, and behind it the text, if there is one.
fn put_behind_colon(out: &mut Vec<u8>, text: &[u8]) -> Result<(), AllocError>
    ensures { OnOk result (out.new.items ≡ out.old.items ++ behind_colon text.now) }
{
    if text.is_empty() {
        return put_text(out, ":");
    }
    put_text(out, ": ")?;
    put_escaped(out, text)
}

fn field_line(alloc: Global, kind: Kind, number: u64, field: &[u8]) -> Result<Line, AllocError>
    ensures { IfOk result (λ l. l ≡ field_line kind number field.now) }
{
    let mut text = Vec::new(alloc);
    put_name(&mut text, kind, number)?;
    put_behind_colon(&mut text, field)?;
    Ok(Line::new(text))
}

/// A line for each field of a text, each ended by an asterisk. The text behind the last one is a field too, unless it is padding or empty.
fn field_lines(alloc: Global, kind: Kind, text: &[u8]) -> Result<Vec<Line>, AllocError>
    ensures { IfOk result (λ lines. lines.items ≡ field_lines kind 1 (fields_of text.now)) }
{
    let mut lines = Vec::new(alloc);
    let mut start = 0;
    let mut before = 0;
    for (at, byte) in text.iter().enumerate() {
        if *byte == b'*' {
            lines.push(field_line(alloc, kind, before + 1, &text[start..at])?)?;
            start = at + 1;
            before += 1;
        }
    }
    let last = &text[start..];
    if last.is_empty() || is_filled(last) {
        return Ok(lines);
    }
    lines.push(field_line(alloc, kind, before + 1, last)?)?;
    Ok(lines)
}

/// The lines of an identification of a vehicle, a component or an ECU: one for each of its fields, or one that says that there is none.
/// For software they are those of its fields.
pub fn identification(alloc: Global, kind: Kind, text: &[u8]) -> Result<Vec<Line>, AllocError>
    ensures { IfOk result (λ lines. lines.items ≡ identification kind text.now) }
{
    let mut lines = field_lines(alloc, kind, text)?;
    if lines.is_empty() {
        lines.push(plain_line(alloc, "no text")?)?;
    }
    Ok(lines)
}

/// How many fields there are, if these are others than were announced.
fn put_found(out: &mut Vec<u8>, announced: u64, found: u64) -> Result<(), AllocError>
    ensures { OnOk result (out.new.items ≡ out.old.items ++ found_text announced found) }
{
    if announced == found {
        return Ok(());
    }
    put_text(out, ", but there are ")?;
    put_decimal(out, found)
}

/// How many fields are announced.
fn count_line(alloc: Global, announced: u8, found: u64) -> Result<Line, AllocError>
    ensures { IfOk result (λ l. l ≡ count_line announced found) }
{
    let mut text = Vec::new(alloc);
    put_text(&mut text, "software fields: ")?;
    put_decimal(&mut text, u64::from(announced))?;
    put_found(&mut text, u64::from(announced), found)?;
    Ok(Line::new(text))
}

/// The lines of an identification of software: how many fields its first byte announces, and one for each field.
pub fn software_identification(alloc: Global, bytes: &[u8]) -> Result<Vec<Line>, AllocError>
    ensures { IfOk result (λ lines. lines.items ≡ software_identification bytes.now) }
{
    let Some((announced, text)) = bytes.split_first() else {
        let mut lines = Vec::new(alloc);
        lines.push(wrong_length(alloc, 0)?)?;
        return Ok(lines);
    };
    let mut lines = field_lines(alloc, Kind::Software, text)?;
    lines.insert(0, count_line(alloc, *announced, lines.len() as u64)?)?;
    Ok(lines)
}
