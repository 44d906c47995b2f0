//! A fault list.
ghost use Rattle.std.specs.Prelude.{◌≡◌, [], ◌∷◌, ◌++◌, IfOk, OnOk};
ghost use Rattle.log_reports.specs.List.{padding_line, padding_lines, faults_lines, flash_lines, lines_from, is_length, fault_list};

use crate::faults::fault_line;
use crate::lamps::{flash_line, lamps_line};
use crate::line::{Line, wrong_length};
use crate::padding::is_filled;
use std::alloc::{AllocError, Global};
use text_digits::{put_bytes, put_text};

fn padding_line(alloc: Global, bytes: &[u8]) -> Result<Line, AllocError>
    ensures { IfOk result (λ l. l ≡ padding_line bytes.now) }
{
    let mut text = Vec::new(alloc);
    put_text(&mut text, "padding isn't FF: bytes ")?;
    put_bytes(&mut text, bytes)?;
    Ok(Line::new(text))
}

/// Bytes behind the last fault.
fn push_padding(alloc: Global, lines: &mut Vec<Line>, bytes: &[u8]) -> Result<(), AllocError>
    ensures { OnOk result (lines.new.items ≡ lines.old.items ++ padding_lines bytes.now) }
{
    if !is_filled(bytes) {
        lines.push(padding_line(alloc, bytes)?)?;
    }
    Ok(())
}

/// The faults, four bytes each.
fn push_faults(alloc: Global, lines: &mut Vec<Line>, list: &[u8]) -> Result<(), AllocError>
    ensures { OnOk result (lines.new.items ≡ lines.old.items ++ faults_lines list.now) }
{
    let mut rest = list;
    while let Some((first, after)) = rest.split_first() {
        let Some((second, after)) = after.split_first() else {
            return push_padding(alloc, lines, rest);
        };
        let Some((third, after)) = after.split_first() else {
            return push_padding(alloc, lines, rest);
        };
        let Some((fourth, after)) = after.split_first() else {
            return push_padding(alloc, lines, rest);
        };
        lines.push(fault_line(alloc, *first, *second, *third, *fourth)?)?;
        rest = after;
    }
    Ok(())
}

/// How the lamps flash.
fn push_flash(alloc: Global, lines: &mut Vec<Line>, flash: u8) -> Result<(), AllocError>
    ensures { OnOk result (lines.new.items ≡ lines.old.items ++ flash_lines flash) }
{
    if flash != 255 {
        lines.push(flash_line(alloc, flash)?)?;
    }
    Ok(())
}

/// The lines of the lamps and of the faults behind them.
fn push_lines(alloc: Global, lines: &mut Vec<Line>, bytes: &[u8]) -> Result<(), AllocError>
    ensures { OnOk result (lines.new.items ≡ lines.old.items ++ lines_from bytes.now) }
{
    let Some((lamps, after)) = bytes.split_first() else {
        return Ok(());
    };
    let Some((flash, list)) = after.split_first() else {
        return Ok(());
    };
    lines.push(lamps_line(alloc, *lamps)?)?;
    push_flash(alloc, lines, *flash)?;
    push_faults(alloc, lines, list)
}

/// Whether a fault list can have so many bytes.
fn is_length(n: usize) -> bool
    ensures { result ≡ is_length n }
{
    n == 8 || (n >= 6 && n % 4 == 2)
}

/// The lines of a message of DM1 or DM2: one for the lamps, one for how they flash unless that byte is FF, and one for each fault. A message
/// whose length is neither 8 bytes nor two bytes and four for each of its faults has the line that says so alone.
pub fn fault_list(alloc: Global, bytes: &[u8]) -> Result<Vec<Line>, AllocError>
    ensures { IfOk result (λ lines. lines.items ≡ fault_list bytes.now) }
{
    let mut lines = Vec::new(alloc);
    if is_length(bytes.len()) {
        push_lines(alloc, &mut lines, bytes)?;
        return Ok(lines);
    }
    lines.push(wrong_length(alloc, bytes.len())?)?;
    Ok(lines)
}
