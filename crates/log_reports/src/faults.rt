//! A fault of the list.
ghost use Rattle.std.specs.Prelude.{◌≡◌, [], ◌∷◌, ◌++◌, IfOk, OnOk};
ghost use Rattle.log_reports.specs.Faults.{spn_of, are_all, is_none, count_text, mode_text, version_4_line, older_line, fault_line};

use crate::line::{Line, plain_line};
use std::alloc::{AllocError, Global};
use text_digits::{put_bytes, put_decimal, put_text};

/// The highest number of a count, which says that it isn't known.
const NOT_AVAILABLE: u8 = 127;

fn spn_of(a: u8, b: u8, c: u8) -> u64
    ensures { result ≡ spn_of a b c }
{
    u64::from(a) + 256 * u64::from(b) + 65536 * u64::from(c / 32)
}

fn are_all(byte: u8, a: u8, b: u8, c: u8, d: u8) -> bool
    ensures { result ≡ are_all byte a b c d }
{
    a == byte && b == byte && c == byte && d == byte
}

fn is_none(a: u8, b: u8, c: u8, d: u8) -> bool
    ensures { result ≡ is_none a b c d }
{
    are_all(0, a, b, c, d) || are_all(255, a, b, c, d)
}

fn put_count(out: &mut Vec<u8>, count: u8) -> Result<(), AllocError>
    ensures { OnOk result (out.new.items ≡ out.old.items ++ count_text count) }
{
    if count == NOT_AVAILABLE {
        return put_text(out, "not available");
    }
    put_decimal(out, u64::from(count))
}

/// How it failed, and how often.
fn put_mode(out: &mut Vec<u8>, c: u8, d: u8) -> Result<(), AllocError>
    ensures { OnOk result (out.new.items ≡ out.old.items ++ mode_text c d) }
{
    put_text(out, " FMI ")?;
    put_decimal(out, u64::from(c % 32))?;
    put_text(out, " count ")?;
    put_count(out, d % 128)
}

fn version_4_line(alloc: Global, a: u8, b: u8, c: u8, d: u8) -> Result<Line, AllocError>
    ensures { IfOk result (λ l. l ≡ version_4_line a b c d) }
{
    let mut text = Vec::new(alloc);
    put_text(&mut text, "fault: SPN ")?;
    put_decimal(&mut text, spn_of(a, b, c))?;
    put_mode(&mut text, c, d)?;
    Ok(Line::new(text))
}

fn older_line(alloc: Global, a: u8, b: u8, c: u8, d: u8) -> Result<Line, AllocError>
    ensures { IfOk result (λ l. l ≡ older_line a b c d) }
{
    let mut text = Vec::new(alloc);
    put_text(&mut text, "fault: SPN by an older conversion method,")?;
    put_mode(&mut text, c, d)?;
    put_text(&mut text, " bytes ")?;
    put_bytes(&mut text, &[a, b, c, d])?;
    Ok(Line::new(text))
}

/// The line of a fault, by its four bytes.
pub(crate) fn fault_line(alloc: Global, a: u8, b: u8, c: u8, d: u8) -> Result<Line, AllocError>
    ensures { IfOk result (λ l. l ≡ fault_line a b c d) }
{
    if is_none(a, b, c, d) {
        return plain_line(alloc, "no fault");
    }
    if d < 128 {
        version_4_line(alloc, a, b, c, d)
    } else {
        older_line(alloc, a, b, c, d)
    }
}
