//! Words, numbers and bytes, written.
ghost use Rattle.std.specs.Prelude.{◌≡◌, ◌<◌, ◌≤◌, ◌+◌, ◌++◌, vec_len, vec_capacity, OnOk};
ghost use Rattle.std.specs.Fmt.{decimal};
ghost use Rattle.text_digits.specs.Digits.{digit_char, digits, unspaced};

use itoa::Buffer;
use std::alloc::AllocError;

/// Puts a text behind what `out` holds.
pub fn put_text(out: &mut Vec<u8>, text: &str) -> Result<(), AllocError>
    ensures { OnOk result (out.new.items ≡ out.old.items ++ text.now) }
{
    out.extend_from_slice(text.as_bytes())
}

/// Puts a number in decimal digits, as few as it has, behind what `out` holds.
pub fn put_decimal(out: &mut Vec<u8>, n: u64) -> Result<(), AllocError>
    ensures { OnOk result (out.new.items ≡ out.old.items ++ decimal n) }
{
    out.extend_from_slice(Buffer::new().format(n).as_bytes())
}

fn digit_char(n: u8) -> u8
    requires { n < 16 }
    ensures { result ≡ digit_char n }
{
    if n < 10 { b'0' + n } else { b'A' + (n - 10) }
}

/// Puts a number in so many digits of a base, the last ones if it has more, behind what `out` holds. The base is 2 to
/// 16.
pub fn put_digits(out: &mut Vec<u8>, base: u64, width: u8, n: u64) -> Result<(), AllocError>
    requires least { 2 ≤ base }
    requires most { base ≤ 16 }
    ensures { OnOk result (out.new.items ≡ out.old.items ++ digits base width n) }
{
    if width == 0 {
        return Ok(());
    }
    put_digits(out, base, width - 1, n / base)?;
    out.push(digit_char((n % base) as u8))?;
    Ok(())
}

/// Puts a byte in two hexadecimal digits behind what `out` holds. Most of a text are bytes, so that it doesn't divide as `put_digits` does.
#[inline]
pub fn put_byte(out: &mut Vec<u8>, byte: u8) -> Result<(), AllocError>
    ensures { OnOk result (out.new.items ≡ out.old.items ++ digits 16 2 byte) }
{
    out.push(digit_char(byte / 16 % 16))?;
    out.push(digit_char(byte % 16))?;
    Ok(())
}

/// Puts a byte in two hexadecimal digits if there is room for them.
#[inline]
fn put_byte_reserved(out: &mut Vec<u8>, byte: u8)
    requires { vec_len out.old + 2 ≤ vec_capacity out.old }
    ensures items { out.new.items ≡ out.old.items ++ digits 16 2 byte }
    ensures len { vec_len out.new ≡ vec_len out.old + 2 }
    ensures capacity { vec_capacity out.new ≡ vec_capacity out.old }
{
    out.push_reserved(digit_char(byte / 16 % 16));
    out.push_reserved(digit_char(byte % 16));
}

/// Puts bytes, each in two hexadecimal digits with nothing between them, behind what `out` holds. Room for all is made at once.
pub fn put_bytes(out: &mut Vec<u8>, bytes: &[u8]) -> Result<(), AllocError>
    ensures { OnOk result (out.new.items ≡ out.old.items ++ unspaced bytes.now) }
{
    out.reserve(2 * bytes.len())?;
    for byte in bytes {
        put_byte_reserved(out, *byte);
    }
    Ok(())
}
