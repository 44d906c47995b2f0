//! Texts, as JSON quotes them.
ghost use Rattle.std.specs.Prelude.{◌≡◌, ◌<◌, ◌++◌, OnOk};
ghost use Rattle.std.specs.Char.{digit_char};
ghost use Rattle.json.specs.Print.{escape_letter, escape_byte, escape, quoted};
ghost use Rattle.text_digits.specs.Digits.{unspaced};

use std::alloc::AllocError;
use text_digits::{put_bytes, put_text};

/// The letter of a byte's short escape, 0 if it has none.
fn escape_letter(byte: u8) -> u8
    ensures { result ≡ escape_letter byte }
{
    match byte {
        b'"' => b'"',
        b'\\' => b'\\',
        8 => b'b',
        12 => b'f',
        b'\n' => b'n',
        b'\r' => b'r',
        b'\t' => b't',
        _ => 0,
    }
}

fn digit_char(n: u8) -> u8
    requires { n < 16 }
    ensures { result ≡ digit_char n }
{
    if n < 10 { b'0' + n } else { b'a' + (n - 10) }
}

/// A byte, as it is written in a quoted text.
#[tactic(auto, unfolding(json::specs::Print::escape_byte))]
fn put_escaped(out: &mut Vec<u8>, byte: u8) -> Result<(), AllocError>
    ensures { OnOk result (out.new.items ≡ out.old.items ++ escape_byte byte) }
{
    let letter = escape_letter(byte);
    if letter > 0 {
        out.push(b'\\')?;
        out.push(letter)?;
        return Ok(());
    }
    if byte < b' ' {
        put_text(out, "\\u00")?;
        out.push(digit_char(byte / 16))?;
        out.push(digit_char(byte % 16))?;
        return Ok(());
    }
    out.push(byte)?;
    Ok(())
}

fn put_each(out: &mut Vec<u8>, text: &[u8]) -> Result<(), AllocError>
    ensures { OnOk result (out.new.items ≡ out.old.items ++ escape text.now) }
{
    for byte in text {
        put_escaped(out, *byte)?;
    }
    Ok(())
}

/// A text, quoted.
pub(crate) fn put_quoted(out: &mut Vec<u8>, text: &[u8]) -> Result<(), AllocError>
    ensures { OnOk result (out.new.items ≡ out.old.items ++ quoted text.now) }
{
    out.push(b'"')?;
    put_each(out, text)?;
    out.push(b'"')?;
    Ok(())
}

/// Bytes in hexadecimal digits, quoted: none of them is escaped.
pub(crate) fn put_digits(out: &mut Vec<u8>, bytes: &[u8]) -> Result<(), AllocError>
    ensures { OnOk result (out.new.items ≡ out.old.items ++ quoted (unspaced bytes.now)) }
{
    out.push(b'"')?;
    put_bytes(out, bytes)?;
    out.push(b'"')?;
    Ok(())
}
