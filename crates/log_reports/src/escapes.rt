//! The text of a message, as it is shown.
ghost use Rattle.std.specs.Prelude.{◌≡◌, ◌++◌, OnOk};
ghost use Rattle.log_reports.specs.Lines.{is_plain, shown_byte, escaped};

use std::alloc::AllocError;
use text_digits::{put_byte, put_text};

/// Whether a byte is shown as it is: it is printable ASCII, and no backslash.
fn is_plain(byte: u8) -> bool
    ensures { result ≡ is_plain byte }
{
    byte >= b' ' && byte < 127 && byte != b'\\'
}

fn put_shown(out: &mut Vec<u8>, byte: u8) -> Result<(), AllocError>
    ensures { OnOk result (out.new.items ≡ out.old.items ++ shown_byte byte) }
{
    if is_plain(byte) {
        out.push(byte)?;
        return Ok(());
    }
    put_text(out, "\\x")?;
    put_byte(out, byte)
}

/// Puts a text behind what `out` holds. A backslash, and each byte that isn't printable ASCII, is put as `\x` and two
/// hexadecimal digits.
pub(crate) fn put_escaped(out: &mut Vec<u8>, text: &[u8]) -> Result<(), AllocError>
    ensures { OnOk result (out.new.items ≡ out.old.items ++ escaped text.now) }
{
    for byte in text {
        put_shown(out, *byte)?;
    }
    Ok(())
}
