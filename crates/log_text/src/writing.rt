//! Lines of a log, written.
ghost use Rattle.std.specs.Prelude.{◌≡◌, ◌∷◌, ◌++◌, OnOk};
ghost use Rattle.text_digits.specs.Digits.{unspaced};
ghost use Rattle.log_text.specs.Written.{frame_text, log_text};

use bus_frame::Frame;
use log_fields::{Iface, put_time};
use std::alloc::AllocError;
use text_digits::{put_bytes, put_digits};

/// Puts a frame's data behind their mark.
fn put_data(out: &mut Vec<u8>, bytes: &[u8]) -> Result<(), AllocError>
    ensures { OnOk result (out.new.items ≡ out.old.items ++ 35 ∷ unspaced bytes.now) }
{
    out.push(b'#')?;
    put_bytes(out, bytes)
}

#[tactic(auto, unfolding(crate::specs::Written::frame_text))]
fn put_frame(out: &mut Vec<u8>, frame: &Frame) -> Result<(), AllocError>
    ensures { OnOk result (out.new.items ≡ out.old.items ++ frame_text frame.now) }
{
    put_digits(out, 16, 8, u64::from(frame.id().raw()))?;
    put_data(out, frame.bytes())
}

/// Puts the line of a frame that was seen at so many microseconds on an interface behind what `out` holds, without its line feed. It fails
/// only if memory is refused.
#[tactic(auto, unfolding(crate::specs::Written::log_text))]
pub fn put_log_line(
    out: &mut Vec<u8>,
    time: u64,
    iface: &Iface,
    frame: &Frame,
) -> Result<(), AllocError>
    ensures { OnOk result (out.new.items ≡ out.old.items ++ log_text time iface.now frame.now) }
{
    put_time(out, time)?;
    out.push(b' ')?;
    out.extend_from_slice(iface.name())?;
    out.push(b' ')?;
    put_frame(out, frame)
}
