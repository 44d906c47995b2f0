//! Data that digits write.
ghost use Rattle.std.specs.Prelude.{◌≡◌};
ghost use Rattle.log_text.specs.Digits.{data_of};

use bus_frame::{CanId, Frame};
use text_digits::read_pair;

/// The most digits of a frame's data.
const MOST_DIGITS: usize = 16;

/// The frame with this identifier whose data pairs of hexadecimal digits write. None if they aren't pairs of digits, or more than
/// eight.
pub(crate) fn frame(id: CanId, digits: &[u8]) -> Option<Frame>
    ensures { result ≡ data_of id digits.now }
{
    if digits.len() > MOST_DIGITS {
        return None;
    }
    let mut kept = [0; 8];
    let mut len = 0;
    let mut rest = digits;
    while let Some((first, after)) = rest.split_first() {
        let (second, after) = after.split_first()?;
        kept[len] = read_pair(*first, *second)?;
        len += 1;
        rest = after;
    }
    Frame::new(id, &kept[..len]).ok()
}
