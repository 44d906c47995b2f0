//! Whether a timer only asked a sender to wait again.
ghost use Rattle.std.specs.Prelude.{◌≡◌};
ghost use Rattle.segment_law.specs.Readers.{front_at};
ghost use Rattle.segment_drain.specs.Chosen.{grants_none, is_hold};

use pgn_ids::Address;
use segment_core::Segment;
use tp_wire::constants::{ETP_CTS, TP_CTS};

/// Whether the first frame of a station's queue is a CTS that grants no packet.
pub(crate) fn asks_to_wait(segment: &Segment, station: Address) -> bool
    ensures { result ≡ is_hold (front_at segment.now station) }
{
    match segment.front(station) {
        Some(frame) => grants_none(frame.bytes()),
        None => false,
    }
}

// Whether these are the bytes of such a frame.
fn grants_none(bytes: &[u8]) -> bool
    ensures { result ≡ grants_none bytes.now }
{
    match bytes {
        [control, granted, _, _, _, _, _, _] => {
            (*control == TP_CTS || *control == ETP_CTS) && *granted == 0
        }
        _ => false,
    }
}
