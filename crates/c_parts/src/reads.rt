//! The meaning of numbers from C.
ghost use Rattle.std.specs.Prelude.{◌≡◌};
ghost use Rattle.c_parts.specs.Reads.{read_pgn, read_frame};

use bus_frame::{CanId, Frame};
use pgn_ids::Pgn;
use segment_law::Refusal;

/// The PGN of this number.
///
/// Refused as `BadPgn` if it has more than 18 bits, or is PDU1 with a low byte other than 0.
pub fn read_pgn(raw: u32) -> Result<Pgn, Refusal>
    ensures { result ≡ read_pgn raw }
{
    match Pgn::new(raw) {
        Ok(pgn) => Ok(pgn),
        Err(_) => Err(Refusal::BadPgn),
    }
}

/// The frame of this identifier with these bytes.
///
/// Refused as `IdTooLarge` if the identifier has more than 29 bits, and else as `DataTooLong` if there are more than 8 bytes.
pub fn read_frame(id: u32, bytes: &[u8]) -> Result<Frame, Refusal>
    ensures { result ≡ read_frame id bytes.now }
{
    let Ok(id) = CanId::new(id) else {
        return Err(Refusal::IdTooLarge);
    };
    // Most frames have eight bytes, which are copied without a call.
    if let Some(whole) = bytes.as_array::<8>() {
        return Ok(Frame::full(id, *whole));
    }
    match Frame::new(id, bytes) {
        Ok(frame) => Ok(frame),
        Err(_) => Err(Refusal::DataTooLong),
    }
}
