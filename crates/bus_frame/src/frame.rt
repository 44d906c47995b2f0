//! Data frames (ISO 11898-1, extended format).
ghost use Rattle.std.specs.Prelude.{◌≡◌, ℕ, ◌<◌, ◌≤◌, ◌^◌, length, MatchResult, take, slice_index};
ghost use Rattle.bus_frame.specs.Frames.{CanFrame};

use crate::can_id::CanId;
use std::marker::Model;
use thiserror::Error;

/// How many data bytes a frame has at most.
const MAX_DATA: usize = 8;

/// More than 8 data bytes.
#[derive(Clone, Copy, Debug, PartialEq, Eq, Error)]
#[error("a frame has at most 8 data bytes")]
pub struct DataTooLong;

/// A frame: an identifier and 0 to 8 data bytes.
#[derive(Clone, Copy, Debug, PartialEq, Eq)]
pub struct Frame {
    id: CanId,
    kept: [u8; 8],
    len: u8,
}

impl Model for Frame {
    ghost use Rattle.bus_frame.specs.Frames.{CanFrame};

    ghost Value = { CanFrame };

    ghost use Rattle.bus_frame.specs.FrameFields.{frame_value, IsPadded, frame_fields, frame_fields_back};

    ghost view = { frame_value };

    ghost invariant = { IsPadded };

    ghost inverse = { frame_fields };

    ghost inverse_ok = { frame_fields_back };
}

impl Frame {
    /// The frame with this identifier and these bytes. Refused exactly if there are more than 8.
    pub fn new(id: CanId, bytes: &[u8]) -> Result<Frame, DataTooLong>
        ensures { MatchResult result (λ f. (f ≡ record { id = id; bytes = bytes.now }) × (length bytes.now ≤ 8)) (λ _. 8 < length bytes.now) }
    {
        if bytes.len() > MAX_DATA {
            return Err(DataTooLong);
        }
        let mut kept = [0; 8];
        kept[..bytes.len()].copy_from_slice(bytes);
        Ok(Frame {
            id,
            len: bytes.len() as u8,
            kept,
        })
    }

    /// The frame of eight bytes.
    pub fn full(id: CanId, bytes: [u8; 8]) -> Frame
        ensures { result ≡ record { id = id; bytes = bytes } }
    {
        Frame {
            id,
            len: 8,
            kept: bytes,
        }
    }

    /// Its identifier.
    pub fn id(&self) -> CanId
        ensures value { result ≡ self.now.id }
        ensures in_range { result < 2 ^ 29 }
    {
        let _raw = self.id.raw();
        self.id
    }

    /// Its data bytes.
    pub fn bytes(&self) -> &[u8]
        ensures value { result.now ≡ self.now.bytes }
        ensures short { length result.now ≤ 8 }
        ensures in_range { (i : ℕ) → slice_index result.now i < 256 }
    {
        front(&self.kept, usize::from(self.len))
    }
}

// A slice of its own, so that its bytes are known to be below 256.
fn front(bytes: &[u8], len: usize) -> &[u8]
    requires { len ≤ length bytes.now }
    ensures value { result.now ≡ take len bytes.now }
    ensures in_range { (i : ℕ) → slice_index result.now i < 256 }
{
    &bytes[..len]
}
