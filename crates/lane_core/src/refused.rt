//! Why a lane refuses a call.

use message_events::Bytes;
use thiserror::Error;

/// Why a message was not taken, with its bytes.
#[derive(Debug, Drop)]
pub enum PushRefused {
    /// The lane has 32 messages without an outcome, or no further number.
    LaneFull(Bytes),
    /// There is no memory for one more.
    OutOfMemory(Bytes),
}

/// Why a lane has nothing to queue now.
#[derive(Clone, Copy, Debug, PartialEq, Eq, Error)]
pub enum PumpRefused {
    /// No message is pending, or it awaits a frame of its destination.
    #[error("the lane has nothing to queue")]
    NothingToSend,
    /// It waits only for the 50 ticks between the frames of a broadcast message.
    #[error("the lane waits for the ticks between two frames of a broadcast message")]
    NotYet,
}
