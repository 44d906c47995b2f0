//! How a drain ends.

use segment_core::Refusal;

/// How a drain ended.
#[derive(Clone, Copy, Debug, PartialEq, Eq)]
pub enum DrainEnd {
    /// Nothing is left to be done.
    Rest,
    /// A timer only asked a sender to wait again: its session is on hold.
    Held,
    /// All its turns were made, and more is to be done.
    Turns,
    /// The last place of the bus is used, or a call was refused.
    Refused(Refusal),
    /// A call found no memory, and changed nothing.
    OutOfMemory,
}
