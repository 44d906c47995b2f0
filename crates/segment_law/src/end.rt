//! How a list of calls and a drive end.

use crate::refusal::Refusal;

/// How a drive ended.
#[derive(Clone, Copy, Debug, PartialEq, Eq)]
pub enum DriveEnd {
    /// All its turns were made.
    Turns,
    /// The lane had nothing more to queue.
    Idle,
    /// A call of a turn was refused.
    Refused(Refusal),
    /// A call of a turn found no memory, and changed nothing.
    OutOfMemory,
}

/// How a list of calls ended.
#[derive(Clone, Copy, Debug, PartialEq, Eq)]
pub enum RunEnd {
    /// All calls were applied.
    All,
    /// A call found no memory, and changed nothing.
    OutOfMemory,
}
