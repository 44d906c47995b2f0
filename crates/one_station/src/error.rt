//! Why a call isn't done.

use segment_law::Refusal;
use thiserror::Error;

/// Why a call on a node isn't done. It changed nothing then, except that `feed` and `sent` may have ended what `missed` left to
/// end. It can be made again.
#[derive(Clone, Copy, Debug, PartialEq, Eq, Error)]
pub enum NodeError {
    /// The call is refused for this cause.
    #[error("the call is refused")]
    Refused(Refusal),
    /// The clock is past the tick.
    #[error("the clock stands at a later tick")]
    ClockPassed,
    /// The program started again: no message is sent before this tick.
    #[error("no message is sent before tick {0}, since the program started again")]
    Starting(u64),
    /// Memory was refused.
    #[error("out of memory")]
    OutOfMemory,
}

/// The result of feeding a frame of another node.
#[derive(Clone, Copy, Debug, PartialEq, Eq)]
pub enum Fed {
    /// The node has looked at it.
    Taken,
    /// The node has looked at it without room for what it brings, since it found no memory: a message that it begins or completes
    /// isn't taken, and a connection ends by an abort.
    WithoutRoom,
    /// The node hasn't looked at it, and nothing changed: what was under way when frames were missed has yet to end, and found no
    /// memory for that. The frame counts as missed too, and isn't fed again.
    PassedBy,
}

/// The result of reporting missed frames.
#[derive(Clone, Copy, Debug, PartialEq, Eq)]
pub enum Missed {
    /// What was under way has ended.
    Ended,
    /// There was no memory for that. The node remembers it, and tries again at each `feed` and `sent`.
    Waits,
}
