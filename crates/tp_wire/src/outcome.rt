//! How a message ends for its sender.

/// How a message ended for its sender.
#[derive(Clone, Copy, Debug, PartialEq, Eq)]
pub enum Outcome {
    /// The destination acknowledged the whole message.
    Acknowledged,
    /// Its last packet was queued, to all.
    Broadcast,
    /// An abort was taken or sent, with this reason.
    Aborted(u8),
    /// The destination didn't answer in time.
    TimedOut,
    /// The sender's station missed frames.
    Overrun,
    /// It was cancelled.
    Cancelled,
    /// The destination answered no Request, so that the message was never begun.
    Unreachable,
}
