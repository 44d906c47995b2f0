//! The answer to a call, apart from its events.
use port_table::PortId;
use segment_law::Refusal;

/// The answer to a call: a reply without its events.
#[derive(Clone, Copy, Debug, PartialEq, Eq)]
pub enum Made {
    /// The port that was opened.
    Opened(PortId),
    /// The number of the message that was sent, from 1 in its lane.
    Sent(u64),
    /// It was made.
    Done,
    /// It is refused, and nothing has changed.
    Refused(Refusal),
}

/// The answer to a Take that isn't made if its frame completes a message.
#[derive(Clone, Copy, Debug, PartialEq, Eq)]
pub enum Tried {
    /// It was made.
    Done,
    /// Its frame completes a message, and nothing has changed.
    Whole,
    /// It is refused, and nothing has changed.
    Refused(Refusal),
}
