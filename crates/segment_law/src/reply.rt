//! The answer to a call.

use crate::refusal::Refusal;
use port_table::PortId;
use station_core::Events;

/// The answer to a call.
#[derive(Debug, Drop)]
pub enum Reply {
    /// The port was opened under this name.
    Opened(PortId),
    /// The message was taken under this number, from 1 in its lane.
    Sent(u64),
    /// The call was refused, and changed nothing.
    Refused(Refusal),
    /// The call was done, with these events.
    Done(Events),
}
