//! Why a call of a station isn't done.
ghost use Rattle.std.specs.Prelude.{◌≡◌};
ghost use Rattle.station_core.specs.Refusals.{by_lane as by_lane_of, by_ports as by_ports_of};
ghost use Rattle.station_core.specs.declared.refused.Stopped.TheVariants.{OutOfMemory};

use lane_core::PumpRefused;
use message_events::Bytes;
use std::alloc::AllocError;
use thiserror::Error;

/// Why a station refuses a call, which then changes nothing.
#[derive(Clone, Copy, Debug, PartialEq, Eq, Error)]
pub enum Refused {
    /// The destination is the null address, 254, which is no node's.
    #[error("the null address is no node's")]
    NoSuchStation,
    /// The destination is the station itself.
    #[error("the destination is the station itself")]
    SameStation,
    /// The message has fewer than 9 bytes.
    #[error("a message has 9 bytes or more")]
    TooShort,
    /// The message has more than 1,785 bytes to all, or more than 117,440,505 to one node.
    #[error("a message has up to 1785 bytes to all, and up to 117440505 to one node")]
    TooLong,
    /// The lane has 32 messages without an outcome, or no further number.
    #[error("32 messages to the destination have no outcome, or no number is left")]
    LaneFull,
    /// 16 ports are open, or the last number of `u64` was used.
    #[error("16 ports are open, or no number is left")]
    PortsFull,
    /// No open port has this number: it was never opened, or it is closed.
    #[error("no open port has this number")]
    NoSuchPort,
    /// The port is paused already.
    #[error("the port is paused")]
    PortPaused,
    /// The port isn't paused.
    #[error("the port is not paused")]
    PortNotPaused,
    /// No message is pending, it awaits a frame of its destination, or no such message is without an outcome.
    #[error("nothing is to be sent, or no such message is without an outcome")]
    NothingToSend,
    /// The lane waits only for the 50 ticks between the frames of a broadcast message.
    #[error("the next frame of the broadcast message comes too soon")]
    NotYet,
    /// No timer is due.
    #[error("no timer is due")]
    NothingDue,
    /// The queue has too few free places.
    #[error("too few places of the queue are free")]
    TxFull,
}

/// Why a call of a station that takes memory isn't done, which then changes nothing.
#[derive(Clone, Copy, Debug, PartialEq, Eq, Error)]
pub enum Stopped {
    /// It is refused.
    #[error("{0}")]
    Refused(Refused),
    /// There is no memory.
    #[error("out of memory")]
    OutOfMemory,
}

/// A message that isn't sent.
#[derive(Debug, Drop, Error)]
#[error("{cause}")]
pub struct SendingRefused {
    /// Why.
    pub cause: Stopped,
    /// Its bytes.
    pub bytes: Bytes,
}

impl From<AllocError> for Stopped {
    ghost from_gives = { λ _ stopped. stopped ≡ OutOfMemory };

    fn from(_: AllocError) -> Stopped {
        Stopped::OutOfMemory
    }
}

// The cause of a lane as one of the station's.
pub(crate) fn by_lane(cause: PumpRefused) -> Refused
    ensures { result ≡ by_lane_of cause }
{
    match cause {
        PumpRefused::NothingToSend => Refused::NothingToSend,
        PumpRefused::NotYet => Refused::NotYet,
    }
}

// The cause of the ports as one of the station's.
pub(crate) fn by_ports(cause: port_table::Refused) -> Refused
    ensures { result ≡ by_ports_of cause }
{
    match cause {
        port_table::Refused::PortsFull => Refused::PortsFull,
        port_table::Refused::NoSuchPort => Refused::NoSuchPort,
        port_table::Refused::PortPaused => Refused::PortPaused,
        port_table::Refused::PortNotPaused => Refused::PortNotPaused,
    }
}
