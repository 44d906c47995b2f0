//! What a segment is asked, one call at a time.
ghost use Rattle.std.specs.Prelude.{◌≡◌, IfOk, false};
ghost use Rattle.segment_law.specs.Calls.{is_send};

use bus_frame::Frame;
use message_events::Bytes;
use pgn_ids::{Address, Pgn};
use port_table::PortId;
use std::alloc::{AllocError, Global};

/// One call on a segment: one atomic step.
#[derive(Debug, Drop)]
pub enum Call {
    /// Opens a port of a station for messages of a PGN, of at most `max_len` bytes.
    Open {
        station: Address,
        pgn: Pgn,
        max_len: u32,
    },
    /// Closes a port. An incoming session that gives to no other port ends, a connection by an abort as far as places of the
    /// queue reach.
    Close {
        port: PortId,
    },
    /// Sends a message of 9 to 1,785 bytes to all, or of 9 to 117,440,505 bytes to one node, of this segment or foreign.
    Send {
        from: Address,
        to: Address,
        pgn: Pgn,
        bytes: Bytes,
    },
    /// Queues the next frames of the lane from a station to a destination: at most eight.
    Pump {
        station: Address,
        to: Address,
    },
    /// Puts the first frame of a station's queue on the bus.
    Transmit {
        station: Address,
    },
    /// A station takes the next frame of the bus. Without `room` the buffer or the port's place that the frame needs isn't
    /// there.
    Take {
        station: Address,
        room: bool,
    },
    /// A station takes again the frame that it took last.
    TakeAgain {
        station: Address,
        room: bool,
    },
    /// A station missed the next `n` frames.
    Overrun {
        station: Address,
        n: u64,
    },
    /// The clock advances by `n` ticks of 1 ms.
    Tick {
        n: u64,
    },
    /// Fires the first timer of a station that is due.
    Fire {
        station: Address,
    },
    /// Cancels a message that has no outcome yet.
    Cancel {
        from: Address,
        to: Address,
        number: u64,
    },
    /// Puts the frame of a foreign node on the bus.
    Inject {
        frame: Frame,
    },
    /// Pauses a port: no connection that gives to it is granted a further packet.
    Pause {
        port: PortId,
    },
    /// Ends the pause of a port.
    Resume {
        port: PortId,
    },
}

impl Call {
    /// A copy of the call. Only the bytes of a Send take memory.
    pub fn copy(&self, alloc: Global) -> Result<Call, AllocError>
        ensures { IfOk result (λ call. call ≡ self.now) }
    {
        match self {
            Call::Send {
                from,
                to,
                pgn,
                bytes,
            } => Ok(Call::Send {
                from: *from,
                to: *to,
                pgn: *pgn,
                bytes: bytes.copy(alloc)?,
            }),
            _ => Ok(self.copy_in_place()),
        }
    }

    // A copy of a call that isn't a Send.
    fn copy_in_place(&self) -> Call
        requires { is_send self.now ≡ false }
        ensures { result ≡ self.now }
    {
        match *self {
            Call::Open {
                station,
                pgn,
                max_len,
            } => Call::Open {
                station,
                pgn,
                max_len,
            },
            Call::Close { port } => Call::Close { port },
            Call::Send { .. } => unreachable!(),
            Call::Pump { station, to } => Call::Pump { station, to },
            Call::Transmit { station } => Call::Transmit { station },
            Call::Take { station, room } => Call::Take { station, room },
            Call::TakeAgain { station, room } => Call::TakeAgain { station, room },
            Call::Overrun { station, n } => Call::Overrun { station, n },
            Call::Tick { n } => Call::Tick { n },
            Call::Fire { station } => Call::Fire { station },
            Call::Cancel { from, to, number } => Call::Cancel { from, to, number },
            Call::Inject { frame } => Call::Inject { frame },
            Call::Pause { port } => Call::Pause { port },
            Call::Resume { port } => Call::Resume { port },
        }
    }
}
