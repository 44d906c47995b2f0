//! The calls that threads make.
ghost use Rattle.std.specs.Prelude.{◌≡◌};
ghost use Rattle.live_calls.specs.Words.{call_of};

use bus_frame::Frame;
use pgn_ids::Address;
use port_table::PortId;
use segment_law::Call;

/// A call of a thread. Opens are made before the threads, Sends are made by clients, and the segment itself finds whether
/// there is room.
#[derive(Clone, Copy, Debug)]
pub enum WorkerCall {
    /// Queues the next frames of the lane from a station to a destination.
    Pump {
        station: Address,
        to: Address,
    },
    /// Puts the first frame of a station's queue on the bus.
    Transmit {
        station: Address,
    },
    /// A station takes the next frame of the bus.
    Take {
        station: Address,
    },
    /// A station takes again the frame that it took last.
    TakeAgain {
        station: Address,
    },
    /// A station missed the next `n` frames.
    Overrun {
        station: Address,
        n: u64,
    },
    /// The clock advances by `n` ticks of 1 ms.
    Tick {
        n: u64,
    },
    /// Fires the first timer of a station that is due.
    Fire {
        station: Address,
    },
    /// Cancels a message that has no outcome yet.
    Cancel {
        from: Address,
        to: Address,
        number: u64,
    },
    /// Puts the frame of a foreign node on the bus.
    Inject {
        frame: Frame,
    },
    /// Pauses a port.
    Pause {
        port: PortId,
    },
    /// Ends the pause of a port.
    Resume {
        port: PortId,
    },
}

impl WorkerCall {
    /// The call on the segment, with or without room for what it gives.
    #[inline(always)]
    pub fn with_room(&self, room: bool) -> Call
        ensures { result ≡ call_of self.now room }
    {
        match self {
            WorkerCall::Pump { station, to } => Call::Pump {
                station: *station,
                to: *to,
            },
            WorkerCall::Transmit { station } => Call::Transmit { station: *station },
            WorkerCall::Take { station } => Call::Take {
                station: *station,
                room,
            },
            WorkerCall::TakeAgain { station } => Call::TakeAgain {
                station: *station,
                room,
            },
            WorkerCall::Overrun { station, n } => Call::Overrun {
                station: *station,
                n: *n,
            },
            WorkerCall::Tick { n } => Call::Tick { n: *n },
            WorkerCall::Fire { station } => Call::Fire { station: *station },
            WorkerCall::Cancel { from, to, number } => Call::Cancel {
                from: *from,
                to: *to,
                number: *number,
            },
            WorkerCall::Inject { frame } => Call::Inject { frame: *frame },
            WorkerCall::Pause { port } => Call::Pause { port: *port },
            WorkerCall::Resume { port } => Call::Resume { port: *port },
        }
    }
}
