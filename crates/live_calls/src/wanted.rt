//! What a call gives if there is room.
ghost use Rattle.std.specs.Prelude.{◌≡◌};
ghost use Rattle.live_calls.specs.Words.{wanted_by};

use crate::call::WorkerCall;
use pgn_ids::Address;
use port_table::PortSet;
use watched_segment::Watched;

/// The ports of a station that a call gives to, and how long the message is.
#[derive(Clone, Copy)]
pub struct Wanted {
    pub station: Address,
    pub ports: PortSet,
    pub len: u32,
}

/// What the call gives with room; without one that takes a frame, nothing.
pub(crate) fn wanted_of(segment: &Watched, call: &WorkerCall) -> Wanted
    ensures { result ≡ wanted_by segment.now call.now }
{
    match call {
        WorkerCall::Take { station } => {
            let (ports, len) = segment.wants(*station, false);
            Wanted {
                station: *station,
                ports,
                len,
            }
        }
        WorkerCall::TakeAgain { station } => {
            let (ports, len) = segment.wants(*station, true);
            Wanted {
                station: *station,
                ports,
                len,
            }
        }
        _ => Wanted {
            station: Address::NULL,
            ports: PortSet::empty(),
            len: 0,
        },
    }
}
