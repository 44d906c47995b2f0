//! Frames of the destination.
ghost use Rattle.std.specs.Prelude.{◌≡◌, ◌<◌, ◌++◌, length, OnSome};
ghost use Rattle.tx_queue.specs.Queue.{queue_limit};
ghost use Rattle.originator.specs.Readers.{link_of};
ghost use Rattle.originator.specs.Cts.{led};
ghost use Rattle.lane_core.specs.Hear.{heard as heard_lane, connection_heard, abort_heard};

use crate::lane::Lane;
use crate::step::Ended;
use originator::{Ending, OutState};
use pgn_ids::WirePgn;
use tp_wire::{CmFrame, Kind, Wire};
use tx_queue::TxQueue;

// An abort of this transport and PGN.
fn hear_abort(state: &OutState, kind: Kind, reason: u8, pgn: WirePgn) -> Option<Ending>
    ensures { abort_heard state.now kind reason pgn ≡ led result state.now }
{
    if state.is_of(kind, pgn) {
        return Some(Ending::Aborted(reason));
    }
    None
}

/// A connection takes an abort, or else what the sender's own step takes. If the frame ends the message, nothing changes.
#[inline]
pub(crate) fn hear_frame(state: &mut OutState, wire: &Wire<'_>, now: u64) -> Option<Ending>
    ensures step { connection_heard state.old wire.now now ≡ led result state.new }
    ensures link { link_of state.new ≡ link_of state.old }
    ensures kept { OnSome result (state.new ≡ state.old) }
{
    match wire {
        Wire::Cm(CmFrame::Abort { reason, pgn }) => hear_abort(state, Kind::Tp, *reason, *pgn),
        Wire::Cm(CmFrame::EtpAbort { reason, pgn }) => {
            hear_abort(state, Kind::Etp, *reason, *pgn)
        }
        _ => state.take(wire, now),
    }
}

impl Lane {
    /// Takes a frame of the destination at tick `now`: a CTS, an end of message acknowledgement or an abort of the connection
    /// under way. It returns the message that ends, and queues an abort behind the frames of a queue if the sender aborts it.
    /// Every other frame changes nothing.
    #[inline]
    #[tactic(auto, using(crate::proofs::Keeping::carries_on, crate::proofs::Keeping::calm_on))]
    pub fn hear(&mut self, wire: &Wire<'_>, now: u64, queue: &mut TxQueue) -> Option<Ended>
        requires { length queue.old < queue_limit }
        ensures lane { self.new ≡ (heard_lane self.old wire.now now).0 }
        ensures queued { queue.new ≡ queue.old ++ (heard_lane self.old wire.now now).1.frames }
        ensures ended { result ≡ (heard_lane self.old wire.now now).1.ended }
    {
        match self.place.hear(wire, now) {
            None => None,
            Some(ending) => self.end_connection(ending, queue),
        }
    }
}
