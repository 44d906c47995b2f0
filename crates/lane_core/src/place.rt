//! What is under way in a lane.
ghost use Rattle.std.specs.Prelude.{◌≡◌, ◌+◌, ◌<◌, ◌≤◌, ◌++◌, length, true};
ghost use Rattle.tx_queue.specs.Queue.{queue_limit};
ghost use Rattle.originator.specs.Pump.{most_frames};
ghost use Rattle.bam_session.specs.Sending as bam;
ghost use Rattle.lane_core.specs.Lane.{Lane};
ghost use Rattle.lane_core.specs.LaneFields.{is_under_way};
ghost use Rattle.lane_core.specs.Pump.{front_bytes, after_packet, pumped};
ghost use Rattle.lane_core.specs.Hear.{heard as heard_lane};
ghost use Rattle.lane_core.specs.Place.{IsOfLength, KeepsMessage, packet_of, frames_pumped, after_pump, after_frame};
ghost use Rattle.lane_core.specs.declared.place.UnderWay.TheVariants.{Broadcast};

use crate::hear::hear_frame;
use bam_session::BamOut;
use originator::{Ending, OutState};
use std::marker::Model;
use tp_wire::Wire;
use tx_queue::TxQueue;

/// How the front message of a lane is under way. It must be spent.
pub enum UnderWay {
    /// Nothing is under way.
    Nothing,
    /// A message is being broadcast.
    Broadcast(BamOut),
    /// A connection is open.
    Connection(OutState),
}

/// Where a lane keeps what is under way. Dropping it ends what is under way without a frame or an outcome.
pub(crate) struct Place {
    content: UnderWay,
}

impl Model for Place {
    ghost use Rattle.lane_core.specs.declared.place.UnderWay.{UnderWay};

    ghost Value = { UnderWay };

    ghost view = { λ p. p.content };
}

impl Drop for Place {
    fn drop(self) {
        match self.into_content() {
            UnderWay::Nothing => {}
            UnderWay::Broadcast(state) => state.cancel(),
            UnderWay::Connection(state) => {
                let _over = state.overrun();
            }
        }
    }
}

impl Place {
    pub(crate) fn new(content: UnderWay) -> Place
        ensures { result ≡ content }
    {
        Place { content }
    }

    pub(crate) fn into_content(self) -> UnderWay
        ensures { result ≡ self }
    {
        let Place { content } = self;
        content
    }

    pub(crate) fn content(&self) -> &UnderWay
        ensures { result.now ≡ self.now }
    {
        &self.content
    }

    /// Queues the next frames of what is under way behind those of a queue at tick `now`: a part of a connection's window, or a
    /// packet of a broadcast that is due. `bytes` are those of the message. Returns whether the message ends with it, as a
    /// broadcast does with its last packet.
    #[inline(always)]
    pub(crate) fn pump(&mut self, bytes: &[u8], now: u64, queue: &mut TxQueue) -> bool
        requires under_way { is_under_way self.old ≡ true }
        requires message { IsOfLength self.old (length bytes.now) }
        requires places { length queue.old + most_frames ≤ queue_limit }
        ensures queued { queue.new ≡ queue.old ++ frames_pumped self.old bytes.now now }
        ensures step { (lane : Lane) → lane.under_way ≡ self.old → front_bytes lane.pending ≡ bytes.now
            → pumped lane now ≡ after_pump lane self.new (frames_pumped self.old bytes.now now) result }
        ensures same { KeepsMessage self.old self.new }
    {
        match &mut self.content {
            UnderWay::Nothing => false,
            UnderWay::Broadcast(state) => pump_broadcast(state, bytes, now, queue),
            UnderWay::Connection(state) => {
                state.pump(bytes, now, queue);
                false
            }
        }
    }

    /// A connection under way takes a frame of its destination at tick `now`: how that ends the message, if it does, and then
    /// nothing has changed.
    #[inline]
    pub(crate) fn hear(&mut self, wire: &Wire<'_>, now: u64) -> Option<Ending>
        ensures step { (lane : Lane) → lane.under_way ≡ self.old → heard_lane lane wire.now now ≡ after_frame lane self.new result }
        ensures same { KeepsMessage self.old self.new }
    {
        match &mut self.content {
            UnderWay::Connection(state) => hear_frame(state, wire, now),
            _ => None,
        }
    }
}

/// Queues the next packet of a broadcast, if it is due: whether it was the last.
#[inline(never)]
fn pump_broadcast(state: &mut BamOut, bytes: &[u8], now: u64, queue: &mut TxQueue) -> bool
    requires message { length bytes.now ≡ state.old.len }
    requires place { length queue.old < queue_limit }
    ensures queued { queue.new ≡ queue.old ++ packet_of (bam.pumped state.old bytes.now now) }
    ensures step { (lane : Lane) → after_packet lane (bam.pumped state.old bytes.now now) ≡ after_pump lane (Broadcast state.new) (packet_of (bam.pumped state.old bytes.now now)) result }
    ensures len { state.new.len ≡ state.old.len }
{
    let Some(packet) = state.take_packet(bytes, now) else {
        return false;
    };
    queue.push_free(packet.frame);
    packet.is_last
}
