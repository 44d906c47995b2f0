//! What a lane queues when it is pumped.
ghost use Rattle.std.specs.Prelude.{◌≡◌, ◌+◌, ◌<◌, ◌≤◌, ◌++◌, length, Some, None, is_none};
ghost use Rattle.tick_timers.specs.Due.{IsDueFrom};
ghost use Rattle.tx_queue.specs.Queue.{queue_limit};
ghost use Rattle.originator.specs.Pump.{most_frames};
ghost use Rattle.lane_core.specs.declared.place.UnderWay.TheVariants.{Nothing};
ghost use Rattle.lane_core.specs.declared.probe.Standing.TheVariants.{Settled};
ghost use Rattle.lane_core.specs.Lane.{kind_for as kind_for_len};
ghost use Rattle.lane_core.specs.declared.refused.PumpRefused.{PumpRefused};
ghost use Rattle.lane_core.specs.Endings.{still};
ghost use Rattle.lane_core.specs.Pump.{idle_refusal, is_ready, pump_refusal as refusal_of, missing as missing_of, front_bytes as bytes_of_front, idle_pumped, pumped as pumped_lane};

use crate::lane::Lane;
use crate::message::Pending;
use crate::place::UnderWay;
use crate::probe::Standing;
use crate::refused::PumpRefused;
use crate::step::Ended;
use bam_session::BamOut;
use originator::OutState;
use pgn_ids::Address;
use std::collections::VecDeque;
use tick_timers::always;
use tp_wire::constants::TP_MAX_SIZE;
use tp_wire::{Kind, Outcome};
use tx_queue::TxQueue;

impl Lane {
    /// Why it queues nothing at tick `now`, or `None` if a pump queues a frame.
    pub fn pump_refusal(&self, now: u64) -> Option<PumpRefused>
        ensures { result ≡ refusal_of self.now now }
    {
        match self.place.content() {
            UnderWay::Nothing => self.idle_refusal(),
            UnderWay::Broadcast(state) => {
                if state.is_due(now) {
                    None
                } else {
                    Some(PumpRefused::NotYet)
                }
            }
            UnderWay::Connection(OutState::Sending(_)) => None,
            UnderWay::Connection(_) => Some(PumpRefused::NothingToSend),
        }
    }

    /// Why the front message does not begin, if nothing is under way.
    fn idle_refusal(&self) -> Option<PumpRefused>
        ensures { result ≡ idle_refusal self.now.standing self.now.pending }
    {
        if self.pending.is_empty() {
            return Some(PumpRefused::NothingToSend);
        }
        match self.standing {
            Standing::Settled | Standing::InDoubt => None,
            Standing::Probing { .. } => Some(PumpRefused::NothingToSend),
        }
    }

    /// The tick from which on a pump queues a frame: 0 if one does at every tick, or the end of the gap of a broadcast. None if
    /// it has nothing to queue at any tick.
    pub fn pump_due_at(&self) -> Option<u64>
        ensures { IsDueFrom (λ now. is_none (refusal_of self.now now)) result }
    {
        match self.place.content() {
            UnderWay::Nothing => always(self.idle_refusal().is_none()),
            UnderWay::Broadcast(state) => state.due_at(),
            UnderWay::Connection(OutState::Sending(_)) => always(true),
            UnderWay::Connection(_) => None,
        }
    }

    /// Whether it has a frame to queue, now or once the gap of its broadcast has passed.
    pub fn is_ready(&self) -> bool
        ensures { result ≡ is_ready self.now }
    {
        match self.place.content() {
            UnderWay::Nothing => self.idle_refusal().is_none(),
            UnderWay::Broadcast(_) => true,
            UnderWay::Connection(OutState::Sending(_)) => true,
            UnderWay::Connection(_) => false,
        }
    }

    /// How many ticks are missing at tick `now` until the next frame of a broadcast message may be queued, 0 if none is under
    /// way.
    pub fn missing(&self, now: u64) -> u64
        ensures { result ≡ missing_of self.now now }
    {
        match self.place.content() {
            UnderWay::Broadcast(state) => state.missing(now),
            _ => 0,
        }
    }

    /// Queues the next frames at tick `now` behind those of a queue: the first frame of the front message; the first of a round
    /// of Requests if the lane is in doubt; the next packet of a broadcast; or the next part of a connection's window. It returns
    /// the message that ends. If `pump_refusal` gives a cause, nothing is queued and the lane is unchanged.
    #[inline(always)]
    #[tactic(auto, using(crate::proofs::Pumping::refused_pump, crate::proofs::Keeping::of_length, crate::proofs::Keeping::carries_on, crate::proofs::Keeping::calm_on))]
    pub fn pump(&mut self, now: u64, queue: &mut TxQueue) -> Option<Ended>
        requires { length queue.old + most_frames ≤ queue_limit }
        ensures lane { self.new ≡ (pumped_lane self.old now).0 }
        ensures queued { queue.new ≡ queue.old ++ (pumped_lane self.old now).1.frames }
        ensures ended { result ≡ (pumped_lane self.old now).1.ended }
        ensures refused { (cause : PumpRefused) → refusal_of self.old now ≡ Some cause → pumped_lane self.old now ≡ still self.old }
    {
        if let UnderWay::Nothing = self.place.content() {
            self.pump_idle(now, queue);
            return None;
        }
        if self.place.pump(front_bytes(&self.pending), now, queue) {
            return self.over(Outcome::Broadcast);
        }
        None
    }

    /// Nothing is under way: the front message begins, or the lane asks first. That ends nothing.
    #[inline(never)]
    fn pump_idle(&mut self, now: u64, queue: &mut TxQueue)
        requires nothing { self.old.under_way ≡ Nothing }
        requires place { length queue.old < queue_limit }
        ensures lane { self.new ≡ (idle_pumped self.old.standing self.old.pending self.old now).0 }
        ensures queued { queue.new ≡ queue.old ++ (idle_pumped self.old.standing self.old.pending self.old now).1.frames }
        ensures ended { (idle_pumped self.old.standing self.old.pending self.old now).1.ended ≡ None }
    {
        if self.pending.is_empty() {
            return;
        }
        match self.standing {
            Standing::Settled => self.begin(now, queue),
            Standing::InDoubt => self.probe(1, now, queue),
            Standing::Probing { .. } => {}
        }
    }

    /// The front message begins: BAM to all, else an RTS.
    fn begin(&mut self, now: u64, queue: &mut TxQueue)
        requires nothing { self.old.under_way ≡ Nothing }
        requires settled { self.old.standing ≡ Settled }
        requires place { length queue.old < queue_limit }
        ensures lane { self.new ≡ (idle_pumped Settled self.old.pending self.old now).0 }
        ensures queued { queue.new ≡ queue.old ++ (idle_pumped Settled self.old.pending self.old now).1.frames }
    {
        let Some(message) = self.pending.front() else {
            return;
        };
        let (pgn, len) = (message.pgn, message.bytes.len() as u32);
        if self.to == Address::GLOBAL {
            let (state, frame) = BamOut::begin(self.from, pgn, len, now);
            self.put_under_way(UnderWay::Broadcast(state));
            queue.push_free(frame);
            return;
        }
        let (state, frame) = originator::begin(kind_for(len), self.from, self.to, pgn, len, now);
        self.put_under_way(UnderWay::Connection(OutState::AwaitCts(state)));
        queue.push_free(frame);
    }
}

/// The bytes of the front message, in place.
#[inline]
fn front_bytes(messages: &VecDeque<Pending>) -> &[u8]
    ensures { result.now ≡ bytes_of_front messages.now.items }
{
    match messages.front() {
        None => &[],
        Some(message) => message.bytes.as_slice(),
    }
}

/// The transport that carries so many bytes to one destination.
pub fn kind_for(len: u32) -> Kind
    ensures { result ≡ kind_for_len len }
{
    if len <= TP_MAX_SIZE {
        Kind::Tp
    } else {
        Kind::Etp
    }
}
