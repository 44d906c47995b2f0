//! The calls of a lane, by its destination.
ghost use Rattle.std.specs.Prelude.{◌≡◌, ◌<◌, ◌≤◌, ◌||◌, ◌==◌, ◌+◌, ◌++◌, true, length, IfOk, IfSome, IfNone, OnSome, OnOk, OnErr, IfErr, IsErr, IsSome, [], IsTrue, Some, None, ◌↔◌};
ghost use Rattle.std.specs.FinMap as map;
ghost use Rattle.pgn_ids.specs.Address.{is_one, global_address};
ghost use Rattle.lane_core.specs.Hear.{heard as heard_lane};
ghost use Rattle.lane_core.specs.Answer.{answered};
ghost use Rattle.lane_core.specs.Overrun.{overrun as overrun_lane};
ghost use Rattle.lane_core.specs.Cancel.{cancelled as cancelled_lane};
ghost use Rattle.lane_core.specs.Pump.{pumped as pumped_lane};
ghost use Rattle.lane_core.specs.Fire.{fired as fired_lane};
ghost use Rattle.lane_core.specs.Lane.{is_full as is_full_lane, longest_to, pushed};
ghost use Rattle.lane_core.specs.Refused.{IsHandedBack};
ghost use Rattle.lane_core.specs.Step.{nothing_to_do};
ghost use Rattle.tx_queue.specs.Queue.{queue_limit};
ghost use Rattle.originator.specs.Pump.{most_frames};
ghost use Rattle.station_lanes.specs.LaneCalls.{stepped_lanes, step_at, lane_to};
ghost use Rattle.station_lanes.specs.LaneReaders.{refusal_at, pumping_lane, missing_at, is_pending_at, queues_abort_at, is_due_at, due_lane, overrun_lanes, overrun_events, is_waiting_at, count_below, sight_at, HasNoConnection};
ghost use Rattle.std.specs.Option.{option_map};

use crate::lanes::{Lanes, PLACES, mark, mark_after};
use crate::outcomes::{append, outcome};
use lane_core::{Ended, Lane, LaneSight, PumpRefused, PushRefused};
use message_events::{Bytes, Events};
use pgn_ids::{Address, Pgn, WirePgn};
use std::alloc::{AllocError, Global};
use tp_wire::Wire;
use tx_queue::TxQueue;

impl Lanes {
    /// Takes a frame of its destination at tick `now`. It returns the message that ends, and queues an abort behind the frames of
    /// a queue if the sender aborts it.
    #[inline]
    pub fn hear(
        &mut self,
        to: Address,
        wire: &Wire<'_>,
        now: u64,
        queue: &mut TxQueue,
    ) -> Option<Ended>
        requires { length queue.old < queue_limit }
        ensures lanes { self.new ≡ stepped_lanes self.old to.0 (λ lane. heard_lane lane wire.now now) }
        ensures queued { queue.new ≡ queue.old ++ (step_at self.old to.0 (λ lane. heard_lane lane wire.now now)).frames }
        ensures ended { result ≡ (step_at self.old to.0 (λ lane. heard_lane lane wire.now now)).ended }
    {
        let Some(lane) = self.slots[usize::from(to.0)].get_mut() else {
            return None;
        };
        let ended = lane.hear(wire, now, queue);
        mark_after(
            ended.is_some(),
            lane,
            &mut self.ready,
            &mut self.timed,
            to.0,
        );
        ended
    }

    /// An Acknowledgement of its destination is taken.
    pub fn answer(&mut self, to: Address, pgn: WirePgn)
        ensures { self.new ≡ stepped_lanes self.old to.0 (λ lane. (answered lane pgn, nothing_to_do)) }
    {
        let Some(lane) = self.slots[usize::from(to.0)].get_mut() else {
            return;
        };
        lane.answer(pgn);
        mark(lane, &mut self.ready, &mut self.timed, to.0);
    }

    /// The station missed frames: nothing is queued, and the message that this ends is returned.
    pub fn overrun(&mut self, to: Address) -> Option<Ended>
        ensures lanes { self.new ≡ stepped_lanes self.old to.0 overrun_lane }
        ensures ended { result ≡ (step_at self.old to.0 overrun_lane).ended }
        ensures none { (step_at self.old to.0 overrun_lane).frames ≡ [] }
    {
        let Some(lane) = self.slots[usize::from(to.0)].get_mut() else {
            return None;
        };
        let ended = lane.overrun();
        mark(lane, &mut self.ready, &mut self.timed, to.0);
        ended
    }

    /// A message is sent, whose number is given. A refusal hands its bytes back and changes nothing.

    pub fn push(
        &mut self,
        alloc: Global,
        from: Address,
        to: Address,
        pgn: Pgn,
        bytes: Bytes,
    ) -> Result<u64, PushRefused>
        requires source { is_one from.0 ≡ true }
        requires destination { (is_one to.0 || to.0 == global_address) ≡ true }
        requires least { 9 ≤ length bytes }
        requires most { length bytes ≤ longest_to to.0 }
        ensures number { IfOk result (λ n. n ≡ (lane_to from self.old to.0).sent + 1) }
        ensures pushed { OnOk result (self.new ≡ map.insert self.old to.0 (pushed (lane_to from self.old to.0) pgn bytes)) }
        ensures refused { OnErr result (self.new ≡ self.old) }
        ensures back { IfErr result (IsHandedBack (is_full_lane (lane_to from self.old to.0)) bytes) }
        ensures full { is_full_lane (lane_to from self.old to.0) ≡ true → IsErr result }
    {
        let Some(lane) = self.slots[usize::from(to.0)].get_mut() else {
            return self.push_first(alloc, from, to, pgn, bytes);
        };
        let pushed = lane.push(pgn, bytes);
        mark(lane, &mut self.ready, &mut self.timed, to.0);
        pushed
    }

    /// The first message to a destination is sent: its lane is made.

    fn push_first(
        &mut self,
        alloc: Global,
        from: Address,
        to: Address,
        pgn: Pgn,
        bytes: Bytes,
    ) -> Result<u64, PushRefused>
        requires absent { map.get self.old to.0 ≡ None }
        requires source { is_one from.0 ≡ true }
        requires destination { (is_one to.0 || to.0 == global_address) ≡ true }
        requires least { 9 ≤ length bytes }
        requires most { length bytes ≤ longest_to to.0 }
        ensures number { IfOk result (λ n. n ≡ (lane_to from self.old to.0).sent + 1) }
        ensures pushed { OnOk result (self.new ≡ map.insert self.old to.0 (pushed (lane_to from self.old to.0) pgn bytes)) }
        ensures refused { OnErr result (self.new ≡ self.old) }
        ensures back { IfErr result (IsHandedBack (is_full_lane (lane_to from self.old to.0)) bytes) }
        ensures full { is_full_lane (lane_to from self.old to.0) ≡ true → IsErr result }
    {
        let mut lane = match Box::new(alloc, Lane::new(alloc, from, to)) {
            Ok(lane) => lane,
            Err(_) => return Err(PushRefused::OutOfMemory(bytes)),
        };
        let number = lane.push(pgn, bytes)?;
        self.put(to, lane);
        Ok(number)
    }

    /// Why the lane to a destination queues nothing at tick `now`, or `None` if a pump queues a frame.
    pub fn pump_refusal(&self, to: Address, now: u64) -> Option<PumpRefused>
        ensures { result ≡ refusal_at self.now to.0 now }
    {
        match self.get(to) {
            None => Some(PumpRefused::NothingToSend),
            Some(lane) => lane.pump_refusal(now),
        }
    }

    /// The lowest destination whose lane queues a frame if it is pumped at tick `now`.
    #[tactic(auto, using(crate::proofs::Counting::least_laws))]
    pub fn next_pump(&self, now: u64) -> Option<Address>
        ensures { option_map (λ to. to.0) result ≡ pumping_lane self.now now }
    {
        let mut from = 0;
        for _ in 0..PLACES {
            let Some(to) = self.next_ready(from) else {
                return None;
            };
            if self.pump_refusal(to, now).is_none() {
                return Some(to);
            }
            from = usize::from(to.0) + 1;
        }
        None
    }

    /// What is seen of the lane to a destination.
    pub fn sight(&self, to: Address) -> LaneSight
        ensures { result ≡ sight_at self.now to.0 }
    {
        match self.get(to) {
            None => LaneSight::nothing(),
            Some(lane) => lane.sight(),
        }
    }

    /// How many ticks are missing at tick `now` until the next frame of a broadcast to a destination may be queued.
    pub fn missing(&self, to: Address, now: u64) -> u64
        ensures { result ≡ missing_at self.now to.0 now }
    {
        match self.get(to) {
            None => 0,
            Some(lane) => lane.missing(now),
        }
    }

    /// Queues the next frames to a destination at tick `now` behind those of a queue, if `pump_refusal` gives no cause. It returns
    /// the message that ends.
    #[inline(always)]
    pub fn pump(&mut self, to: Address, now: u64, queue: &mut TxQueue) -> Option<Ended>
        requires { length queue.old + most_frames ≤ queue_limit }
        ensures lanes { self.new ≡ stepped_lanes self.old to.0 (λ lane. pumped_lane lane now) }
        ensures queued { queue.new ≡ queue.old ++ (step_at self.old to.0 (λ lane. pumped_lane lane now)).frames }
        ensures ended { result ≡ (step_at self.old to.0 (λ lane. pumped_lane lane now)).ended }
    {
        let Some(lane) = self.slots[usize::from(to.0)].get_mut() else {
            return None;
        };
        let ended = lane.pump(now, queue);
        mark_after(
            ended.is_some(),
            lane,
            &mut self.ready,
            &mut self.timed,
            to.0,
        );
        ended
    }

    /// Whether the timer of the lane to a destination is due at tick `now`.
    pub fn is_due(&self, to: Address, now: u64) -> bool
        ensures { result ≡ is_due_at self.now now to.0 }
    {
        match self.get(to) {
            None => false,
            Some(lane) => lane.is_due(now),
        }
    }

    /// The lowest destination whose lane is due at tick `now`.
    #[tactic(auto, using(crate::proofs::Counting::least_laws))]
    pub fn next_due(&self, now: u64) -> Option<Address>
        ensures value { option_map (λ to. to.0) result ≡ due_lane self.now now }
        ensures due { IfSome result (λ to. is_due_at self.now now to.0 ≡ true) }
    {
        let mut from = 0;
        for _ in 0..PLACES {
            let Some(to) = self.next_timed(from) else {
                return None;
            };
            if self.is_due(to, now) {
                return Some(to);
            }
            from = usize::from(to.0) + 1;
        }
        None
    }

    /// The timer of the lane to a destination fired at tick `now`, as `is_due` said. It queues the frame behind those of a queue,
    /// and returns the message that ends.
    pub fn fire(&mut self, to: Address, now: u64, queue: &mut TxQueue) -> Option<Ended>
        requires { length queue.old < queue_limit }
        ensures lanes { self.new ≡ stepped_lanes self.old to.0 (λ lane. fired_lane lane now) }
        ensures queued { queue.new ≡ queue.old ++ (step_at self.old to.0 (λ lane. fired_lane lane now)).frames }
        ensures ended { result ≡ (step_at self.old to.0 (λ lane. fired_lane lane now)).ended }
    {
        let Some(lane) = self.slots[usize::from(to.0)].get_mut() else {
            return None;
        };
        let ended = lane.fire(now, queue);
        mark(lane, &mut self.ready, &mut self.timed, to.0);
        ended
    }

    /// How many destinations have a message without an outcome.
    #[tactic(auto, using(crate::proofs::Told::count_laws))]
    fn waiting(&self) -> usize
        ensures { result ≡ count_below (is_waiting_at self.now) 256 }
    {
        let mut count = 0;
        for place in 0..PLACES {
            if self.is_waiting(Address(place as u8)) {
                count += 1;
            }
        }
        count
    }

    /// Whether a message to a destination has no outcome yet.
    fn is_waiting(&self, to: Address) -> bool
        ensures { result ≡ is_waiting_at self.now to.0 }
    {
        match self.get(to) {
            None => false,
            Some(lane) => lane.pending_len() > 0,
        }
    }

    /// The station missed frames: each connection under way ends, and the outcomes are returned by rising destination. Want of
    /// memory changes nothing. Memory is taken for as many outcomes as destinations have messages without one, less the first.
    #[tactic(auto, using(crate::proofs::Told::overrun_all_laws))]
    pub fn overrun_all(&mut self, alloc: Global, from: Address) -> Result<Events, AllocError>
        ensures ok { OnOk result (self.new ≡ overrun_lanes self.old 256) }
        ensures told { IfOk result (λ events. events ≡ overrun_events from self.old 256) }
        ensures ended { OnOk result (HasNoConnection self.new) }
        ensures err { OnErr result (self.new ≡ self.old) }
    {
        let mut first = None;
        let mut rest = Vec::with_capacity(alloc, self.waiting().saturating_sub(1))?;
        for place in 0..PLACES {
            let to = Address(place as u8);
            let ended = self.overrun(to);
            append(&mut first, &mut rest, outcome(from, to, ended));
        }
        Ok(match first {
            None => Events::none(alloc),
            Some(event) => Events::all(event, rest),
        })
    }

    /// Whether a message to a destination with this number has no outcome yet.
    pub fn is_pending(&self, to: Address, number: u64) -> bool
        ensures { result ≡ is_pending_at self.now to.0 number }
    {
        match self.get(to) {
            None => false,
            Some(lane) => lane.is_pending(number),
        }
    }

    /// Whether cancelling the message to a destination with this number queues an abort.
    pub fn queues_abort(&self, to: Address, number: u64) -> bool
        ensures { result ≡ queues_abort_at self.now to.0 number }
    {
        match self.get(to) {
            None => false,
            Some(lane) => lane.queues_abort(number),
        }
    }

    /// Cancels the message to a destination with this number, and returns its outcome. Its abort is queued behind the frames of a
    /// queue, if `queues_abort` said that there is one. None exactly if no such message is without an outcome; then nothing
    /// changes.
    pub fn cancel(&mut self, to: Address, number: u64, queue: &mut TxQueue) -> Option<Ended>
        requires { queues_abort_at self.old to.0 number ≡ true → length queue.old < queue_limit }
        ensures pending { IsSome result ↔ IsTrue (is_pending_at self.old to.0 number) }
        ensures lanes { OnSome result (self.new ≡ stepped_lanes self.old to.0 (λ lane. cancelled_lane lane number)) }
        ensures queued { OnSome result (queue.new ≡ queue.old ++ (step_at self.old to.0 (λ lane. cancelled_lane lane number)).frames) }
        ensures ended { OnSome result (result ≡ (step_at self.old to.0 (λ lane. cancelled_lane lane number)).ended) }
        ensures absent { IfNone result (self.new ≡ self.old) }
        ensures kept { IfNone result (queue.new ≡ queue.old) }
    {
        let Some(lane) = self.slots[usize::from(to.0)].get_mut() else {
            return None;
        };
        let ended = lane.cancel(number, queue);
        mark(lane, &mut self.ready, &mut self.timed, to.0);
        ended
    }
}
