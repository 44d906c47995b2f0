//! Messages that are sent, pumped and cancelled.
ghost use Rattle.std.specs.Prelude.{◌≡◌, ◌≤◌, ◌+◌, ◌||◌, ◌==◌, [], true, length, None, IfOk, OnOk, OnErr, IfErr};
ghost use Rattle.std.specs.Result.{result_err};
ghost use Rattle.std.specs.Option.{option_map};
ghost use Rattle.std.specs.FinMap as map;
ghost use Rattle.pgn_ids.specs.Address.{is_one, global_address, null_address};
ghost use Rattle.tp_wire.specs.declared.constants.TheConstants.{MIN_SIZE};
ghost use Rattle.lane_core.specs.Lane.{longest_to as longest_to_of};
ghost use Rattle.station_lanes.specs.LaneReaders.{missing_at, is_pending_at};
ghost use Rattle.station_core.specs.Sending.{lane_of, lane_seen, sent, next_pump, pumped, cancelled};
ghost use Rattle.station_core.specs.Refusals.{IsAnswered, message_refusal as message_refusal_of, sending_refusal, pumping_refusal, cancelling_refusal};

use crate::refused::{Refused, SendingRefused, Stopped, by_lane};
use crate::station::Station;
use lane_core::{LaneSight, PushRefused, longest_to};
use message_events::{Bytes, Events};
use pgn_ids::{Address, Pgn};
use station_lanes::outcome;
use tp_wire::constants::MIN_SIZE;

/// How many frames a pump queues at most: so many free places of the queue it asks for.
pub const MOST_PUMPED: usize = 8;

/// Why a message of so many bytes isn't one from a station to a destination: the first that holds of `NoSuchStation` if the destination is
/// 254, `SameStation`, `TooShort` and `TooLong` (SAE J1939-21; ISO 11783-3).
pub fn message_refusal(from: Address, to: Address, len: usize) -> Option<Refused>
    ensures value { result ≡ message_refusal_of from to len }
    ensures destination { result ≡ None → (is_one to.0 || to.0 == global_address) ≡ true }
    ensures least { result ≡ None → MIN_SIZE ≤ len }
    ensures most { result ≡ None → len ≤ longest_to_of to.0 }
{
    if to == Address::NULL {
        return Some(Refused::NoSuchStation);
    }
    if from == to {
        return Some(Refused::SameStation);
    }
    if len < MIN_SIZE as usize {
        return Some(Refused::TooShort);
    }
    if len > longest_to(to) {
        return Some(Refused::TooLong);
    }
    None
}

impl Station {
    /// The sight of its lane to a destination.
    pub fn lane(&self, to: Address) -> LaneSight
        ensures { result ≡ lane_seen self.now to }
    {
        self.lanes.sight(to)
    }

    /// Sends a message: it is put behind the others of its lane, and its number in the lane is returned. The lane is made with the
    /// first message to its destination.
    ///
    /// Refused for the first of these causes that holds: `NoSuchStation` if the destination is 254; `SameStation` if it is the own
    /// address; `TooShort` below 9 bytes; `TooLong` above 1,785 bytes to all or 117,440,505 to one node; `LaneFull` if 32 messages
    /// of the lane have no outcome or no number is left; and `OutOfMemory` if memory is refused. A refusal hands the bytes back,
    /// and changes nothing.
    pub fn send(&mut self, to: Address, pgn: Pgn, bytes: Bytes) -> Result<u64, SendingRefused>
        ensures number { IfOk result (λ n. n ≡ (lane_of self.old to).sent + 1) }
        ensures ok { OnOk result (self.new ≡ sent self.old to pgn bytes) }
        ensures refused { IsAnswered (sending_refusal self.old to (length bytes)) (option_map (λ refused. refused.cause) (result_err result)) }
        ensures back { IfErr result (λ refused. refused.bytes ≡ bytes) }
        ensures err { OnErr result (self.new ≡ self.old) }
    {
        if let Some(cause) = message_refusal(self.address, to, bytes.len()) {
            return Err(SendingRefused {
                cause: Stopped::Refused(cause),
                bytes,
            });
        }
        match self.lanes.push(self.alloc, self.address, to, pgn, bytes) {
            Ok(number) => Ok(number),
            Err(PushRefused::LaneFull(bytes)) => Err(SendingRefused {
                cause: Stopped::Refused(Refused::LaneFull),
                bytes,
            }),
            Err(PushRefused::OutOfMemory(bytes)) => Err(SendingRefused {
                cause: Stopped::OutOfMemory,
                bytes,
            }),
        }
    }

    /// Why `send` of so many bytes to a destination would be refused, if it would, whatever they are: the first cause. It
    /// takes no memory.
    pub fn send_refusal(&self, to: Address, len: usize) -> Option<Refused>
        ensures { result ≡ sending_refusal self.now to len }
    {
        if let Some(cause) = message_refusal(self.address, to, len) {
            return Some(cause);
        }
        match self.lanes.get(to) {
            Some(lane) if lane.is_full() => Some(Refused::LaneFull),
            _ => None,
        }
    }

    /// Why `pump` to a destination at tick `now` would be refused, if it would: the first cause.
    pub fn pump_refusal(&self, to: Address, now: u64) -> Option<Refused>
        ensures { result ≡ pumping_refusal self.now to now }
    {
        if to == Address::NULL {
            return Some(Refused::NoSuchStation);
        }
        if let Some(cause) = self.lanes.pump_refusal(to, now) {
            return Some(by_lane(cause));
        }
        let places = self.queue.free();
        if places < MOST_PUMPED {
            return Some(Refused::TxFull);
        }
        None
    }

    /// The lowest destination that a pump queues a frame to at tick `now`; none if the queue has fewer than eight free places.
    pub fn next_pump(&self, now: u64) -> Option<Address>
        ensures value { option_map (λ to. to.0) result ≡ next_pump self.now now }
        ensures null { map.get self.now.lanes null_address ≡ None }
    {
        self.lanes.laws();
        if self.queue.free() < MOST_PUMPED {
            return None;
        }
        self.lanes.next_pump(now)
    }

    /// How many ticks are missing at tick `now` until the next frame of a broadcast to a destination may be queued, 0 if none is
    /// under way.
    pub fn missing(&self, to: Address, now: u64) -> u64
        ensures { result ≡ missing_at self.now.lanes to.0 now }
    {
        self.lanes.missing(to, now)
    }

    /// Queues the next frames to a destination at tick `now`: at most eight. Its event, the outcome of a broadcast whose last packet is
    /// queued, is put into a place that the caller keeps, and that has no event yet. It takes no memory.
    ///
    /// Refused for the first of these causes that holds: `NoSuchStation` if the destination is 254; `NothingToSend` if no message
    /// is pending or it awaits a frame; `NotYet` if it is too soon for the next frame of a broadcast; and `TxFull` if fewer than
    /// eight places of the queue are free. A refusal changes nothing.
    #[inline(always)]
    pub fn pump(&mut self, to: Address, now: u64, told: &mut Events) -> Result<(), Refused>
        requires { told.old ≡ [] }
        ensures ok { OnOk result (pumped self.old to now ≡ record { station = self.new; events = told.new }) }
        ensures refused { result_err result ≡ pumping_refusal self.old to now }
        ensures err { OnErr result (self.new ≡ self.old) }
        ensures silent { OnErr result (told.new ≡ []) }
    {
        if let Some(cause) = self.pump_refusal(to, now) {
            return Err(cause);
        }
        self.pump_lane(to, now, told);
        Ok(())
    }

    // The lane to a destination makes its step.
    #[inline(always)]
    fn pump_lane(&mut self, to: Address, now: u64, told: &mut Events)
        requires free { pumping_refusal self.old to now ≡ None }
        requires before { told.old ≡ [] }
        ensures { pumped self.old to now ≡ record { station = self.new; events = told.new } }
    {
        let ended = self.lanes.pump(to, now, &mut self.queue);
        if ended.is_some() {
            told.tell(outcome(self.address, to, ended));
        }
    }

    /// Whether a message to a destination with this number has no outcome yet.
    pub fn is_pending(&self, to: Address, number: u64) -> bool
        ensures { result ≡ is_pending_at self.now.lanes to.0 number }
    {
        self.lanes.is_pending(to, number)
    }

    /// Why `cancel` of a message would be refused, if it would: the first cause.
    pub fn cancel_refusal(&self, to: Address, number: u64) -> Option<Refused>
        ensures { result ≡ cancelling_refusal self.now to number }
    {
        if to == Address::NULL {
            return Some(Refused::NoSuchStation);
        }
        if !self.is_pending(to, number) {
            return Some(Refused::NothingToSend);
        }
        if self.lanes.queues_abort(to, number) && self.queue.free() == 0 {
            return Some(Refused::TxFull);
        }
        None
    }

    /// Cancels the message to a destination with this number: a connection under way ends by an abort, a broadcast under way
    /// without a frame. It takes no memory.
    ///
    /// Refused for the first of these causes that holds: `NoSuchStation` if the destination is 254; `NothingToSend` if no such
    /// message is without an outcome; and `TxFull` if an abort is to be queued and no place is free for it. A refusal changes
    /// nothing.
    pub fn cancel(&mut self, to: Address, number: u64) -> Result<Events, Refused>
        ensures ok { IfOk result (λ events. cancelled self.old to number ≡ record { station = self.new; events = events }) }
        ensures refused { result_err result ≡ cancelling_refusal self.old to number }
        ensures err { OnErr result (self.new ≡ self.old) }
    {
        if let Some(cause) = self.cancel_refusal(to, number) {
            return Err(cause);
        }
        let ended = self.lanes.cancel(to, number, &mut self.queue);
        if ended.is_none() {
            unreachable!()
        }
        Ok(Events::of(self.alloc, outcome(self.address, to, ended)))
    }
}
