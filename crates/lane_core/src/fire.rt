//! When the timer of a lane fires.
ghost use Rattle.std.specs.Prelude.{◌≡◌, ◌<◌, ◌++◌, length};
ghost use Rattle.tx_queue.specs.Queue.{queue_limit};
ghost use Rattle.tick_timers.specs.Due.{IsDueFrom};
ghost use Rattle.lane_core.specs.declared.place.UnderWay.TheVariants.{Nothing};
ghost use Rattle.lane_core.specs.Fire.{is_lane_due, is_timed, is_probe_due as is_probe_due_at, probe_fired, fired as fired_lane};

use crate::lane::Lane;
use crate::place::UnderWay;
use crate::probe::Standing;
use crate::step::Ended;
use tp_wire::Outcome;
use tx_queue::TxQueue;

/// How often a lane asks in one round.
pub const MOST_REQUESTS: u8 = 3;

impl Lane {
    /// Whether the timer of its connection, or of its Request, is due at tick `now`.
    pub fn is_due(&self, now: u64) -> bool
        ensures { result ≡ is_lane_due self.now now }
    {
        match self.place.content() {
            UnderWay::Connection(state) => state.is_due(now),
            UnderWay::Nothing => self.is_probe_due(now),
            UnderWay::Broadcast(_) => false,
        }
    }

    /// Whether a timer of it runs, that of its connection or of its Request.
    pub fn is_timed(&self) -> bool
        ensures { result ≡ is_timed self.now }
    {
        match self.place.content() {
            UnderWay::Connection(state) => state.timer().is_some(),
            UnderWay::Nothing => matches!(self.standing, Standing::Probing { .. }),
            UnderWay::Broadcast(_) => false,
        }
    }

    /// Whether the timer of its Request is due.
    fn is_probe_due(&self, now: u64) -> bool
        ensures { result ≡ is_probe_due_at self.now.standing now }
    {
        match self.standing {
            Standing::Probing { count: _, timer } => timer.is_due(now),
            _ => false,
        }
    }

    /// The tick from which on the timer of its connection, or of its Request, is due. None if neither runs, or if it isn't due up
    /// to the last tick.
    pub fn due_at(&self) -> Option<u64>
        ensures { IsDueFrom (is_lane_due self.now) result }
    {
        match self.place.content() {
            UnderWay::Connection(state) => state.timer()?.due_at(),
            UnderWay::Nothing => self.probe_due_at(),
            UnderWay::Broadcast(_) => None,
        }
    }

    // The tick from which on the timer of its Request is due.
    fn probe_due_at(&self) -> Option<u64>
        ensures { IsDueFrom (is_probe_due_at self.now.standing) result }
    {
        match self.standing {
            Standing::Probing { count: _, timer } => timer.due_at(),
            _ => None,
        }
    }

    /// Its timer fired at tick `now`, as `is_due` said. A connection under way timed out and is aborted. A Request is repeated,
    /// and after the third one the front message is unreachable. The call reads no clock. It returns the message that ends, and
    /// queues the frame behind those of a queue.
    pub fn fire(&mut self, now: u64, queue: &mut TxQueue) -> Option<Ended>
        requires { length queue.old < queue_limit }
        ensures lane { self.new ≡ (fired_lane self.old now).0 }
        ensures queued { queue.new ≡ queue.old ++ (fired_lane self.old now).1.frames }
        ensures ended { result ≡ (fired_lane self.old now).1.ended }
    {
        match self.take_under_way() {
            UnderWay::Connection(state) => self.connection_over(state.expire(), queue),
            UnderWay::Nothing => self.fire_probe(now, queue),
            UnderWay::Broadcast(state) => {
                self.put_under_way(UnderWay::Broadcast(state));
                None
            }
        }
    }

    /// The Request was not answered: it is repeated, and after the third the lane gives up, with the front message.
    fn fire_probe(&mut self, now: u64, queue: &mut TxQueue) -> Option<Ended>
        requires nothing { self.old.under_way ≡ Nothing }
        requires place { length queue.old < queue_limit }
        ensures lane { self.new ≡ (probe_fired self.old.standing self.old now).0 }
        ensures queued { queue.new ≡ queue.old ++ (probe_fired self.old.standing self.old now).1.frames }
        ensures ended { result ≡ (probe_fired self.old.standing self.old now).1.ended }
    {
        match self.standing {
            Standing::Probing { count, timer: _ } if count < MOST_REQUESTS => {
                self.probe(count + 1, now, queue);
                None
            }
            Standing::Probing { .. } => self.over(Outcome::Unreachable),
            _ => None,
        }
    }
}
