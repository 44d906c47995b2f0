//! Timers that fire.
ghost use Rattle.std.specs.Prelude.{◌≡◌, IfOk, OnErr};
ghost use Rattle.std.specs.Result.{result_err};
ghost use Rattle.station_core.specs.Refusals.{IsAnswered, firing_refusal};
ghost use Rattle.station_core.specs.Timers.{is_due as is_due_station, fired};

use crate::refused::{Refused, Stopped};
use crate::station::Station;
use message_events::Events;
use station_lanes::outcome;

impl Station {
    /// Whether one of its timers is due at tick `now`.
    pub fn is_due(&self, now: u64) -> bool
        ensures { result ≡ is_due_station self.now now }
    {
        self.sessions.next_due(now).is_some() || self.lanes.next_due(now).is_some()
    }

    /// Why `fire` at tick `now` would be refused, if it would: the first cause. It takes no memory.
    pub fn fire_refusal(&self, now: u64) -> Option<Refused>
        ensures { result ≡ firing_refusal self.now now }
    {
        if !self.is_due(now) {
            return Some(Refused::NothingDue);
        }
        if self.queue.free() == 0 {
            return Some(Refused::TxFull);
        }
        None
    }

    /// Fires one timer that is due at tick `now`: the first in the order of incoming sessions by rising source (broadcast,
    /// TP, ETP), then of lanes by rising destination.
    ///
    /// Refused as `NothingDue` exactly if none is due, else as `TxFull` if the queue has no free place, and else as
    /// `OutOfMemory` if memory is refused. A refusal changes nothing.
    pub fn fire(&mut self, now: u64) -> Result<Events, Stopped>
        ensures ok { IfOk result (λ events. fired self.old now ≡ record { station = self.new; events = events }) }
        ensures refused { IsAnswered (firing_refusal self.old now) (result_err result) }
        ensures err { OnErr result (self.new ≡ self.old) }
    {
        if let Some(key) = self.sessions.next_due(now) {
            if self.queue.free() == 0 {
                return Err(Stopped::Refused(Refused::TxFull));
            }
            self.sessions.fire(&self.ports, key, now, &mut self.queue)?;
            return Ok(Events::none(self.alloc));
        }
        let Some(to) = self.lanes.next_due(now) else {
            return Err(Stopped::Refused(Refused::NothingDue));
        };
        if self.queue.free() == 0 {
            return Err(Stopped::Refused(Refused::TxFull));
        }
        let ended = self.lanes.fire(to, now, &mut self.queue);
        Ok(Events::of(self.alloc, outcome(self.address, to, ended)))
    }
}
