//! When a station next has something to do by itself.
ghost use Rattle.std.specs.Prelude.{◌≡◌, None};
ghost use Rattle.std.specs.FinMap as map;
ghost use Rattle.pgn_ids.specs.Address.{null_address};
ghost use Rattle.tick_timers.specs.Due.{IsDueFrom, IsNextFrom};
ghost use Rattle.station_core.specs.Next.{can_pump, can_fire, has_work};

use crate::sending::MOST_PUMPED;
use crate::station::Station;
use tick_timers::{always, earlier, not_before};

impl Station {
    /// The tick from which on `next_pump` names a destination: 0 if it does at every tick, else the end of the first gap of a
    /// broadcast. None if fewer than eight places of the queue are free, or no lane has a frame to queue.
    #[tactic(auto, using(crate::proofs::Nexts::work_laws))]
    pub fn next_pump_at(&self) -> Option<u64>
        ensures value { IsDueFrom (can_pump self.now) result }
        ensures null { map.get self.now.lanes null_address ≡ None }
    {
        self.lanes.laws();
        if self.queue.free() < MOST_PUMPED {
            return None;
        }
        self.lanes.next_pump_at()
    }

    /// The tick from which on `fire` isn't refused: that of `next_due_at`. None if no place of the queue is free, or no timer runs
    /// that would be due up to the last tick of `u64`.
    #[tactic(auto, using(crate::proofs::Nexts::work_laws))]
    pub fn next_fire_at(&self) -> Option<u64>
        ensures { IsDueFrom (can_fire self.now) result }
    {
        if self.queue.free() == 0 {
            return None;
        }
        self.next_due_at()
    }

    /// The first tick from `now` on at which it has something to do by itself: its queue has a frame, a pump would not be refused, or
    /// `fire` would not. So a program may sleep until then, unless a frame arrives or it makes a call. None if there is no such tick
    /// up to the last one of `u64`.
    pub fn next_at(&self, now: u64) -> Option<u64>
        ensures { IsNextFrom (has_work self.now) now result }
    {
        let queued = always(self.queue_len() > 0);
        let tick = earlier(queued, earlier(self.next_pump_at(), self.next_fire_at()));
        not_before(now, tick)
    }
}
