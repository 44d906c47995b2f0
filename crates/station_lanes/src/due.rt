//! The next timer of the lanes, and the next frame that they queue.
ghost use Rattle.std.specs.Prelude.{is_some};
ghost use Rattle.tick_timers.specs.Due.{IsDueFrom};
ghost use Rattle.station_lanes.specs.LaneReaders.{is_due_at, due_lane, is_pumping, pumping_lane};

use crate::lanes::{Lanes, PLACES};
use pgn_ids::Address;
use tick_timers::earlier;

impl Lanes {
    /// The tick from which on the earliest timer of a lane is due. None if no connection and no Request is under way that is
    /// due up to the last tick.
    pub fn next_due_at(&self) -> Option<u64>
        ensures { IsDueFrom (λ now. is_some (due_lane self.now now)) result }
    {
        let mut tick = None;
        let mut from = 0;
        for _ in 0..PLACES {
            let Some(to) = self.next_timed(from) else {
                return tick;
            };
            tick = earlier(tick, self.due_at(to));
            from = usize::from(to.0) + 1;
        }
        tick
    }

    // The tick from which on the timer of the lane to a destination is due.
    fn due_at(&self, to: Address) -> Option<u64>
        ensures { IsDueFrom (λ now. is_due_at self.now now to.0) result }
    {
        self.get(to)?.due_at()
    }

    /// The tick from which on a pump queues a frame to some destination: 0 if one does at every tick, else the end of the first
    /// gap of a broadcast. None if no lane has a frame to queue up to the last tick.
    pub fn next_pump_at(&self) -> Option<u64>
        ensures { IsDueFrom (λ now. is_some (pumping_lane self.now now)) result }
    {
        let mut tick = None;
        let mut from = 0;
        for _ in 0..PLACES {
            let Some(to) = self.next_ready(from) else {
                return tick;
            };
            tick = earlier(tick, self.pump_due_at(to));
            from = usize::from(to.0) + 1;
        }
        tick
    }

    // The tick from which on a pump queues a frame to a destination.
    fn pump_due_at(&self, to: Address) -> Option<u64>
        ensures { IsDueFrom (λ now. is_pumping self.now now to.0) result }
    {
        self.get(to)?.pump_due_at()
    }
}
