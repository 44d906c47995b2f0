//! When a segment next has something to do by itself.
ghost use Rattle.tick_timers.specs.Due.{IsDueFrom, IsNextFrom};
ghost use Rattle.segment_state.specs.Due.{any_due};
ghost use Rattle.segment_state.specs.Next.{at_tick, is_active, any_work};

use crate::segment::Segment;
use pgn_ids::Address;

impl Segment {
    /// The first tick, from that of its clock on, at which it has something to do by itself: at that tick a Pump to some
    /// destination, or a Transmit, a Take or a Fire of some station, would not be refused. So nothing is to be done before, unless
    /// another call is made. None if there is no such tick up to the last one of `u64`.
    pub fn next_at(&self) -> Option<u64>
        ensures { IsNextFrom (any_work self.now) self.now.now result }
    {
        self.state.next_at()
    }

    /// The tick from which on a timer of a station is due or one of its lanes has a frame to queue, unless a call names it before.
    /// None if there is no such tick up to the last one of `u64`, or the address isn't a station's.
    pub fn active_from(&self, station: Address) -> Option<u64>
        ensures { IsDueFrom (λ tick. is_active (at_tick self.now tick) station) result }
    {
        self.state.active_from(station)
    }

    /// The tick at which the next timer of its stations is due: the least at which `is_due` is true of one of them. None exactly
    /// if no timer runs that would be due up to the last tick of `u64`.
    pub fn next_due_at(&self) -> Option<u64>
        ensures { IsDueFrom (any_due self.now) result }
    {
        self.state.next_due_at()
    }
}
