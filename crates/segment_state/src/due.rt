//! The next timer of a segment.
ghost use Rattle.tick_timers.specs.Due.{IsDueFrom};
ghost use Rattle.segment_state.specs.Due.{any_due};

use crate::state::SegmentState;
use tick_timers::earlier;

impl SegmentState {
    /// The tick at which the next timer of its stations is due: the least at which `is_due` is true of one of them. None exactly
    /// if no timer runs that would be due up to the last tick of `u64`.
    #[tactic(auto, using(crate::proofs::Dues::due_laws))]
    pub fn next_due_at(&self) -> Option<u64>
        ensures { IsDueFrom (any_due self.now) result }
    {
        let mut tick = None;
        for station in &self.stations {
            tick = earlier(tick, station.next_due_at());
        }
        tick
    }
}
