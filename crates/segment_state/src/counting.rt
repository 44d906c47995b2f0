//! Counting the events of calls.
ghost use Rattle.std.specs.Prelude.{◌≡◌, []};
ghost use Rattle.segment_law.specs.Segment.{counted, counted_look};

use crate::state::SegmentState;
use drive_course::{count_events, count_look};
use station_core::Events;

impl SegmentState {
    /// Counts the events of a call, and puts them into a place that has none yet.
    #[inline(always)]
    pub(crate) fn tell(&mut self, events: Events, told: &mut Events)
        requires { told.old ≡ [] }
        ensures events { told.new ≡ events }
        ensures counts { self.new ≡ record self.old { counts = counted self.old.counts events } }
    {
        self.count_told(&events);
        *told = events;
    }

    /// Counts the events of a call.
    #[inline(always)]
    pub(crate) fn count_told(&mut self, events: &Events)
        ensures { self.new ≡ record self.old { counts = counted self.old.counts events.now } }
    {
        count_events(&mut self.counts, events);
    }

    /// Counts a station's look at a frame, which it may find malformed, and the events of the call.
    #[inline(always)]
    pub(crate) fn looked(&mut self, is_malformed: bool, told: &Events)
        ensures { self.new ≡ record self.old { counts = counted (counted_look self.old.counts is_malformed) told.now } }
    {
        count_look(&mut self.counts, is_malformed, told)
    }
}
