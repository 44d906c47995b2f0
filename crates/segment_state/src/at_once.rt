//! A frame that is put on the bus and taken at once by the first station: what a bus of one station does with most frames.
ghost use Rattle.std.specs.Prelude.{◌≡◌, [], IfOk, OnErr};
ghost use Rattle.std.specs.Bool.{OnTrue, OnFalse};
ghost use Rattle.segment_law.specs.declared.call.Call.TheVariants.{Transmit, Inject};
ghost use Rattle.segment_state.specs.PutTaken.{PutTaken};

use crate::state::SegmentState;
use crate::values::fits_frame;
use bus_frame::Frame;
use drive_course::count_frame;
use pgn_ids::{Address, read_id};
use station_core::{Events, Stopped};
use std::alloc::AllocError;

impl SegmentState {
    /// Makes the Transmit of a station and its Take of that frame, as `apply` one after the other, if the station is the first, all
    /// stations have looked at every frame of the bus, and it doesn't look at this one, as at none of its own. It takes no memory.
    ///
    /// Else this returns false, and nothing changes: these calls are to be made one by one, since one of them may be refused.
    #[inline(always)]
    pub fn transmit_and_take(&mut self, station: Address) -> bool
        ensures made { OnTrue result (PutTaken self.old (Transmit station) station self.new []) }
        ensures other { OnFalse result (self.new ≡ self.old) }
    {
        if !self.bus.are_level() {
            return false;
        }
        let Some(place) = self.place_of(station) else {
            return false;
        };
        if place != 0 {
            return false;
        }
        let _at_most_full = self.stations[0].queue_len();
        let Some(frame) = self.stations[0].front() else {
            return false;
        };
        if self.stations[0].looks_at(&frame) {
            return false;
        }
        let _transmitted = self.stations[0].pop();
        count_frame(&mut self.counts);
        self.bus.put_passed(frame, 1);
        true
    }

    /// Makes the Inject of a frame and a station's Take of it with room, as `apply` one after the other, if the station is the first, all
    /// stations have looked at every frame of the bus, and neither call is refused. The events are put into a place that has none yet.
    ///
    /// Else this returns false; or it returns want of memory, which only the Take may find. Then nothing changes: these calls are to be
    /// made one by one.
    #[inline(always)]
    pub fn inject_and_take(
        &mut self,
        station: Address,
        frame: &Frame,
        told: &mut Events,
    ) -> Result<bool, AllocError>
        requires { told.old ≡ [] }
        ensures made { IfOk result (λ is_made. OnTrue is_made (PutTaken self.old (Inject frame.now) station self.new told.new)) }
        ensures other { IfOk result (λ is_made. OnFalse is_made (self.new ≡ self.old)) }
        ensures untold { IfOk result (λ is_made. OnFalse is_made (told.new ≡ [])) }
        ensures err { OnErr result (self.new ≡ self.old) }
        ensures silent { OnErr result (told.new ≡ []) }
    {
        fits_frame(frame);
        if !self.bus.are_level() {
            return Ok(false);
        }
        let Some(place) = self.place_of(station) else {
            return Ok(false);
        };
        if place != 0 {
            return Ok(false);
        }
        if self.place_of(read_id(frame.id()).from).is_some() {
            return Ok(false);
        }
        let now = self.clock.now();
        let is_malformed = match self.stations[0].take(frame, true, now, told) {
            Ok(is_malformed) => is_malformed,
            Err(Stopped::OutOfMemory) => return Err(AllocError),
            Err(Stopped::Refused(_)) => return Ok(false),
        };
        count_frame(&mut self.counts);
        self.bus.put_passed(*frame, 1);
        self.looked(is_malformed, told);
        Ok(true)
    }
}
