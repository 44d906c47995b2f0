//! The newest frame, taken by the stations that are abreast before it.
ghost use Rattle.std.specs.Prelude.{◌≡◌, ◌<◌, IfSome, IfNone, vec_len, vec_capacity};
ghost use Rattle.segment_state.specs.Abreast.{FirstPass, PutAbreast};

use crate::state::SegmentState;
use drive_course::{Course, count_frame, take_first};
use pgn_ids::Address;

impl SegmentState {
    /// If the stations are abreast, the first of them take the newest frame with room, up to one that is refused or finds no memory, or no
    /// room to note its events. Returns how many do. None do if the stations aren't abreast.
    #[inline(never)]
    pub fn take_abreast(&mut self, course: &mut Course) -> usize
        ensures { FirstPass result self.old self.new course.old course.new }
    {
        if !self.bus.are_abreast() {
            return 0;
        }
        let Some(frame) = self.bus.frame(self.bus.len()) else {
            return 0;
        };
        let now = self.clock.now();
        let taken = take_first(&mut self.stations, &frame, now, course, &mut self.counts);
        self.bus.pass_first(taken);
        taken
    }

    /// If the stations are level, puts the first frame of a station's queue on the bus, and the first of the stations take it, as by
    /// `transmit` and `take_abreast`. Returns how many do. The frame is read and sorted before it is put on the bus, where it replaces the
    /// newest if all of them take it. None if they aren't level or there is no such frame; then nothing changes.
    #[inline(always)]
    pub fn put_abreast(&mut self, station: Address, course: &mut Course) -> Option<usize>
        requires room { vec_len course.old.frames < vec_capacity course.old.frames }
        ensures put { IfSome result (λ n. PutAbreast station n self.old self.new course.old course.new) }
        ensures none { IfNone result (self.new ≡ self.old) }
        ensures untold { IfNone result (course.new ≡ course.old) }
    {
        if !self.bus.are_level() {
            return None;
        }
        let place = self.place_of(station)?;
        let frame = self.stations[place].front()?;
        let _transmitted = self.stations[place].pop();
        count_frame(&mut self.counts);
        course.put(Some(frame));
        let now = self.clock.now();
        let taken = take_first(&mut self.stations, &frame, now, course, &mut self.counts);
        self.bus.put_passed(frame, taken);
        Some(taken)
    }
}
