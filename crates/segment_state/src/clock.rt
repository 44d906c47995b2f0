//! Ticks, and timers that fire.
ghost use Rattle.segment_law.specs.Calls.{at_address, ticks, fires};
ghost use Rattle.segment_law.specs.declared.reply.Reply.TheVariants.{Done};
ghost use Rattle.segment_state.specs.Answers.{IsAnswerBy, IsMade};
ghost use Rattle.std.specs.Prelude.{◌≡◌, [], OnErr};

use crate::made::Made;
use crate::state::SegmentState;
use crate::stop::{Stop, stop_of};
use pgn_ids::Address;
use segment_law::Refusal;
use station_core::Events;

impl SegmentState {
    /// The clock advances by n ticks.
    #[inline(always)]
    pub fn tick(&mut self, n: u64) -> Result<Made, Stop>
        ensures { IsMade (ticks self.old n) self.old self.new [] result }
    {
        match self.clock.advance(n) {
            Ok(()) => Ok(Made::Done),
            Err(_) => Err(Stop::Refused(Refusal::ClockEnd)),
        }
    }

    /// Fires the first timer of a station that is due. Its events are put into a place that has none yet.
    #[inline(never)]
    pub(crate) fn fire(&mut self, station: Address, told: &mut Events) -> Result<(), Stop>
        requires { told.old ≡ [] }
        ensures answer { IsAnswerBy (λ _. Done told.new) (at_address self.old station (fires self.old)) self.old self.new result }
        ensures silent { OnErr result (told.new ≡ []) }
    {
        let Some(place) = self.place_of(station) else {
            return Err(Stop::Refused(Refusal::NoSuchStation));
        };
        let now = self.clock.now();
        match self.stations[place].fire(now) {
            Ok(events) => {
                self.tell(events, told);
                Ok(())
            }
            Err(cause) => Err(stop_of(cause)),
        }
    }
}
