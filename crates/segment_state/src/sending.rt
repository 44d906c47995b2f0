//! Messages that are sent, pumped and cancelled.
ghost use Rattle.std.specs.Prelude.{◌≡◌, [], OnErr};
ghost use Rattle.segment_law.specs.Calls.{at_address, sends, pumps, cancels};
ghost use Rattle.segment_state.specs.Answers.{IsAnswerBy, IsMade};
ghost use Rattle.segment_law.specs.declared.reply.Reply.TheVariants.{Done};

use crate::made::Made;
use crate::state::SegmentState;
use crate::stop::{Stop, refused, stop_of};
use message_events::Bytes;
use pgn_ids::{Address, Pgn};
use segment_law::Refusal;
use station_core::Events;

impl SegmentState {
    /// Sends a message.
    #[inline(never)]
    pub(crate) fn send(
        &mut self,
        from: Address,
        to: Address,
        pgn: Pgn,
        bytes: Bytes,
    ) -> Result<Made, Stop>
        ensures { IsMade (at_address self.old from (sends self.old to pgn bytes)) self.old self.new [] result }
    {
        let Some(place) = self.place_of(from) else {
            return Err(Stop::Refused(Refusal::NoSuchStation));
        };
        match self.stations[place].send(to, pgn, bytes) {
            Ok(number) => Ok(Made::Sent(number)),
            Err(refused) => Err(stop_of(refused.cause)),
        }
    }

    /// Queues the next frames of a lane, and puts its event into a place that has none yet.
    #[inline(never)]
    pub(crate) fn pump(
        &mut self,
        station: Address,
        to: Address,
        told: &mut Events,
    ) -> Result<(), Stop>
        requires { told.old ≡ [] }
        ensures answer { IsAnswerBy (λ _. Done told.new) (at_address self.old station (pumps self.old to)) self.old self.new result }
        ensures silent { OnErr result (told.new ≡ []) }
    {
        self.pump_telling(station, to, told)
    }

    /// `pump`, for a caller that knows which call it makes.
    #[inline(always)]
    pub fn pump_telling(
        &mut self,
        station: Address,
        to: Address,
        told: &mut Events,
    ) -> Result<(), Stop>
        requires { told.old ≡ [] }
        ensures answer { IsAnswerBy (λ _. Done told.new) (at_address self.old station (pumps self.old to)) self.old self.new result }
        ensures silent { OnErr result (told.new ≡ []) }
    {
        let Some(place) = self.place_of(station) else {
            return Err(Stop::Refused(Refusal::NoSuchStation));
        };
        let now = self.clock.now();
        match self.stations[place].pump(to, now, told) {
            Ok(()) => {
                self.count_told(told);
                Ok(())
            }
            Err(cause) => Err(refused(cause)),
        }
    }

    /// Cancels a message that has no outcome yet. Its events are put into a place that has none yet.
    #[inline(never)]
    pub(crate) fn cancel(
        &mut self,
        from: Address,
        to: Address,
        number: u64,
        told: &mut Events,
    ) -> Result<(), Stop>
        requires { told.old ≡ [] }
        ensures answer { IsAnswerBy (λ _. Done told.new) (at_address self.old from (cancels self.old to number)) self.old self.new result }
        ensures silent { OnErr result (told.new ≡ []) }
    {
        let Some(place) = self.place_of(from) else {
            return Err(Stop::Refused(Refusal::NoSuchStation));
        };
        match self.stations[place].cancel(to, number) {
            Ok(events) => {
                self.tell(events, told);
                Ok(())
            }
            Err(cause) => Err(refused(cause)),
        }
    }
}
