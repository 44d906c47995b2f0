//! Frames that are taken, taken again and missed.
ghost use Rattle.segment_law.specs.Calls.{at_address, takes, repeats, overruns};
ghost use Rattle.segment_law.specs.declared.call.Call.TheVariants.{Take};
ghost use Rattle.segment_law.specs.declared.reply.Reply.TheVariants.{Done};
ghost use Rattle.segment_law.specs.Readers.{wanted};
ghost use Rattle.segment_state.specs.Answers.{IsAnswerBy, IsPart};
ghost use Rattle.segment_state.specs.Memory.{MayAskMemory};
ghost use Rattle.std.specs.Prelude.{◌≡◌, ◌<◌, [], true, false, length, IfOk, OnErr, IfNone, OnSome, IsErrOf};
ghost use Rattle.bus_order.specs.Bus.{next_frame};

use crate::state::SegmentState;
use crate::stop::{Stop, stop_of};
use bus_frame::Frame;
use drive_course::count_repeat;
use pgn_ids::Address;
use segment_law::Refusal;
use station_core::Events;

impl SegmentState {
    /// A station takes the next frame of the bus, and puts its events into a place that has none yet.
    #[inline(never)]
    pub(crate) fn take(
        &mut self,
        station: Address,
        room: bool,
        told: &mut Events,
    ) -> Result<(), Stop>
        requires { told.old ≡ [] }
        ensures answer { IsAnswerBy (λ _. Done told.new) (at_address self.old station (takes self.old room)) self.old self.new result }
        ensures silent { OnErr result (told.new ≡ []) }
        ensures memory { IsErrOf result Stop.OutOfMemory → MayAskMemory self.old (Take station room) }
    {
        self.take_telling(station, room, told)
    }

    /// `take`, for a caller that knows which call it makes.
    #[inline(always)]
    pub fn take_telling(
        &mut self,
        station: Address,
        room: bool,
        told: &mut Events,
    ) -> Result<(), Stop>
        requires { told.old ≡ [] }
        ensures answer { IsAnswerBy (λ _. Done told.new) (at_address self.old station (takes self.old room)) self.old self.new result }
        ensures silent { OnErr result (told.new ≡ []) }
        ensures memory { IsErrOf result Stop.OutOfMemory → MayAskMemory self.old (Take station room) }
    {
        let Some(at) = self.place_of(station) else {
            return Err(Stop::Refused(Refusal::NoSuchStation));
        };
        let Some(frame) = self.bus.peek(at) else {
            return Err(Stop::Refused(Refusal::NothingToTake));
        };
        let now = self.clock.now();
        let is_malformed = match self.stations[at].take(frame, room, now, told) {
            Ok(is_malformed) => is_malformed,
            Err(cause) => return Err(stop_of(cause)),
        };
        self.bus.pass(at);
        self.looked(is_malformed, told);
        Ok(())
    }

    /// `take_telling` with room, unless the frame completes a message: then this returns None, and nothing has changed yet.
    #[inline(always)]
    pub fn take_part(&mut self, station: Address, told: &mut Events) -> Result<Option<()>, Stop>
        requires { told.old ≡ [] }
        ensures answer { IsPart told.new (at_address self.old station (takes self.old true)) self.old self.new result }
        ensures none { IfOk result (λ part. OnSome part (wanted self.old station false ≡ ([], 0))) }
        ensures untold { IfOk result (λ part. IfNone part (told.new ≡ [])) }
        ensures silent { OnErr result (told.new ≡ []) }
        ensures memory { IsErrOf result Stop.OutOfMemory → MayAskMemory self.old (Take station true) }
    {
        let Some(at) = self.place_of(station) else {
            return Err(Stop::Refused(Refusal::NoSuchStation));
        };
        let Some(frame) = self.bus.peek(at) else {
            return Err(Stop::Refused(Refusal::NothingToTake));
        };
        let now = self.clock.now();
        let is_malformed = match self.stations[at].take_part(frame, now, told) {
            Ok(Some(is_malformed)) => is_malformed,
            Ok(None) => return Ok(None),
            Err(cause) => return Err(stop_of(cause)),
        };
        self.bus.pass(at);
        self.looked(is_malformed, told);
        Ok(Some(()))
    }

    /// A station takes again the frame that it took last, and puts its events into a place that has none yet.
    #[inline(never)]
    pub(crate) fn take_again(
        &mut self,
        station: Address,
        room: bool,
        told: &mut Events,
    ) -> Result<(), Stop>
        requires { told.old ≡ [] }
        ensures answer { IsAnswerBy (λ _. Done told.new) (at_address self.old station (repeats self.old room)) self.old self.new result }
        ensures silent { OnErr result (told.new ≡ []) }
    {
        let Some(place) = self.place_of(station) else {
            return Err(Stop::Refused(Refusal::NoSuchStation));
        };
        let Some(frame) = self.bus.again(place) else {
            return Err(Stop::Refused(Refusal::NothingToRepeat));
        };
        let now = self.clock.now();
        let is_malformed = match self.stations[place].take(&frame, room, now, told) {
            Ok(is_malformed) => is_malformed,
            Err(cause) => return Err(stop_of(cause)),
        };
        count_repeat(&mut self.counts);
        self.looked(is_malformed, told);
        Ok(())
    }

    /// A station missed the next n frames. Its events are put into a place that has none yet.
    #[inline(never)]
    pub(crate) fn overrun(
        &mut self,
        station: Address,
        n: u64,
        told: &mut Events,
    ) -> Result<(), Stop>
        requires { told.old ≡ [] }
        ensures answer { IsAnswerBy (λ _. Done told.new) (at_address self.old station (overruns self.old n)) self.old self.new result }
        ensures silent { OnErr result (told.new ≡ []) }
    {
        let Some(place) = self.place_of(station) else {
            return Err(Stop::Refused(Refusal::NoSuchStation));
        };
        if n > self.bus.waiting(place) {
            return Err(Stop::Refused(Refusal::NothingToTake));
        }
        let events = self.stations[place].overrun()?;
        let _passed = self.bus.skip(place, n);
        self.bus.release();
        self.tell(events, told);
        Ok(())
    }

    /// The frame that the station at a place takes next.
    pub(crate) fn next_frame(&self, place: usize) -> Option<Frame>
        requires { place < length self.now.stations }
        ensures { result ≡ next_frame self.now.bus place }
    {
        let waiting = self.bus.waiting(place);
        if waiting == 0 {
            return None;
        }
        self.bus.frame(self.bus.len() - waiting + 1)
    }
}
