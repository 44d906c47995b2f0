//! Frames that are put on the bus.
ghost use Rattle.std.specs.Prelude.{◌≡◌, ◌↔◌, [], OnOk, OnErr, IsErrOf, IsTrue};
ghost use Rattle.bus_order.specs.Bus.{is_full};
ghost use Rattle.segment_law.specs.Calls.{at_address, with_frame, transmits, injects};
ghost use Rattle.segment_law.specs.declared.reply.Reply.TheVariants.{Done};
ghost use Rattle.segment_state.specs.Answers.{IsAnswerBy};
ghost use Rattle.segment_state.specs.Memory.{KeepsTwo};

use crate::state::SegmentState;
use crate::stop::Stop;
use bus_frame::Frame;
use bus_order::PutError;
use drive_course::count_frame;
use pgn_ids::{Address, read_id};
use segment_law::Refusal;

impl SegmentState {
    /// Puts the first frame of a station's queue on the bus.
    #[inline(never)]
    pub fn transmit(&mut self, station: Address) -> Result<(), Stop>
        ensures answer { IsAnswerBy (λ _. Done []) (at_address self.old station (transmits self.old)) self.old self.new result }
        ensures memory { IsErrOf result Stop.OutOfMemory → KeepsTwo self.old }
    {
        self.transmit_here(station)
    }

    /// `transmit`, for a caller that knows which call it makes.
    #[inline(always)]
    pub(crate) fn transmit_here(&mut self, station: Address) -> Result<(), Stop>
        ensures answer { IsAnswerBy (λ _. Done []) (at_address self.old station (transmits self.old)) self.old self.new result }
        ensures memory { IsErrOf result Stop.OutOfMemory → KeepsTwo self.old }
    {
        let Some(place) = self.place_of(station) else {
            return Err(Stop::Refused(Refusal::NoSuchStation));
        };
        let Some(frame) = self.stations[place].front() else {
            return Err(Stop::Refused(Refusal::NothingToSend));
        };
        match self.put(frame) {
            Ok(()) => {}
            Err(PutError::BusFull) => return Err(Stop::Refused(Refusal::BusFull)),
            Err(PutError::OutOfMemory) => return Err(Stop::OutOfMemory),
        }
        let _transmitted = self.stations[place].pop();
        Ok(())
    }

    /// Puts the frame of a foreign node on the bus.
    #[inline]
    #[tactic(auto, using(crate::proofs::Stations::call_laws))]
    pub(crate) fn inject(&mut self, frame: Frame) -> Result<(), Stop>
        ensures answer { IsAnswerBy (λ _. Done []) (injects self.old frame) self.old self.new result }
        ensures memory { IsErrOf result Stop.OutOfMemory → KeepsTwo self.old }
    {
        if self.place_of(read_id(frame.id()).from).is_some() {
            return Err(Stop::Refused(Refusal::StationAddress));
        }
        match self.put(frame) {
            Ok(()) => Ok(()),
            Err(PutError::BusFull) => Err(Stop::Refused(Refusal::BusFull)),
            Err(PutError::OutOfMemory) => Err(Stop::OutOfMemory),
        }
    }

    // Puts a frame on the bus, and counts it.
    fn put(&mut self, frame: Frame) -> Result<(), PutError>
        ensures ok { OnOk result (self.new ≡ with_frame self.old frame) }
        ensures full { IsErrOf result PutError.BusFull ↔ IsTrue (is_full self.old.bus) }
        ensures memory { IsErrOf result PutError.OutOfMemory → KeepsTwo self.old }
        ensures err { OnErr result (self.new ≡ self.old) }
    {
        self.bus.put(frame)?;
        count_frame(&mut self.counts);
        Ok(())
    }
}
