//! Frames that a station takes without looking at them, as most stations do with most frames.
ghost use Rattle.std.specs.Prelude.{◌≡◌};
ghost use Rattle.segment_state.specs.Passing.{concerns as concerns_of, passing_at, IsPassing};

use crate::state::SegmentState;
use bus_frame::Frame;
use pgn_ids::Address;
use station_core::Station;
use tp_wire::is_transport;

/// What a station does with its next frame, if it is none of its business.
#[derive(Clone, Copy, Debug, PartialEq, Eq)]
pub enum Passing {
    /// It takes the frame with room.
    Passed,
    /// No frame waits for it, or the address isn't a station's.
    Rests,
    /// Nothing: the frame concerns it, or its queue has no place.
    Busy,
}

// Whether a station has something to do with a frame: it looks at it, and the frame is one of the protocol's.
#[inline(always)]
fn concerns(station: &Station, frame: &Frame) -> bool
    ensures { result ≡ concerns_of station.now frame.now }
{
    station.looks_at(frame) && is_transport(frame)
}

impl SegmentState {
    /// Makes the Take with room of a station whose next frame is none of its business, as `apply`. It takes no memory. Unless a
    /// frame is passed, nothing has changed.
    #[inline(always)]
    pub fn pass_by(&mut self, station: Address) -> Passing
        ensures value { result ≡ passing_at self.old station }
        ensures made { IsPassing self.old station self.new result }
    {
        let Some(place) = self.place_of(station) else {
            return Passing::Rests;
        };
        let Some(frame) = self.bus.peek(place) else {
            return Passing::Rests;
        };
        let taker = &self.stations[place];
        if taker.take_refusal().is_some() {
            return Passing::Busy;
        }
        if concerns(taker, frame) {
            return Passing::Busy;
        }
        self.bus.pass(place);
        Passing::Passed
    }
}
