//! The Take of a frame that is none of a station's business, as most Takes are.
ghost use Rattle.live_segment.specs.Passing.{IsPassing};

use crate::live::Live;
use pgn_ids::Address;
use segment_law::Call;
use segment_state::Passing;
use stored_calls::Stored;

impl Live {
    /// Makes the Take of a station whose next frame is none of its business, if the call can be stored. Unless a frame is passed,
    /// nothing has changed.
    #[inline(always)]
    pub(crate) fn pass_by(&mut self, station: Address) -> Passing
        ensures { IsPassing self.old station self.new result }
    {
        if self.calls.is_full() {
            return Passing::Busy;
        }
        if self.calls.reserve().is_err() {
            return Passing::Busy;
        }
        match self.segment.pass_by(station) {
            Passing::Busy => Passing::Busy,
            Passing::Rests => Passing::Rests,
            Passing::Passed => {
                self.calls.push_reserved(Stored {
                    by: None,
                    call: Call::Take {
                        station,
                        room: true,
                    },
                });
                Passing::Passed
            }
        }
    }
}
